//! The input of a command, read to its end.
ghost use Rattle.std.specs.Prelude.{◌≡◌, ◌≢◌, ℕ, List, IfOk, IfErr, OnErr};
ghost use Rattle.std.specs.Io.KnownBytes.{Consumes, IsAtEnd};

use std::alloc::Allocator;
use std::io::{ErrorKind, Read};

/// Reads an input to its end, or tells the kind of the error that came before.
pub fn read_input<R: Read, A: Allocator>(alloc: A, input: &mut R) -> Result<Vec<u8, A>, ErrorKind>
    ensures whole { IfOk result (λ text. Consumes (R.remaining input.old) (R.remaining input.new) text.items
        × IsAtEnd (R.remaining input.new)) }
    ensures part { OnErr result ((text : List ℕ) × Consumes (R.remaining input.old) (R.remaining input.new) text) }
    ensures kind { IfErr result (λ kind. kind ≢ ErrorKind.Interrupted) }
{
    let mut text = Vec::new(alloc);
    match input.read_to_end(&mut text) {
        Ok(_) => Ok(text),
        Err(error) => Err(error.kind()),
    }
}
