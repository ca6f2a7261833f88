//! The command `talk`.
ghost use Rattle.std.specs.Prelude.{◌≡◌, ◌⊎◌, ℕ, List, [], ◌∷◌, ◌++◌, IfOk, IfErr, codes, string_bytes};
ghost use Rattle.fa_session.specs.Ends.{end_number};
ghost use Rattle.fa_io.specs.Streams.{between};
ghost use Rattle.fa_prog_text.specs.HexLines.{bytes_of_text, IsFault};
ghost use Rattle.fa_prog_text.specs.Output.{GivesUp};
ghost use Rattle.fa_prog_host.specs.Printing.{TellsNoMemory};
ghost use Rattle.fa_prog_text.specs.Talk.{RefusesText, Talks, TellsTalk, RunsTalk, talk_text as text_of, line_text as text_of_line};

use crate::hex_lines::{TextFault, read_hex_lines};
use crate::input::read_input;
use crate::output::refuse_input;
use fa_plain_store::MemBlocks;
use fa_prog_host::printing::{DONE, FAULTY, print, refuse_for_memory};
use fa_session::{SessionEnd, serve_stream};
use std::alloc::{AllocError, Allocator};
use std::io::{ErrorKind, Read, Write};

/// The bytes of the store that the client of `talk` finds: 64 pages of 512.
pub(crate) const TALK_SIZE: u64 = 64 * 512;

/// The name of the export that the client of `talk` finds.
const EXPORT: &str = "disk";

/// The command `talk`.
pub fn run_talk<R: Read, W: Write, A: Allocator + Copy>(
    alloc: A,
    input: &mut R,
    output: &mut W,
) -> u8
    ensures { let streams = between (R.remaining input.old) (R.remaining input.new) (W.contents output.old) (W.contents output.new) in
        RunsTalk TALK_SIZE (codes "disk") streams result }
{
    match read_input(alloc, input) {
        Ok(text) => tell_talk(alloc, &text, output),
        Err(kind) => refuse_unread(output, kind),
    }
}

/// Prints why what a client says was not read to its end, by the kind of the error.
pub fn refuse_unread<W: Write>(output: &mut W, kind: ErrorKind) -> u8
    ensures { GivesUp kind (codes "talk: cannot read" ++ 10 ∷ []) (W.contents output.old) (W.contents output.new) result }
{
    refuse_input(output, kind, b"talk: cannot read\n")
}

/// Prints the connection of the bytes that a text spells, or its first faulty line.
fn tell_talk<W: Write, A: Allocator + Copy>(alloc: A, text: &[u8], output: &mut W) -> u8
    ensures { TellsTalk TALK_SIZE (codes "disk") text.now (W.contents output.old) (W.contents output.new) result
        ⊎ TellsNoMemory (W.contents output.old) (W.contents output.new) result }
{
    match talk(alloc, TALK_SIZE, text) {
        Ok(out) => print(output, DONE, out.as_bytes()),
        Err(fault) => refuse_text(alloc, fault, output),
    }
}

/// Prints why a text spells no bytes: its first faulty line, or that memory was refused.
pub fn refuse_text<W: Write, A: Allocator + Copy>(alloc: A, fault: TextFault, output: &mut W) -> u8
    ensures { (text : List ℕ) → IsFault (bytes_of_text text) fault
        → RefusesText text (W.contents output.old) (W.contents output.new) result }
{
    match fault {
        TextFault::Line(line) => match line_text(alloc, line) {
            Ok(told) => print(output, FAULTY, told.as_bytes()),
            Err(AllocError) => refuse_for_memory(output),
        },
        TextFault::NoMemory => refuse_for_memory(output),
    }
}

/// Serves one client, whose bytes are given by lines of hexadecimal digits, over a plain store of so
/// many zero bytes. Gives what the server says, in hexadecimal on one line, and on the next how the
/// connection ended.
fn talk<A: Allocator + Copy>(alloc: A, size: u64, text: &[u8]) -> Result<String<A>, TextFault>
    ensures talks { IfOk result (λ out. Talks size (codes "disk") text.now (string_bytes out)) }
    ensures fault { IfErr result (IsFault (bytes_of_text text.now)) }
{
    let bytes = read_hex_lines(alloc, text)?;
    let Ok(mut store) = MemBlocks::new(alloc, size) else {
        return Err(TextFault::NoMemory);
    };
    let mut reader = bytes.as_slice();
    let mut written = Vec::new(alloc);
    let end = serve_stream(alloc, &mut reader, &mut written, &mut store, EXPORT);
    match talk_text(alloc, &written, end) {
        Ok(out) => Ok(out),
        Err(AllocError) => Err(TextFault::NoMemory),
    }
}

/// What is printed of a connection. The error is out of memory.
#[tactic(auto, unfolding(crate::specs::Talk::talk_text))]
pub fn talk_text<A: Allocator + Copy>(
    alloc: A,
    written: &[u8],
    end: SessionEnd,
) -> Result<String<A>, AllocError>
    ensures { IfOk result (λ out. string_bytes out ≡ text_of written.now end) }
{
    let mut out = hex::encode(alloc, written)?;
    let number = end.number().to_string(alloc)?;
    out.push_str("\nend ")?;
    out.push_str(number.as_str())?;
    out.push('\n')?;
    Ok(out)
}

/// What is printed of a faulty line.
#[tactic(auto, unfolding(crate::specs::Talk::line_text))]
fn line_text<A: Allocator + Copy>(alloc: A, line: u64) -> Result<String<A>, AllocError>
    ensures { IfOk result (λ out. string_bytes out ≡ text_of_line line) }
{
    let number = line.to_string(alloc)?;
    let mut out = String::from_str(alloc, "talk: line ")?;
    out.push_str(number.as_str())?;
    out.push('\n')?;
    Ok(out)
}
