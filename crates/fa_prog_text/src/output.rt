//! What a command prints whose input cannot be read.
ghost use Rattle.fa_prog_text.specs.Output.{GivesUp};

use fa_prog_host::printing::{REFUSED, print, refuse_for_memory};
use std::io::{ErrorKind, Write};

/// Prints why an input was not read to its end, by the kind of the error: that memory was refused, or
/// the text that says that the input cannot be read.
pub(crate) fn refuse_input<W: Write>(output: &mut W, kind: ErrorKind, cannot_read: &[u8]) -> u8
    ensures { GivesUp kind cannot_read.now (W.contents output.old) (W.contents output.new) result }
{
    match kind {
        ErrorKind::OutOfMemory => refuse_for_memory(output),
        _ => print(output, REFUSED, cannot_read),
    }
}
