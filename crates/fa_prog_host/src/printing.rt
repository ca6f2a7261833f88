//! What a command prints, and the statuses with which it ends.
ghost use Rattle.std.specs.Prelude.{◌≡◌, ◌++◌, OnOk, string_bytes};
ghost use Rattle.std.specs.Fmt.{decimal};
ghost use Rattle.fa_prog_host.specs.Printing.{Prints, TellsNoMemory};

use fa_io::send_all;
use itoa::Buffer;
use std::alloc::{AllocError, Allocator};
use std::io::Write;

/// The status of a run that did its work.
pub const DONE: u8 = 0;

/// The status of a run whose work was refused, or that met a fault of memory, input or output.
pub const REFUSED: u8 = 1;

/// The status of a run with a fault of its arguments, its settings or its input's text.
pub const FAULTY: u8 = 2;

/// Prints a text, and answers the status, or the status of a refusal where a write fails.
pub fn print<W: Write>(output: &mut W, status: u8, text: &[u8]) -> u8
    ensures { Prints text.now status (W.contents output.old) (W.contents output.new) result }
{
    match send_all(output, text) {
        Ok(()) => status,
        Err(_) => REFUSED,
    }
}

/// Prints that memory was refused.
pub fn refuse_for_memory<W: Write>(output: &mut W) -> u8
    ensures { TellsNoMemory (W.contents output.old) (W.contents output.new) result }
{
    print(output, REFUSED, b"no memory\n")
}

/// Adds a number.
pub fn push_number<A: Allocator>(out: &mut String<A>, number: u64) -> Result<(), AllocError>
    ensures { OnOk result (string_bytes out.new ≡ string_bytes out.old ++ decimal number) }
{
    let mut digits = Buffer::new();
    out.push_str(digits.format(number))
}
