//! Lines of hexadecimal digits.
ghost use Rattle.std.specs.Prelude.{◌≡◌, ◌⊎◌, ◌++◌, IsErr, IfOk, IfErr, OnOk, Ok, drop, length};
ghost use Rattle.fa_prog_text.specs.HexLines.{without_spaces as spaceless, bytes_of_text, IsFault};
ghost use Rattle.hex.specs.Hex.{decode_of};

use fa_io::cut_line;
use hex::FromHexError;
use std::alloc::{AllocError, Allocator};

/// Why a text spells no bytes.
#[derive(Clone, Copy)]
pub enum TextFault {
    /// The first line, from 1, with another character than a digit or a space, or with an odd
    /// number of digits.
    Line(u64),
    /// Memory was refused.
    NoMemory,
}

/// The bytes that the lines of a text spell, joined. Spaces mean nothing, and digits are of either
/// case.
pub fn read_hex_lines<A: Allocator + Copy>(alloc: A, text: &[u8]) -> Result<Vec<u8, A>, TextFault>
    ensures bytes { IfOk result (λ bytes. bytes_of_text text.now ≡ Ok bytes.items) }
    ensures line { IfErr result (IsFault (bytes_of_text text.now)) }
{
    let mut bytes = Vec::new(alloc);
    let mut rest = text;
    let mut number = 1;
    'lines: while let Some((line, behind)) = cut_line(rest) {
        append_line(alloc, &mut bytes, line, number)?;
        rest = behind;
        number += 1;
    }
    Ok(bytes)
}

/// Appends the bytes that a line spells. It has this number.
fn append_line<A: Allocator + Copy>(
    alloc: A,
    bytes: &mut Vec<u8, A>,
    line: &[u8],
    number: u64,
) -> Result<(), TextFault>
    ensures ok { OnOk result (decode_of (spaceless line.now) ≡ Ok (drop (length bytes.old.items) bytes.new.items)) }
    ensures appended { OnOk result (bytes.new.items ≡ bytes.old.items ++ drop (length bytes.old.items) bytes.new.items) }
    ensures line { IfErr result (λ fault. (fault ≡ TextFault.NoMemory)
        ⊎ ((fault ≡ TextFault.Line number) × IsErr (decode_of (spaceless line.now)))) }
{
    let Ok(digits) = without_spaces(alloc, line) else {
        return Err(TextFault::NoMemory);
    };
    match hex::decode(alloc, digits.as_slice()) {
        Ok(more) => match bytes.extend_from_slice(more.as_slice()) {
            Ok(()) => Ok(()),
            Err(AllocError) => Err(TextFault::NoMemory),
        },
        Err(FromHexError::OutOfMemory) => Err(TextFault::NoMemory),
        Err(_) => Err(TextFault::Line(number)),
    }
}

/// A line without its spaces.
fn without_spaces<A: Allocator>(alloc: A, line: &[u8]) -> Result<Vec<u8, A>, AllocError>
    ensures { IfOk result (λ digits. digits.items ≡ spaceless line.now) }
{
    line.iter().copied().filter(|b| *b != b' ').collect(alloc)
}
