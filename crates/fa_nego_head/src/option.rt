//! What is held of an option: NBD protocol text, "Newstyle negotiation".
ghost use Rattle.std.specs.Prelude.{◌≡◌, length};
ghost use Rattle.fa_nego_head.specs.Heads.{IsHead, IsOptionIn};

use byteorder::{BigEndian, ByteOrder};

/// The magic number of an option.
pub const OPTION_MAGIC: u64 = 0x4948_4156_454f_5054;

/// How many bytes stand before an option's data.
pub const HEAD_LEN: usize = 16;

/// The most bytes of data that an option may have.
const MAX_DATA_BYTES: u32 = 65_536;

/// What is held of an option.
#[derive(Clone, Copy)]
pub enum Heard<'a> {
    /// Less than a whole option.
    Waits,
    /// Not the magic number of an option.
    WrongMagic,
    /// More data is announced than an option may have.
    TooLong,
    /// An option with all of its data.
    Whole { option: u32, given: &'a [u8] },
}

/// What stands before an option's data.
#[derive(Clone, Copy)]
enum Head {
    /// Not the magic number of an option.
    WrongMagic,
    /// More data is announced than an option may have.
    TooLong,
    /// An option with so many bytes of data.
    Good { option: u32, len: u32 },
}

/// Judges the bytes that are held of an option: first its head, then whether its data is whole.
pub fn option_in(held: &[u8]) -> Heard<'_>
    ensures { IsOptionIn held.now result }
{
    if held.len() < HEAD_LEN {
        return Heard::Waits;
    }
    let (head, given) = held.split_at(HEAD_LEN);
    match head_of(head) {
        Head::WrongMagic => Heard::WrongMagic,
        Head::TooLong => Heard::TooLong,
        Head::Good { option, len } => {
            if given.len() < len as usize {
                return Heard::Waits;
            }
            Heard::Whole { option, given }
        }
    }
}

/// Judges the 16 bytes before an option's data.
fn head_of(head: &[u8]) -> Head
    requires { length head.now ≡ HEAD_LEN }
    ensures { IsHead head.now result }
{
    if BigEndian::read_u64(head) != OPTION_MAGIC {
        return Head::WrongMagic;
    }
    let len = BigEndian::read_u32(&head[12..]);
    if len > MAX_DATA_BYTES {
        return Head::TooLong;
    }
    let option = BigEndian::read_u32(&head[8..]);
    Head::Good { option, len }
}
