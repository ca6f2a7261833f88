//! A reply as the client reads it.
ghost use Rattle.std.specs.Prelude.{◌≡◌};
ghost use Rattle.fa_cmds.specs.Requests.{code_number, reply_bytes};

use byteorder::{BigEndian, ByteOrder};

/// The bytes of a reply, without the data that follows that of a READ.
pub const REPLY_BYTES: usize = 16;

/// The first four bytes of a reply.
const REPLY_MAGIC: u32 = 0x6744_6698;

/// What a reply says of its request. NBD protocol text, "Error values".
#[derive(Clone, Copy, PartialEq, Eq)]
pub enum ReplyCode {
    /// 0: it was done.
    Success,
    /// EIO, 5: bytes are lost, or a counter of the store is at its end.
    Io,
    /// ENOMEM, 12: no memory for it. It may be sent again.
    NoMemory,
    /// EINVAL, 22: the request is not one that can be served.
    Invalid,
    /// ENOSPC, 28: it reaches past the end, or there is no room to write.
    NoSpace,
}

impl ReplyCode {
    /// The number of the error, as it stands in a reply.
    pub fn number(self) -> u32
        ensures { result ≡ code_number self }
    {
        match self {
            ReplyCode::Success => 0,
            ReplyCode::Io => 5,
            ReplyCode::NoMemory => 12,
            ReplyCode::Invalid => 22,
            ReplyCode::NoSpace => 28,
        }
    }
}

/// The 16 bytes of the reply to the request with this cookie. NBD protocol text, "Simple reply
/// message"; the data that follows the reply to a READ is not among them.
#[tactic(auto, unfolding(crate::specs::Requests::reply_bytes))]
pub fn write_reply(code: ReplyCode, cookie: u64) -> [u8; 16]
    ensures { result ≡ reply_bytes code cookie }
{
    let mut bytes = [0; REPLY_BYTES];
    BigEndian::write_u32(&mut bytes[0..4], REPLY_MAGIC);
    BigEndian::write_u32(&mut bytes[4..8], code.number());
    BigEndian::write_u64(&mut bytes[8..16], cookie);
    bytes
}
