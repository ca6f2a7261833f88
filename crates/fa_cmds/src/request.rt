//! A request as the client sends it.
ghost use Rattle.std.specs.Prelude.{◌≡◌, ◌≢◌, ◌∷◌, ◌++◌, take, IfOk, IfErr};
ghost use Rattle.byteorder.specs.Endian.{big_bytes};
ghost use Rattle.fa_cmds.specs.Requests.{request_bytes, body_length, command_number, IsNamed, IsRequest};
ghost use Rattle.fa_cmds.specs.Requests.{is_fua as fua, is_no_hole as no_hole};

use byteorder::{BigEndian, ByteOrder};
use thiserror::Error;

/// The bytes of a request, without the data that may follow it.
pub const REQUEST_BYTES: usize = 28;

/// The first four bytes of a request.
const REQUEST_MAGIC: u32 = 0x2560_9513;

/// The flag that what is done is to be on its images before the reply.
pub(crate) const FUA: u16 = 1;

/// The flag that zeros are to keep bytes of their own.
pub(crate) const NO_HOLE: u16 = 2;

/// What a request asks for. NBD protocol text, "Request types".
#[derive(Clone, Copy, Debug, PartialEq, Eq)]
pub enum Command {
    /// Command 0: bytes of the disk.
    Read,
    /// Command 1: new bytes of the disk, which follow the request.
    Write,
    /// Command 2: the end of the connection.
    Disconnect,
    /// Command 3: all that was answered before, on its images.
    Flush,
    /// Command 4: bytes that are no longer wanted.
    Trim,
    /// Command 6: zeros.
    WriteZeroes,
    /// Another command, by its number.
    Other(u16),
}

/// The fields of a request. NBD protocol text, "Request message".
#[derive(Clone, Copy)]
pub struct Request {
    /// The command's flags. Bit 0 is FUA, and bit 1 is NO_HOLE.
    pub flags: u16,
    /// What is asked for.
    pub command: Command,
    /// The client's mark, which the reply repeats.
    pub cookie: u64,
    /// Where the range begins, in bytes.
    pub offset: u64,
    /// How many bytes the range has.
    pub length: u32,
}

impl Request {
    /// The flag FUA: what is done is to be on its images before the reply. NBD protocol text, "Command
    /// flags".
    pub fn is_fua(self) -> bool
        ensures { result ≡ fua self.flags }
    {
        self.flags & FUA != 0
    }

    /// The flag NO_HOLE: zeros are to keep bytes of their own. NBD protocol text, "Command flags".
    pub fn is_no_hole(self) -> bool
        ensures { result ≡ no_hole self.flags }
    {
        self.flags & NO_HOLE != 0
    }
}

/// The bytes do not begin as a request does.
#[derive(Clone, Copy, Debug, Error)]
#[error("wrong magic")]
pub struct WrongMagic;

/// The request that the bytes spell. Only the magic is judged, and bytes with another one are a
/// [`WrongMagic`]. NBD protocol text, "Request message".
pub fn read_request(bytes: &[u8; 28]) -> Result<Request, WrongMagic>
    ensures fits { IfOk result IsRequest }
    ensures spelled { IfOk result (λ r. bytes.now ≡ request_bytes r) }
    ensures magic { IfErr result (λ _. take 4 bytes.now ≢ big_bytes 4 0x25609513) }
{
    if BigEndian::read_u32(&bytes[0..4]) != REQUEST_MAGIC {
        return Err(WrongMagic);
    }
    Ok(Request {
        flags: BigEndian::read_u16(&bytes[4..6]),
        command: command_of(BigEndian::read_u16(&bytes[6..8])),
        cookie: BigEndian::read_u64(&bytes[8..16]),
        offset: BigEndian::read_u64(&bytes[16..24]),
        length: BigEndian::read_u32(&bytes[24..28]),
    })
}

/// The command of a number.
fn command_of(number: u16) -> Command
    ensures named { IsNamed result }
    ensures number { command_number result ≡ number }
{
    match number {
        0 => Command::Read,
        1 => Command::Write,
        2 => Command::Disconnect,
        3 => Command::Flush,
        4 => Command::Trim,
        6 => Command::WriteZeroes,
        _ => Command::Other(number),
    }
}

/// How many bytes of data follow the request: those of a WRITE, whatever is decided of it.
pub fn body_len(request: Request) -> u32
    ensures { result ≡ body_length request }
{
    match request.command {
        Command::Write => request.length,
        _ => 0,
    }
}
