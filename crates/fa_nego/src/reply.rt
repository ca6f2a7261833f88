//! The bytes of the server: NBD protocol text, "Fixed newstyle negotiation" and "Option reply types".
ghost use Rattle.std.specs.Prelude.{◌≡◌, ℕ, ◌+◌, ◌^◌, ◌<◌, ◌≤◌, List, [], ◌++◌, length, IfOk, OnOk};
ghost use Rattle.byteorder.specs.Endian.{big_bytes};
ghost use Rattle.fa_nego.specs.Numbers.{rep_ack, rep_server};
ghost use Rattle.fa_nego.specs.Negotiation.{
  greeting_bytes,
  reply_head_bytes,
  option_reply,
  transmission_flags,
  told_if_asked,
  told,
  export_bytes,
  server_bytes,
};
ghost use Rattle.fa_nego.specs.Heard.{AreKinds};

use crate::asked::asks_for;
use crate::nego::MAX_NAME_BYTES;
use crate::numbers::{
    FLAG_NO_ZEROES, INFO_BLOCK_SIZE, INFO_EXPORT, INFO_NAME, OPT_LIST, REP_ACK, REP_INFO,
    REP_SERVER,
};
use byteorder::{BigEndian, ByteOrder};
use fa_nego_head::OPTION_MAGIC;
use std::alloc::{AllocError, Allocator};

/// The magic number with which the server's first words begin.
const GREETING_MAGIC: u64 = 0x4e42_444d_4147_4943;

/// The magic number of a reply to an option.
const REPLY_MAGIC: u64 = 0x0003_e889_0455_65a9;

/// The server's flags FIXED_NEWSTYLE and NO_ZEROES.
const SERVER_FLAGS: u16 = 3;

/// The transmission flags HAS_FLAGS, SEND_FLUSH, SEND_FUA, SEND_TRIM, SEND_WRITE_ZEROES and CAN_MULTI_CONN.
const TRANSMISSION_FLAGS: u16 = 0x016d;

/// How many zeros end the answer to EXPORT_NAME.
const ZEROES_LEN: usize = 124;

/// The least length of a request that is told: any range is served.
const MIN_BLOCK: u32 = 1;

/// The length and the boundary of requests that is told as preferred.
const PREFERRED_BLOCK: u32 = 4096;

/// The greatest length of a READ or WRITE that is told.
const MAX_BLOCK: u32 = 33_554_432;

/// The first words of the server.
#[tactic(auto, unfolding(crate::specs::Negotiation::greeting_bytes))]
pub fn first_words() -> [u8; 18]
    ensures { result ≡ greeting_bytes }
{
    let mut words = [0; 18];
    BigEndian::write_u64(&mut words, GREETING_MAGIC);
    BigEndian::write_u64(&mut words[8..], OPTION_MAGIC);
    BigEndian::write_u16(&mut words[16..], SERVER_FLAGS);
    words
}

/// What stands before the data of a reply, of which there are `len` bytes.
fn reply_head(option: u32, reply_type: u32, len: u32) -> [u8; 20]
    ensures { result ≡ reply_head_bytes option reply_type len }
{
    let mut head = [0; 20];
    BigEndian::write_u64(&mut head, REPLY_MAGIC);
    BigEndian::write_u32(&mut head[8..], option);
    BigEndian::write_u32(&mut head[12..], reply_type);
    BigEndian::write_u32(&mut head[16..], len);
    head
}

/// A reply with no data.
#[tactic(auto, unfolding(crate::specs::Negotiation::option_reply))]
pub fn reply<A: Allocator>(alloc: A, option: u32, reply_type: u32) -> Result<Vec<u8, A>, AllocError>
    ensures { IfOk result (λ said. said.items ≡ option_reply option reply_type []) }
{
    Vec::from_slice(alloc, &reply_head(option, reply_type, 0))
}

/// Says a reply whose data is `front` and then `back`.
fn push_reply<A: Allocator>(
    said: &mut Vec<u8, A>,
    option: u32,
    reply_type: u32,
    front: &[u8],
    back: &[u8],
) -> Result<(), AllocError>
    requires { length front.now + length back.now < 2 ^ 32 }
    ensures { OnOk result (said.new.items ≡ said.old.items ++ option_reply option reply_type (front.now ++ back.now)) }
{
    let len = (front.len() + back.len()) as u32;
    said.extend_from_slice(&reply_head(option, reply_type, len))?;
    said.extend_from_slice(front)?;
    said.extend_from_slice(back)?;
    Ok(())
}

/// The replies to a LIST: the export's name, and that it was all.
#[tactic(auto, unfolding(crate::specs::Negotiation::server_bytes))]
pub fn listing<A: Allocator>(alloc: A, export: &[u8]) -> Result<Vec<u8, A>, AllocError>
    requires { length export.now ≤ MAX_NAME_BYTES }
    ensures { IfOk result (λ said. said.items
        ≡ option_reply OPT_LIST rep_server (server_bytes export.now) ++ option_reply OPT_LIST rep_ack []) }
{
    let mut said = Vec::new(alloc);
    let len = name_len(export);
    push_reply(&mut said, OPT_LIST, REP_SERVER, &len, export)?;
    push_reply(&mut said, OPT_LIST, REP_ACK, &[], &[])?;
    Ok(said)
}

/// The four bytes that say how long a name is.
fn name_len(export: &[u8]) -> [u8; 4]
    requires { length export.now ≤ MAX_NAME_BYTES }
    ensures { result ≡ big_bytes 4 (length export.now) }
{
    let mut len = [0; 4];
    BigEndian::write_u32(&mut len, export.len() as u32);
    len
}

/// The size of an export and its transmission flags.
fn size_and_flags(size: u64) -> [u8; 10]
    ensures { result ≡ big_bytes 8 size ++ big_bytes 2 transmission_flags }
{
    let mut told = [0; 10];
    BigEndian::write_u64(&mut told, size);
    BigEndian::write_u16(&mut told[8..], TRANSMISSION_FLAGS);
    told
}

/// The two bytes before the data of this kind of information.
fn kind_bytes(kind: u16) -> [u8; 2]
    ensures { result ≡ big_bytes 2 kind }
{
    let mut bytes = [0; 2];
    BigEndian::write_u16(&mut bytes, kind);
    bytes
}

/// The sizes of blocks that an INFO_BLOCK_SIZE tells.
fn block_sizes() -> [u8; 12]
    ensures { result ≡ big_bytes 4 MIN_BLOCK ++ big_bytes 4 PREFERRED_BLOCK ++ big_bytes 4 MAX_BLOCK }
{
    let mut sizes = [0; 12];
    BigEndian::write_u32(&mut sizes, MIN_BLOCK);
    BigEndian::write_u32(&mut sizes[4..], PREFERRED_BLOCK);
    BigEndian::write_u32(&mut sizes[8..], MAX_BLOCK);
    sizes
}

/// Says an INFO reply of this kind, if it is among the kinds that are asked for.
fn push_if_asked<A: Allocator>(
    said: &mut Vec<u8, A>,
    option: u32,
    kind: u16,
    told: &[u8],
    kinds: &[u8],
) -> Result<(), AllocError>
    requires { length told.now ≤ MAX_NAME_BYTES }
    ensures { OnOk result ((asked : List ℕ) → AreKinds kinds.now asked
        → said.new.items ≡ said.old.items ++ told_if_asked option kind (big_bytes 2 kind ++ told.now) asked) }
{
    if asks_for(kinds, kind) {
        push_reply(said, option, REP_INFO, &kind_bytes(kind), told)?;
    }
    Ok(())
}

/// What an INFO or GO is told of an export, where it asks for these kinds of information, two bytes
/// each: INFO_EXPORT always, and each other kind once, however often it is asked for.
pub fn information<A: Allocator>(
    alloc: A,
    export: &[u8],
    size: u64,
    option: u32,
    kinds: &[u8],
) -> Result<Vec<u8, A>, AllocError>
    requires { length export.now ≤ MAX_NAME_BYTES }
    ensures { IfOk result (λ said. (asked : List ℕ) → AreKinds kinds.now asked
        → said.items ≡ told export.now size option asked) }
{
    let mut said = Vec::new(alloc);
    push_reply(
        &mut said,
        option,
        REP_INFO,
        &kind_bytes(INFO_EXPORT),
        &size_and_flags(size),
    )?;
    push_if_asked(&mut said, option, INFO_NAME, export, kinds)?;
    push_if_asked(&mut said, option, INFO_BLOCK_SIZE, &block_sizes(), kinds)?;
    push_reply(&mut said, option, REP_ACK, &[], &[])?;
    Ok(said)
}

/// The answer to EXPORT_NAME for a client with these flags.
#[tactic(auto, unfolding(crate::specs::Negotiation::export_bytes))]
pub fn export_data<A: Allocator>(alloc: A, size: u64, flags: u32) -> Result<Vec<u8, A>, AllocError>
    ensures { IfOk result (λ said. said.items ≡ export_bytes size flags) }
{
    let mut said = Vec::from_slice(alloc, &size_and_flags(size))?;
    if flags & FLAG_NO_ZEROES == 0 {
        said.extend_from_slice(&[0; ZEROES_LEN])?;
    }
    Ok(said)
}
