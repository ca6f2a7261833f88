//! What is to be done with a request.
ghost use Rattle.std.specs.Prelude.{◌≡◌};
ghost use Rattle.fa_cmds.specs.Requests.{decision, row_of, is_past_end as past_end, IsToDo};

use crate::reply::ReplyCode;
use crate::request::{Command, FUA, NO_HOLE, Request};

/// The longest READ or WRITE: 32 MiB.
const MAX_LENGTH: u32 = 33_554_432;

/// What is decided of a request before the store is asked.
#[derive(Clone, Copy, PartialEq, Eq)]
pub enum Decision {
    /// The client ends the connection. There is no reply.
    Disconnect,
    /// The store is to be asked.
    Do,
    /// The reply has this code, and the store is not asked. Of a request of no bytes it is
    /// `Success`.
    Refuse(ReplyCode),
}

/// What is to be done with a request to a store of this size, in bytes.
///
/// DISC disconnects, whatever its other fields. Of other requests the first that applies:
/// - another command than READ, WRITE, FLUSH, TRIM and WRITE_ZEROES is refused as `Invalid`;
/// - a flag other than FUA, or than FUA and NO_HOLE of a WRITE_ZEROES, is refused as `Invalid`;
/// - a FLUSH is to be done, whatever its offset and length;
/// - a request of no bytes is answered `Success`, wherever its range begins;
/// - a READ or WRITE of more than 33,554,432 bytes is refused as `Invalid`;
/// - a range with bytes past the end is refused, of a READ or TRIM as `Invalid` and of a WRITE or
///   WRITE_ZEROES as `NoSpace`;
/// - else the store is to be asked.
///
/// NBD protocol text, "Request types", "Command flags" and "Error values".
#[tactic(auto, unfolding(crate::specs::Requests::decision))]
pub fn decide(request: Request, size: u64) -> Decision
    ensures rules { result ≡ decision request size }
    ensures to_do { result ≡ Decision.Do → IsToDo request size }
{
    if request.command == Command::Disconnect {
        return Decision::Disconnect;
    }
    if !is_served(request.command) || request.flags > known_flags(request.command) {
        return Decision::Refuse(ReplyCode::Invalid);
    }
    if !has_range(request.command) {
        return Decision::Do;
    }
    if request.length == 0 {
        return Decision::Refuse(ReplyCode::Success);
    }
    if is_limited(request.command) && request.length > MAX_LENGTH {
        return Decision::Refuse(ReplyCode::Invalid);
    }
    if is_past_end(request, size) {
        return Decision::Refuse(past_end_code(request.command));
    }
    Decision::Do
}

/// The store can be asked for it.
fn is_served(command: Command) -> bool
    ensures { result ≡ (row_of command).is_served }
{
    !matches!(command, Command::Disconnect | Command::Other(_))
}

/// The flags that a command may have, all of them set.
fn known_flags(command: Command) -> u16
    ensures { result ≡ (row_of command).flags }
{
    match command {
        Command::Read | Command::Write | Command::Flush | Command::Trim => FUA,
        Command::WriteZeroes => FUA | NO_HOLE,
        Command::Disconnect | Command::Other(_) => 0,
    }
}

/// Its offset and length name bytes of the store.
fn has_range(command: Command) -> bool
    ensures { result ≡ (row_of command).has_range }
{
    matches!(
        command,
        Command::Read | Command::Write | Command::Trim | Command::WriteZeroes
    )
}

/// READ and WRITE are, since the bytes of their range are sent.
fn is_limited(command: Command) -> bool
    ensures { result ≡ (row_of command).is_limited }
{
    matches!(command, Command::Read | Command::Write)
}

/// The range has bytes that the store has not.
fn is_past_end(request: Request, size: u64) -> bool
    ensures { result ≡ past_end request size }
{
    match request.offset.checked_add(u64::from(request.length)) {
        Some(end) => end > size,
        None => true,
    }
}

/// What a range past the end is answered with.
fn past_end_code(command: Command) -> ReplyCode
    ensures { result ≡ (row_of command).past_end }
{
    match command {
        Command::Write | Command::WriteZeroes => ReplyCode::NoSpace,
        _ => ReplyCode::Invalid,
    }
}
