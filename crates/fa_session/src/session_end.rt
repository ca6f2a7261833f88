//! How a connection ends.
ghost use Rattle.std.specs.Prelude.{◌≡◌};
ghost use Rattle.fa_session.specs.Ends.{end_number, end_of_read, end_of_stream, end_of_hearing};
ghost use Rattle.fa_session.specs.declared.session_end.SessionEnd.TheVariants.{WriteFailed};

use crate::stream_end::{HearEnd, StreamEnd};
use fa_io::{ReadEnd, SendFailed};

/// How a connection ended.
#[derive(Clone, Copy)]
pub enum SessionEnd {
    /// End 1: the client disconnected.
    Disconnected,
    /// End 2: the client aborted the negotiation.
    Aborted,
    /// End 3: the server closed the connection for a message that is none.
    Closed,
    /// End 4: the client's bytes ended.
    InputEnded,
    /// End 5: a read failed, or 2^62 were made.
    ReadFailed,
    /// End 6: a write failed or took no byte, or 2^62 were made.
    WriteFailed,
    /// End 7: no memory in the negotiation.
    NoMemory,
}

impl SessionEnd {
    /// The end's number, 1 to 7.
    pub fn number(self) -> u8
        ensures { result ≡ end_number self }
    {
        match self {
            SessionEnd::Disconnected => 1,
            SessionEnd::Aborted => 2,
            SessionEnd::Closed => 3,
            SessionEnd::InputEnded => 4,
            SessionEnd::ReadFailed => 5,
            SessionEnd::WriteFailed => 6,
            SessionEnd::NoMemory => 7,
        }
    }
}

impl From<ReadEnd> for SessionEnd {
    ghost from_gives = { λ end result. result ≡ end_of_read end };

    fn from(end: ReadEnd) -> SessionEnd {
        match end {
            ReadEnd::EndOfInput => SessionEnd::InputEnded,
            ReadEnd::Failed(_) | ReadEnd::TooManyReads => SessionEnd::ReadFailed,
        }
    }
}

impl From<SendFailed> for SessionEnd {
    ghost from_gives = { λ _ result. result ≡ WriteFailed };

    fn from(_failed: SendFailed) -> SessionEnd {
        SessionEnd::WriteFailed
    }
}

impl From<StreamEnd> for SessionEnd {
    ghost from_gives = { λ end result. result ≡ end_of_stream end };

    fn from(end: StreamEnd) -> SessionEnd {
        match end {
            StreamEnd::Unread(end) => SessionEnd::from(end),
            StreamEnd::Unsent(failed) => SessionEnd::from(failed),
        }
    }
}

impl From<HearEnd> for SessionEnd {
    ghost from_gives = { λ end result. result ≡ end_of_hearing end };

    fn from(end: HearEnd) -> SessionEnd {
        match end {
            HearEnd::Unread(end) => SessionEnd::from(end),
            HearEnd::Unsent(failed) => SessionEnd::from(failed),
            HearEnd::NoMemory => SessionEnd::NoMemory,
        }
    }
}
