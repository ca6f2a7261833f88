//! How a part of a session ends that not all bytes came for, or that could not write all of its bytes.
ghost use Rattle.std.specs.Prelude.{◌≡◌};
ghost use Rattle.fa_session.specs.declared.stream_end.StreamEnd.TheVariants.{Unread, Unsent};
ghost use Rattle.fa_session.specs.declared.stream_end.HearEnd.TheVariants.{Unread as Unheard, Unsent as Unanswered};

use fa_io::{ReadEnd, SendFailed};

/// Why an exchange came to no end.
#[derive(Clone, Copy)]
pub(crate) enum StreamEnd {
    /// Not all bytes of the client came.
    Unread(ReadEnd),
    /// Not all bytes of the reply were written.
    Unsent(SendFailed),
}

impl From<ReadEnd> for StreamEnd {
    ghost from_gives = { λ end result. result ≡ Unread end };

    fn from(end: ReadEnd) -> StreamEnd {
        StreamEnd::Unread(end)
    }
}

impl From<SendFailed> for StreamEnd {
    ghost from_gives = { λ failed result. result ≡ Unsent failed };

    fn from(failed: SendFailed) -> StreamEnd {
        StreamEnd::Unsent(failed)
    }
}

/// Why a piece of a handshake was not heard and answered.
#[derive(Clone, Copy)]
pub(crate) enum HearEnd {
    /// No byte of the client came.
    Unread(ReadEnd),
    /// Not all bytes of the answer were written.
    Unsent(SendFailed),
    /// There was no memory for the piece or the answer.
    NoMemory,
}

impl From<ReadEnd> for HearEnd {
    ghost from_gives = { λ end result. result ≡ Unheard end };

    fn from(end: ReadEnd) -> HearEnd {
        HearEnd::Unread(end)
    }
}

impl From<SendFailed> for HearEnd {
    ghost from_gives = { λ failed result. result ≡ Unanswered failed };

    fn from(failed: SendFailed) -> HearEnd {
        HearEnd::Unsent(failed)
    }
}
