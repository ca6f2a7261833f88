//! Why an event was refused. A refusal changes nothing, save that of a copy that failed. Of several that
//! apply the one of the lowest number is answered, in the order in which they stand here, save that at the
//! admission of a batch a spent counter and want of memory come before a full calendar.
use fa_types::Page;

/// A page was not claimed.
#[derive(Clone, Copy)]
pub enum ClaimRefused {
    /// 1: the page is claimed.
    Claimed,
    /// 2: out of memory.
    NoMemory,
}

/// No number and no slots were reserved.
#[derive(Clone, Copy)]
pub enum ReserveRefused {
    /// 1: too few live dies have room.
    NoRoom,
    /// 2: no die is live.
    NoDie,
    /// 3: no sequence number is left.
    Spent,
    /// 4: out of memory.
    NoMemory,
}

/// What is reserved was not committed.
#[derive(Clone, Copy)]
pub enum CommitRefused {
    /// 1: a copy on a live die is not programmed yet.
    Pending,
    /// 2: no copy is programmed on a live die.
    Failed,
}

/// What is reserved was not given up.
#[derive(Clone, Copy)]
pub enum AbandonRefused {
    /// 1: a program of it is in flight.
    Pending,
    /// 2: a copy is programmed on a live die.
    Programmed,
}

/// A batch was not admitted, or not planned anew.
#[derive(Clone, Copy)]
pub enum AdmitRefused {
    /// 1: this page, the first in the list, was written and no live die holds it.
    Lost(Page),
    /// 2: a plan would take a die past its most closed rounds.
    CalendarFull,
    /// 3: too few rounds are left.
    Spent,
    /// 4: out of memory.
    NoMemory,
}

/// No window was reserved.
#[derive(Clone, Copy)]
pub enum WindowRefused {
    /// 1: the die is not live, its calendar has no room, or too few rounds are left.
    Busy,
    /// 2: a window of the die stands.
    HasOne,
    /// 3: out of memory.
    NoMemory,
}

/// The round did not rise.
#[derive(Clone, Copy)]
pub enum AdvanceRefused {
    /// 1: a read or a collector's step of this round has not ended.
    Pending,
    /// 2: nothing is booked and no window stands.
    Idle,
    /// 3: no round is left.
    Spent,
}

/// A die was not brought in.
#[derive(Clone, Copy)]
pub enum SpareRefused {
    /// 1: it is no spare, or was brought in before.
    NotSpare,
}

/// No slot was reserved for one more copy.
#[derive(Clone, Copy)]
pub enum ReserveCopyRefused {
    /// 1: the page is not thin, or has another number.
    Gone,
    /// 2: no die with room is without a copy.
    NoRoom,
    /// 3: a copy is under way.
    Busy,
    /// 4: out of memory.
    NoMemory,
}

/// A copy did not become current.
#[derive(Clone, Copy)]
pub enum CommitCopyRefused {
    /// 1: it is not programmed yet.
    Pending,
    /// 2: its die went out. The copy is over.
    Failed,
}

/// No flush was begun.
#[derive(Clone, Copy)]
pub enum FlushRefused {
    /// 1: no number of a flush is left.
    Spent,
}
