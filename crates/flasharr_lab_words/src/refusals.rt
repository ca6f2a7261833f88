//! Why events were refused, in words.
use fa_machine::{
    AbandonRefused, AdmitRefused, AdvanceRefused, ClaimRefused, CommitCopyRefused, CommitRefused,
    FlushRefused, ReserveCopyRefused, ReserveRefused, SpareRefused, WindowRefused,
};

/// A refusal that has a reason.
pub trait Reason {
    /// The reason in words.
    fn reason(&self) -> &'static str;
}

impl Reason for ClaimRefused {
    fn reason(&self) -> &'static str {
        match self {
            ClaimRefused::Claimed => "the page is claimed",
            ClaimRefused::NoMemory => "out of memory",
        }
    }
}

impl Reason for ReserveRefused {
    fn reason(&self) -> &'static str {
        match self {
            ReserveRefused::NoRoom => "too few dies have room",
            ReserveRefused::NoDie => "no die is live",
            ReserveRefused::Spent => "no sequence number is left",
            ReserveRefused::NoMemory => "out of memory",
        }
    }
}

impl Reason for CommitRefused {
    fn reason(&self) -> &'static str {
        match self {
            CommitRefused::Pending => "a program is pending",
            CommitRefused::Failed => "no copy was programmed",
        }
    }
}

impl Reason for AbandonRefused {
    fn reason(&self) -> &'static str {
        match self {
            AbandonRefused::Pending => "a program is in flight",
            AbandonRefused::Programmed => "a copy was programmed",
        }
    }
}

impl Reason for AdmitRefused {
    fn reason(&self) -> &'static str {
        match self {
            AdmitRefused::Lost(_) => "a page is lost",
            AdmitRefused::CalendarFull => "a calendar is full",
            AdmitRefused::Spent => "no rounds are left",
            AdmitRefused::NoMemory => "out of memory",
        }
    }
}

impl Reason for WindowRefused {
    fn reason(&self) -> &'static str {
        match self {
            WindowRefused::Busy => "the die takes no window",
            WindowRefused::HasOne => "the die has a window",
            WindowRefused::NoMemory => "out of memory",
        }
    }
}

impl Reason for AdvanceRefused {
    fn reason(&self) -> &'static str {
        match self {
            AdvanceRefused::Pending => "a job of this round is pending",
            AdvanceRefused::Idle => "nothing is booked",
            AdvanceRefused::Spent => "no round is left",
        }
    }
}

impl Reason for SpareRefused {
    fn reason(&self) -> &'static str {
        match self {
            SpareRefused::NotSpare => "the die is no spare",
        }
    }
}

impl Reason for ReserveCopyRefused {
    fn reason(&self) -> &'static str {
        match self {
            ReserveCopyRefused::Gone => "the page wants no such copy",
            ReserveCopyRefused::NoRoom => "no die has room for a copy",
            ReserveCopyRefused::Busy => "a copy is under way",
            ReserveCopyRefused::NoMemory => "out of memory",
        }
    }
}

impl Reason for CommitCopyRefused {
    fn reason(&self) -> &'static str {
        match self {
            CommitCopyRefused::Pending => "the copy is pending",
            CommitCopyRefused::Failed => "the copy failed",
        }
    }
}

impl Reason for FlushRefused {
    fn reason(&self) -> &'static str {
        match self {
            FlushRefused::Spent => "no flush is left",
        }
    }
}
