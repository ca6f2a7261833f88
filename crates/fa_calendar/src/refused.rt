//! Why a calendar took nothing in.

/// Nothing was booked or reserved, and the calendar is as it was.
#[derive(Clone, Copy)]
pub enum CalendarRefused {
    /// 1: a die would have more than 1,048,576 entries, which are its booked rounds and the rounds of its
    /// window that have not passed.
    Full,
    /// 2: out of memory.
    NoMemory,
}
