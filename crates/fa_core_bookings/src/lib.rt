//! The calendar's part of an array's state: the current round, which read each booked round is for, and the windows.
#![tactic(auto)]

mod bookings;
mod places;
mod table;

pub use bookings::Bookings;
