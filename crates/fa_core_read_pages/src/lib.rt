//! Which pages of a batch are lost, which of them are to be read, each with the dies that hold it, and the read of a booking.
#![tactic(auto)]

mod asking;
mod booked;
mod holding;
mod lost;

pub use asking::{booked_places, has_data, is_left, list_left, list_written, place_in};
pub use booked::read_of;
pub use lost::{first_lost, is_lost};
