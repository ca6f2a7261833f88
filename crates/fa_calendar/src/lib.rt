//! The calendar of the dies: which rounds are booked for reads, which are kept for collectors, and so
//! which are open.
#![tactic(auto)]

mod busy;
mod calendar;
mod die;
mod dies;
mod gap;
mod merging;
mod refused;

pub use calendar::Calendar;
pub use refused::CalendarRefused;
