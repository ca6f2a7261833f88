//! The headers of an array's images: those with which a new array begins, and what the headers of images say of the
//! array that they are.
#![tactic(auto)]

mod expecting;
mod fault;
mod first_header;
mod formatting;
mod found;
mod judging;
pub mod laws;
mod places;
mod recovering;
mod rules;
mod seen;

pub use expecting::expect;
pub use fault::{FormatFault, MountFault, MountRefused};
pub use formatting::{format, format_1, format_spare};
pub use found::{Found, HeaderFound, read_headers};
pub use judging::{Judged, Standing, judge};
pub use places::place_of;
pub use recovering::judge_whole;
pub use rules::is_in;
