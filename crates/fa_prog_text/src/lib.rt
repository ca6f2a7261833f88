//! The commands that want no array, `talk`, `plan` and `verify`, and what `talk` has in common with the same over an array.
#![tactic(auto)]

mod hex_lines;
mod input;
mod logged_plans;
mod output;
mod plan;
mod talk;
mod verify;
mod verify_log;

pub use hex_lines::{TextFault, read_hex_lines};
pub use input::read_input;
pub use plan::run_plan;
pub use talk::{refuse_text, refuse_unread, run_talk, talk_text};
pub use verify::run_verify;
pub use verify_log::run_verify_log;
