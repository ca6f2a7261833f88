//! What is done with the images of the array of the settings: `format` makes them, and `check` and `dump` look at them.
#![tactic(auto)]

mod check_lines;
mod document;
mod dump_lines;
mod format;
mod look;
mod table;

pub use format::run_format;
pub use look::{Asked, Look, explain, mount_line, read_expected, run_look};
