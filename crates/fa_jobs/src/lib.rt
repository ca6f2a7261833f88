//! The jobs of dies: their calls of the dies' images.
#![tactic(auto)]

mod gate;
mod handing;
mod header;
mod moving;
mod opening;
mod reading;
mod running;
mod writing;

pub use gate::{Gate, ImageCallKind, Open};
pub use handing::hand_over;
pub use moving::end_move;
pub use opening::a_read_that_is_opened_has_run;
pub use reading::begin_read;
pub use running::run_job;
