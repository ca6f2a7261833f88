//! What a server has beside its threads and its array: where clients and looks come, files and images, and the line that stops it.
#![tactic(auto)]

mod ended;
mod held;
mod host;
mod listeners;
mod listening;
mod places;
mod plan;
mod side_by_side;
mod stop_line;
mod stop_waiter;

pub use ended::Ended;
pub use held::{Held, open_beside};
pub use host::ServerHost;
pub use listeners::{Listeners, bind_looks, listening_text};
pub use listening::{Listening, listening_of};
pub use places::{ImagePlaces, Parted, part_images};
pub use plan::{ServePlan, ThreadPlan};
pub use side_by_side::{Starter, Workplace, work_side_by_side};
pub use stop_waiter::StopWaiter;
