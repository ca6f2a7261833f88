//! The array of the settings: mounted from its images, seen by those who watch it while it is shared, each of whose looks takes its lock for a
//! bounded time, and closed.
#![tactic(auto)]

mod closing;
mod counting;
mod ending;
mod faults;
mod kept;
mod lost;
mod mounting;
mod plans;
mod seen;
mod served;
mod standing;

pub use closing::{close, end_text, status_of};
pub use ending::end_served;
pub use kept::Kept;
pub use lost::lost_lines;
pub use mounting::{mount, refuse_mount};
pub use plans::keeping;
pub use seen::Seen;
pub use served::Served;
