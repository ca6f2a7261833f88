//! Those who work for an array while it is served: the workers of its dies and who helps them, the collector and the rebuilder.
#![tactic(auto)]

mod collecting;
mod die_events;
mod helping;
mod rebuild_events;
mod rebuild_stage;
mod rebuilding;
mod working;

pub use collecting::collector_worker;
pub use helping::{Helper, HelperMemory};
pub use rebuilding::rebuild_worker;
pub use working::die_worker;
