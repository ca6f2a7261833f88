//! The threads of a server: those who work for the dies, who collects, who rebuilds, who watches, who writes plans, who answers those who
//! look, who accepts clients, and the sessions. They share an array of any kind, and whoever watches it sees it as a `Watched`.
#![tactic(auto)]

mod counting_gate;
mod die_workers;
mod images_at_work;
mod ready;
mod serving;
mod sessions;
mod site;
mod tasks;

pub use ready::{Ready, ready_of};
pub use serving::serve_ready;
