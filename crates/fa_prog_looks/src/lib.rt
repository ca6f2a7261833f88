//! Who looks at what runs: the second listener of a server, and the command that asks it. What is shown there is not known here.
#![tactic(auto)]

mod answers;
mod asking;
mod host;
mod service;
mod serving;
mod shown;
mod visitor;

pub use asking::{Ask, run_status};
pub use host::LooksHost;
pub use serving::serve_looks;
pub use shown::{Shown, Text};
