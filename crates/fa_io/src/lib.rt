//! Input and output below the other crates: the lines of an input, and reads and writes of streams that
//! are counted, and of which it is known what they did before they failed.
#![tactic(auto)]

mod answers;
mod both;
mod calls;
pub mod faulty;
mod lines;
mod reading;
mod sending;

pub use answers::CallFault;
pub use both::WriteBoth;
pub use calls::Calls;
pub use lines::{cut_line, first_index};
pub use reading::{ReadEnd, fill, read_some, skip, skip_through};
pub use sending::{SendFailed, send, send_all, send_both};
