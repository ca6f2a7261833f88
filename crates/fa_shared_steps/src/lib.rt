//! How far a request of a block store is, and how it goes on. Nothing here touches the array: a request's pages and payloads are made, and
//! each answer of the array leads to the next stage.
#![tactic(auto)]

mod next;
mod page_list;
mod preparing;
mod range;
mod request;
mod stage;

pub use next::{abandoned, begin, begun, claimed, committed, flushed, released, reserved, stopped};
pub use page_list::PageList;
pub use preparing::{content, fill_page, fill_with, fits, list, sort_page};
pub use range::Range;
pub use request::{Fill, Request, Task};
pub use stage::{PageClaim, Purpose, Stage, Wish};
