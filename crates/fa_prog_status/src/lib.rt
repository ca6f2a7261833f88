//! How a running array is, as plain data, and the texts that tell of it.
#![tactic(auto)]

mod document;
mod lines;
mod metrics;
mod page;
mod pages;
mod parts;
mod rates;
mod status;

pub use document::document_text;
pub use lines::lines_text;
pub use metrics::metrics_text;
pub use page::PAGE;
pub use pages::{PageCounts, PageStatus, Range};
pub use rates::{Rates, Sample};
pub use status::{
    DieState, DieStatus, FaultStatus, PlanFileStatus, PlanStatus, SlotCounts, Status,
};
