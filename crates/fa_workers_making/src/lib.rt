//! Jobs of dies as they are made: what a job's calls want, where it lies between them, and what reads and moves have in common with others.
#![tactic(auto)]

mod bench;
mod image_table;
mod job_memory;
mod moves;
mod order;
mod reading;
mod stepping;

pub use bench::{Bench, Lain, MadeJob, Task};
pub use image_table::ImageTable;
pub use job_memory::JobMemory;
pub use moves::{OpenedMove, open_alone};
pub use order::{Order, order_of};
pub use reading::{MAX_JOBS, open_read, open_reads};
pub use stepping::{begin_jobs, go_on_with_moves};
