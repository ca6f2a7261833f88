//! The laboratory's lines as they are read, what is kept from one to the next, and the jobs that dies have taken. Nothing here has an array.
#![tactic(auto)]

mod answers;
mod bare_jobs;
mod calls;
mod desk;
mod endings;
mod flying;
mod lab;
mod lent;
mod records;
mod script;
mod store_lines;
mod taken;
mod turn;

pub use answers::show_short;
pub use bare_jobs::do_bare;
pub use calls::call_of;
pub use desk::Desk;
pub use endings::outcome_of;
pub use flying::{
    Flying, Jobs, done_of, is_done, job_of_take, keep_buffer, keep_job, make_calls, make_job,
    show_outcome, take_of,
};
pub use lab::Lab;
pub use lent::Lent;
pub use records::Records;
pub use script::Script;
pub use store_lines::ask_all;
pub use taken::Taken;
pub use turn::{FAULTY, Turn};
