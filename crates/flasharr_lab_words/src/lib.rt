//! The words of the laboratory: what a line asks for, and how answers are spelled. Nothing here has an array or an image.
#![tactic(auto)]

mod answers;
mod content;
mod dies;
mod jobs;
mod looks;
mod naming;
mod order;
mod output;
mod pages;
mod refusals;
mod words;

pub use answers::{
    show_admit_refused, show_claim, show_copied, show_flush, show_flush_state, show_pages,
    show_places, show_round, show_seq, show_shortage, show_word,
};
pub use content::{bytes_of, fill, first_length, full_page, show_content};
pub use dies::{DieSeen, LiveDie, show_die, show_die_word, show_live};
pub use jobs::{call_word, show_flight};
pub use looks::{show_batch_state, show_closed, show_counts, show_history, show_thin};
pub use order::{Ask, Bare, Begin, Deed, Ending, Event, Free, Look, MAX_TIMES, Order, Wish, Work};
pub use output::Output;
pub use pages::{MAX_DIES, PageSeen, bit_of, show_page, show_page_word, show_version};
pub use refusals::Reason;
pub use words::{die_of, index_of, number_at, small_at};
