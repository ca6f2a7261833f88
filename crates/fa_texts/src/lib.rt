//! The texts of batches and certificates: what is read of them, the first line that is wrong, and what is printed.
//!
//! Lines end in a line feed, which the last one may lack. Words are separated by one space. Numbers are
//! decimal without leading zeros.
#![tactic(auto)]

mod batch_print;
mod batch_text;
mod certificate_print;
mod certificate_text;
pub mod laws;
mod line_print;
mod text_error;
mod words;

pub use batch_print::{has_batch_text, print_batch, print_logged_plan};
pub use batch_text::{BatchText, read_batch};
pub use certificate_print::print;
pub use certificate_text::{Certificate, read_certificate};
pub use text_error::TextError;
