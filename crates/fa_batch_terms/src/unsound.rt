//! What is wrong with a batch.
use fa_types::Page;

/// Why a batch is not sound.
#[derive(Clone, Copy)]
pub enum Unsound {
    /// No die holds the page.
    NoHolder(Page),
    /// The page was named before.
    Twice(Page),
}
