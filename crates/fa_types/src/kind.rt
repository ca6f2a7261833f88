//! What a written page is.

/// What a write made of its page.
#[derive(Clone, Copy, PartialEq, Eq)]
pub enum Kind {
    /// The page has bytes.
    Data,
    /// The page was trimmed: its bytes are zeros.
    Hole,
}
