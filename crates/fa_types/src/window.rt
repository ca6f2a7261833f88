//! The window of a die.
use crate::numbers::Round;

/// The rounds of a die that are kept for its collector.
#[derive(Clone, Copy)]
pub struct Window {
    /// The first round.
    pub first: Round,
    /// The last round.
    pub last: Round,
}
