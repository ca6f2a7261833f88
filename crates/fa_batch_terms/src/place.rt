//! Where a page of a batch is read.
use fa_types::{Die, Page, Round};

/// One read of a plan: the page is read from the die in the round.
#[derive(Clone, Copy)]
pub struct Place {
    /// The page that is read.
    pub page: Page,
    /// The die that reads it.
    pub die: Die,
    /// The round in which it does.
    pub round: Round,
}
