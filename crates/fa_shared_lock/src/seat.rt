//! Who makes events.
ghost use Rattle.std.specs.Prelude.{◌≡◌};

use std::sync::ledger::{Ledger, Share};

/// Who makes events of an array under a lock. Clauses know how many Commits were made with it. A seat is of one array alone, by its
/// ledger. One that is dropped is missing when seats are gathered.
#[derive(Drop)]
pub struct Seat<L: Ledger> {
    pub(crate) number: u32,
    pub(crate) share: Share<L>,
    ghost one_part: { share.parts ≡ 1 },
}

impl<L: Ledger> Seat<L> {
    ghost use Rattle.fa_shared_lock.specs.Seats.{number_of};

    /// The seat's number, by which the history names it.
    pub fn number(&self) -> u32
        ensures { result ≡ number_of self.now }
    {
        self.number
    }
}
