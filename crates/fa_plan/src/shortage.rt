//! The pages that show that no plan has fewer rounds.
ghost use Rattle.std.specs.Prelude.{◌<◌, ◌≤◌, ◌^◌, length};
ghost use Rattle.fa_batch_terms.specs.Batch.{AreFine};
ghost use Rattle.fa_batch_terms.specs.Certificate.{AreNamed};
ghost use Rattle.fa_plan.specs.Shortage.{AreTooFew, IsRaised};

use crate::bound::first_enough;
use fa_batch::Batch;
use fa_cert::holders_of;
use fa_types::{Page, Rounds};
use std::alloc::Allocator;

/// The first number of rounds in which the dies that hold any of the pages have open places for all of
/// them, given a number that is too low.
pub(crate) fn rounds_for<R: Rounds, A: Allocator>(
    batch: &Batch<A>,
    calendar: &R,
    pages: &[Page],
    low: u64,
) -> u64
    requires fine { AreFine batch.now }
    requires early { R.current calendar.now ≤ 2 ^ 56 }
    requires named { AreNamed batch.now pages.now }
    requires some { 0 < length pages.now }
    requires few { length pages.now ≤ 1024 }
    requires low { AreTooFew batch.now (R.current calendar.now) (R.closed calendar.now) low pages.now }
    ensures { IsRaised batch.now (R.current calendar.now) (R.closed calendar.now) pages.now low result }
{
    let dies = holders_of(batch, pages);
    first_enough(calendar, &dies, pages.len(), low)
}
