//! The rounds of a plan: the pages of each die take its first open rounds, by rising page.
ghost use Rattle.std.specs.Prelude.{◌≡◌, ◌≤◌, ◌^◌, [], length, IfOk};
ghost use Rattle.fa_plan.specs.Layout.{AreRising, IsLaidOut};

use fa_batch::Places;
use fa_batch_terms::Place;
use fa_types::{Die, Page, Rounds};
use std::alloc::{AllocError, Allocator};

/// A page with the die that reads it.
#[derive(Clone, Copy)]
pub(crate) struct Seat {
    pub(crate) page: Page,
    pub(crate) die: Die,
}

/// The places of pages that rise, each in the first open round of its die that no earlier one takes, in a list that had none. The error
/// is out of memory.
pub(crate) fn lay_out<R: Rounds, A: Allocator>(
    empty: Places<A>,
    calendar: &R,
    seats: &[Seat],
) -> Result<Places<A>, AllocError>
    requires empty { empty ≡ [] }
    requires few { length seats.now ≤ 1024 }
    requires early { R.current calendar.now ≤ 2 ^ 56 }
    requires rising { AreRising seats.now }
    ensures { IfOk result (λ places. IsLaidOut (R.current calendar.now) (R.closed calendar.now) seats.now places) }
{
    let mut taken = [0u64; 256];
    let mut places = empty;
    for seat in seats {
        let turn = taken[seat.die.0 as usize] + 1;
        taken[seat.die.0 as usize] = turn;
        let round = calendar.nth_open(seat.die, turn);
        places.push(Place {
            page: seat.page,
            die: seat.die,
            round,
        })?;
    }
    Ok(places)
}
