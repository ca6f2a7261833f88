//! How many rounds are enough for some pages, by the open places of the dies that hold them.
ghost use Rattle.std.specs.Prelude.{◌≡◌, ℕ, ◌<◌, ◌≤◌, ◌+◌, ◌^◌};
ghost use Rattle.fa_plan.specs.Bound.{IsFirstEnough, IsSomeMarked, places_of};

use fa_cert_places::are_more;
use fa_types::Rounds;

/// The rounds of a die from the current one on that may be closed.
const MAX_CLOSED: u64 = 1_048_576;

/// The first number of rounds in which the marked dies have open places for so many pages, given a
/// number that is too low. It is found by strides from there on, each twice as long as the one before, and by bisection behind them: what
/// is a few rounds later takes a few looks.
pub(crate) fn first_enough<R: Rounds>(
    calendar: &R,
    dies: &[bool; 256],
    pages: usize,
    low: u64,
) -> u64
    requires few { pages ≤ 1024 }
    requires early { R.current calendar.now ≤ 2 ^ 56 }
    requires some { IsSomeMarked dies.now }
    requires low { places_of (R.current calendar.now) (R.closed calendar.now) dies.now low < pages }
    ensures { IsFirstEnough (R.current calendar.now) (R.closed calendar.now) dies.now pages low result }
{
    let mut fewer = low;
    let mut enough = pages as u64 + MAX_CLOSED;
    let mut stride = 1u64;
    'halves: while 1 < enough - fewer {
        let middle = fewer + stride.min((enough - fewer) / 2);
        if are_more(calendar, middle, dies, pages) {
            fewer = middle;
            stride = stride.saturating_mul(2);
        } else {
            enough = middle;
        }
    }
    enough
}
