//! How many open places dies have within a number of rounds.
#![tactic(auto)]

ghost use Rattle.std.specs.Prelude.{◌≡◌, ◌+◌, ◌<◌, ◌↔◌, ◌^◌, IsTrue};
ghost use Rattle.fa_batch_terms.specs.Certificate.{open_places};
ghost use Rattle.fa_cert_places.specs.OpenCounts.{AreOpenCounts, marked};

use fa_types::{Die, Rounds};

/// Whether so many pages are more than the marked dies have open places in so many rounds.
pub fn are_more<R: Rounds>(calendar: &R, rounds: u64, marks: &[bool; 256], pages: usize) -> bool
    requires { R.current calendar.now + rounds < 2 ^ 64 }
    ensures { IsTrue result ↔ (open_places (R.current calendar.now) (R.closed calendar.now) (marked marks.now 256) rounds < pages) }
{
    let mut left = pages as u64;
    for die in 0..256usize {
        if marks[die] {
            let open = calendar.open_count(Die(die as u8), rounds);
            if left <= open {
                return false;
            }
            left -= open;
        }
    }
    0 < left
}

/// How many of so many rounds are open for each die, by its number.
pub fn count_open<R: Rounds>(calendar: &R, rounds: u64) -> [u64; 256]
    requires { R.current calendar.now + rounds < 2 ^ 64 }
    ensures { AreOpenCounts (R.current calendar.now) (R.closed calendar.now) rounds result }
{
    let mut open_counts = [0; 256];
    for die in 0..256usize {
        open_counts[die] = calendar.open_count(Die(die as u8), rounds);
    }
    open_counts
}
