//! The trait of what knows which rounds of a die are open.
ghost use Rattle.std.specs.Prelude.{◌≡◌, ℕ, ◌+◌, ◌^◌, ◌<◌, ◌≤◌, ◌↔◌, Bool, IsTrue};
ghost use Rattle.fa_types.specs.Open.{IsOpen, open_among, IsNthOpen, FewClosed};

use crate::numbers::{Die, Round};

/// A current round, and the rounds of each die that are closed from it on. All others from it on are
/// open: a die serves one read in each. No call takes memory.
pub trait Rounds {
    /// The current round.
    ghost current: { Self → ℕ };

    /// Whether a die is closed in a round, from the current one on.
    ghost closed: { Self → ℕ → ℕ → Bool };

    /// The current round.
    fn now(&self) -> Round
        ensures { result.0 ≡ current self.now };

    /// Whether the round is open for the die: not before the current one, and not closed.
    fn is_open(&self, die: Die, round: Round) -> bool
        ensures { IsTrue result ↔ IsOpen (current self.now) (closed self.now) die.0 round.0 };

    /// How many of so many rounds from the current one are open for the die.
    fn open_count(&self, die: Die, rounds: u64) -> u64
        requires { current self.now + rounds < 2 ^ 64 }
        ensures { result ≡ open_among (current self.now) (closed self.now) die.0 rounds };

    /// The n-th open round of the die from the current one, n from 1.
    fn nth_open(&self, die: Die, n: u64) -> Round
        requires first { 1 ≤ n }
        requires small { n ≤ 2 ^ 32 }
        requires early { current self.now ≤ 2 ^ 56 }
        ensures { IsNthOpen (current self.now) (closed self.now) die.0 n result.0 };

    /// At most 1,048,576 rounds of a die are closed from the current one on.
    ghost few_closed: { (rounds : Self) → FewClosed (current rounds) (closed rounds) };
}
