//! Whoever makes jobs of dies while a request waits for them.
ghost use Rattle.std.specs.Prelude.{◌≡◌, List, [], ℕ, false};
ghost use Rattle.fa_shared_lock.specs.Only.{EndsJobs, IsPart, TakesJobs, Told, dies_told};
ghost use Rattle.fa_shared_lock.specs.Seats.{commits_with, number_of};

use crate::locked::Locked;
use crate::seat::Seat;
use fa_core_calls::Events;
use std::alloc::Allocator;
use std::sync::ledger::Ledger;

/// Somebody who makes jobs of an array's dies. In one hold of the array's lock jobs are taken, behind it their calls are made, and in the
/// next hold they are ended. Whose seat that is makes no Commit by it.
pub trait Hands<L: Ledger, E: Events<A>, A: Allocator + Copy> {
    /// The dies whose jobs were taken and are not ended. Somebody else may have made and ended some of them meanwhile.
    ghost held: { Self → List ℕ };
    /// How the jobs have ended whose calls were made.
    ghost told: { Self → List Told };

    /// Takes jobs of dies that nobody works for, with the lock held. Whether there are any.
    fn take(&mut self, locked: &mut Locked<L, E, A>, seat: &mut Seat<L>) -> bool
        ensures takes { TakesJobs (number_of seat.old) locked.old.core (held self.old) locked.new.core (held self.new) }
        ensures none { result ≡ false → held self.new ≡ [] }
        ensures rest { locked.new ≡ record locked.old { core = locked.new.core } }
        ensures commits { commits_with seat.new ≡ commits_with seat.old }
        ensures number { number_of seat.new ≡ number_of seat.old };

    /// Makes the calls of the jobs that were taken, with no lock held, but of those that others came to first.
    fn work(&mut self)
        ensures held { held self.new ≡ held self.old }
        ensures part { IsPart (dies_told (told self.new)) (held self.new) };

    /// Ends the jobs whose calls were made, with the lock held.
    fn end(&mut self, locked: &mut Locked<L, E, A>, seat: &mut Seat<L>)
        ensures ends { EndsJobs locked.old.core (told self.old) locked.new.core }
        ensures none { (held self.new ≡ []) × (told self.new ≡ []) }
        ensures rest { locked.new ≡ record locked.old { core = locked.new.core } }
        ensures commits { commits_with seat.new ≡ commits_with seat.old }
        ensures number { number_of seat.new ≡ number_of seat.old };

    /// Notes why dies went out, if some did as their jobs ended, with no lock held.
    fn note(&mut self)
        ensures held { held self.new ≡ held self.old }
        ensures told { told self.new ≡ told self.old };
}
