//! The worker that gives dies their windows, and makes what they collect by.
ghost use Rattle.std.specs.Prelude.{◌≡◌, ◌<◌, false};
ghost use Rattle.fa_core_calls.specs.Windows.{is_window_due};
ghost use Rattle.fa_shared_lock.specs.Rest.{LeavesRest};
ghost use Rattle.fa_shared_sleepers.specs.declared.sleepers.Awaits.TheVariants.{Window};
ghost use Rattle.fa_workers.specs.Windows.{GivesWindow, GivesWindows};

use fa_core_calls::{Events, Looks};
use fa_shared::{Shared, window};
use fa_shared_lock::{Hands, Locked, Seat};
use fa_shared_sleepers::Awaits;
use fa_types::Die;
use std::alloc::Allocator;
use std::sync::Wait;
use std::sync::ledger::Ledger;
use std::time::Clock;

/// Gives each live die that wants one a window of so many rounds, 1 to 64, and makes the jobs of dies that collect with these hands, until
/// the array is to end. It sleeps where there are none, until a die wants a window or one that collects has a job; and where a window was
/// refused, until something has changed.
pub fn collector_worker<
    R: Wait + Clock,
    L: Ledger,
    E: Events<A>,
    A: Allocator + Copy,
    H: Hands<L, E, A>,
>(
    rt: &R,
    alloc: A,
    shared: &Shared<L, E, A>,
    seat: &mut Seat<L>,
    window_rounds: u64,
    hands: &mut H,
) {
    let mut is_noted = true;
    let mut guard = shared.lock(rt);
    for _ in rt.forever() {
        if guard.is_stopping() {
            break;
        }
        let has_taken = hands.take(&mut guard, seat);
        let has_given = give_windows(alloc, &mut guard, seat, window_rounds);
        if has_taken {
            shared.release(seat, guard);
            hands.note();
            hands.work();
            guard = shared.lock(rt);
            hands.end(&mut guard, seat);
            is_noted = false;
        } else if has_given {
            continue;
        } else if is_noted {
            let awaits = next_look(guard.array());
            guard = shared.sleep(rt, seat, awaits, false, guard);
        } else {
            shared.release(seat, guard);
            hands.note();
            is_noted = true;
            guard = shared.lock(rt);
        }
    }
    guard.lead(false);
    shared.release(seat, guard);
    hands.note();
}

/// What the collector waits for behind a look: that a die wants a window, or any change, where one that wants it was refused.
fn next_look<E: Looks>(array: &E) -> Awaits
    ensures { result ≡ Window (is_window_due (E.core array.now)) }
{
    Awaits::Window {
        was_refused: array.is_window_due(),
    }
}

/// A Window for each die that wants one. Whether one was accepted.
fn give_windows<L: Ledger, E: Events<A>, A: Allocator + Copy>(
    alloc: A,
    locked: &mut Locked<L, E, A>,
    seat: &mut Seat<L>,
    rounds: u64,
) -> bool
    ensures gives { GivesWindows rounds locked.old.core locked.old.core.page_map.geometry.dies locked.new.core }
    ensures nothing { result ≡ false → locked.new.core ≡ locked.old.core }
    ensures account { LeavesRest locked.old seat.old locked.new seat.new }
{
    let mut given = false;
    for die in 0..locked.array().geometry().dies {
        if give_window(alloc, locked, seat, Die(die as u8), rounds) {
            given = true;
        }
    }
    given
}

/// A Window for a die whose last one has ended, if it wants another.
pub(crate) fn give_next_window<L: Ledger, E: Events<A>, A: Allocator + Copy>(
    alloc: A,
    locked: &mut Locked<L, E, A>,
    seat: &mut Seat<L>,
    die: Die,
    rounds: u64,
) {
    if locked.array().is_die(die) && !locked.array().has_window(die) {
        give_window(alloc, locked, seat, die, rounds);
    }
}

/// A Window for a die, if it wants one. Whether it was accepted.
fn give_window<L: Ledger, E: Events<A>, A: Allocator + Copy>(
    alloc: A,
    locked: &mut Locked<L, E, A>,
    seat: &mut Seat<L>,
    die: Die,
    rounds: u64,
) -> bool
    requires { die.0 < locked.old.core.page_map.geometry.dies }
    ensures gives { GivesWindow rounds locked.old.core die.0 result locked.new.core }
    ensures geometry { locked.new.core.page_map.geometry ≡ locked.old.core.page_map.geometry }
    ensures account { LeavesRest locked.old seat.old locked.new seat.new }
{
    if !locked.array().wants_window(die) {
        return false;
    }
    match window(alloc, locked, seat, die, rounds) {
        None => false,
        Some(answer) => answer.is_ok(),
    }
}
