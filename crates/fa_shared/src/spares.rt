//! Spares that are brought in.
ghost use Rattle.std.specs.Prelude.{◌≡◌, ◌<◌, true, false};
ghost use Rattle.fa_shared_lock.specs.Rest.{LeavesRest};
ghost use Rattle.fa_shared.specs.Spares.{BringsIn, BringsInOne, live_below, wants_spare as rule_wants};

use crate::turning::spare_in;
use fa_core_calls::{Events, Looks};
use fa_shared_lock::{Locked, Seat};
use fa_types::Die;
use std::alloc::Allocator;
use std::sync::ledger::Ledger;

/// Brings in the lowest spare, if a die is live and fewer dies are than are to be in use. Whether one was brought in.
pub fn bring_in_spare<L: Ledger, E: Events<A>, A: Allocator + Copy>(
    alloc: A,
    locked: &mut Locked<L, E, A>,
    seat: &mut Seat<L>,
) -> bool
    ensures brings { BringsIn locked.old.core result locked.new.core }
    ensures account { LeavesRest locked.old seat.old locked.new seat.new }
{
    if !wants_spare(locked.array()) {
        return false;
    }
    for die in 0..locked.array().geometry().dies {
        if bring_in(alloc, locked, seat, Die(die as u8)) {
            return true;
        }
    }
    false
}

/// Whether a die is live, and fewer than are to be in use.
fn wants_spare<E: Looks>(array: &E) -> bool
    ensures { result ≡ rule_wants (E.core array.now).page_map }
{
    let geometry = array.geometry();
    let live = count_live(array);
    1 <= live && live < geometry.dies - geometry.spares
}

/// How many dies are live.
fn count_live<E: Looks>(array: &E) -> u32
    ensures { result ≡ live_below (E.core array.now).page_map (E.core array.now).page_map.geometry.dies }
{
    let mut live = 0;
    for die in 0..array.geometry().dies {
        if array.is_live(Die(die as u8)) {
            live += 1;
        }
    }
    live
}

/// A SpareIn of a die that is not live. Whether it was accepted.
fn bring_in<L: Ledger, E: Events<A>, A: Allocator + Copy>(
    alloc: A,
    locked: &mut Locked<L, E, A>,
    seat: &mut Seat<L>,
    die: Die,
) -> bool
    requires { die.0 < locked.old.core.page_map.geometry.dies }
    ensures brings { BringsInOne locked.old.core die.0 result locked.new.core }
    ensures account { LeavesRest locked.old seat.old locked.new seat.new }
{
    if locked.array().is_live(die) {
        return false;
    }
    spare_in(alloc, locked, seat, die).is_ok()
}
