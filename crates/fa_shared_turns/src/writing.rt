//! Pages, claimed, written and released.
ghost use Rattle.std.specs.Prelude.{◌≡◌, true, false};
ghost use Rattle.fa_machine.specs.Conditions.{history_full, is_reserved};
ghost use Rattle.fa_shared_lock.specs.Accounts.{IsAccounted};
ghost use Rattle.fa_shared_lock.specs.Moves.{Turned};
ghost use Rattle.fa_shared_steps.specs.Ranges.{IsRange};
ghost use Rattle.fa_shared_steps.specs.declared.stage.Stage.TheVariants.{Abandoning, Claiming, Committing, Releasing, Reserving};

use crate::claims::{abandon, claim, commit, release, reserve, reserve_fewer, reserve_hole};
use crate::folding::fold;
use crate::room::may_get_room;
use fa_core_calls::Events;
use fa_shared_lock::{Locked, Seat};
use fa_shared_steps::{
    PageClaim, Stage, Task, Wish, abandoned, claimed, committed, released, reserved,
};
use fa_tag::Payload;
use fa_types::{BlockFault, Page};
use std::alloc::Allocator;
use std::sync::ledger::Ledger;

/// The page is claimed.
pub(crate) fn claim_page<L: Ledger, E: Events<A>, A: Allocator + Copy>(
    alloc: A,
    locked: &mut Locked<L, E, A>,
    seat: &mut Seat<L>,
    task: Task,
    page: Page,
) -> Stage<A>
    requires { IsRange task.range }
    ensures turned { Turned task seat.old seat.new locked.old.core (Claiming page) locked.new.core result }
    ensures account { IsAccounted locked.old seat.old locked.new seat.new }
{
    match claim(alloc, locked, seat, page) {
        None => Stage::Ended(Some(BlockFault::Lost)),
        Some(answer) => claimed(task, page, answer),
    }
}

/// A number and slots are reserved for what is to be written.
pub(crate) fn reserve_wish<L: Ledger, E: Events<A>, A: Allocator + Copy>(
    alloc: A,
    locked: &mut Locked<L, E, A>,
    seat: &mut Seat<L>,
    held: PageClaim,
    wish: Wish<A>,
) -> Stage<A>
    ensures turned { (t : Task) → Turned t seat.old seat.new locked.old.core (Reserving held wish) locked.new.core result }
    ensures account { IsAccounted locked.old seat.old locked.new seat.new }
{
    match wish {
        Wish::Data(payload) => reserve_data(locked, seat, held, payload),
        Wish::Fewer(payload) => reserve_on_fewer(locked, seat, held, payload),
        Wish::Hole => reserve_no_data(alloc, locked, seat, held),
    }
}

/// A number and slots are reserved for a page's bytes.
fn reserve_data<L: Ledger, E: Events<A>, A: Allocator + Copy>(
    locked: &mut Locked<L, E, A>,
    seat: &mut Seat<L>,
    held: PageClaim,
    payload: Payload<A>,
) -> Stage<A>
    ensures turned { (t : Task) → Turned t seat.old seat.new locked.old.core (Reserving held (Wish.Data payload)) locked.new.core result }
    ensures account { IsAccounted locked.old seat.old locked.new seat.new }
{
    let waits = may_get_room(locked.array());
    match reserve(locked, seat, held.claim, &payload) {
        None => Stage::Releasing(held, Some(BlockFault::Lost)),
        Some(answer) => reserved(held, Wish::Data(payload), answer, waits),
    }
}

/// A number and slots are reserved for a page's bytes, on fewer dies.
fn reserve_on_fewer<L: Ledger, E: Events<A>, A: Allocator + Copy>(
    locked: &mut Locked<L, E, A>,
    seat: &mut Seat<L>,
    held: PageClaim,
    payload: Payload<A>,
) -> Stage<A>
    ensures turned { (t : Task) → Turned t seat.old seat.new locked.old.core (Reserving held (Wish.Fewer payload)) locked.new.core result }
    ensures account { IsAccounted locked.old seat.old locked.new seat.new }
{
    let waits = may_get_room(locked.array());
    match reserve_fewer(locked, seat, held.claim, &payload) {
        None => Stage::Releasing(held, Some(BlockFault::Lost)),
        Some(answer) => reserved(held, Wish::Fewer(payload), answer, waits),
    }
}

/// A number and slots are reserved for a hole.
fn reserve_no_data<L: Ledger, E: Events<A>, A: Allocator + Copy>(
    alloc: A,
    locked: &mut Locked<L, E, A>,
    seat: &mut Seat<L>,
    held: PageClaim,
) -> Stage<A>
    ensures turned { (t : Task) → Turned t seat.old seat.new locked.old.core (Reserving held Wish.Hole) locked.new.core result }
    ensures account { IsAccounted locked.old seat.old locked.new seat.new }
{
    let waits = may_get_room(locked.array());
    match reserve_hole(alloc, locked, seat, held.claim) {
        None => Stage::Releasing(held, Some(BlockFault::Lost)),
        Some(answer) => reserved(held, Wish::Hole, answer, waits),
    }
}

/// What is reserved is committed, behind a Fold where the history is full.
pub(crate) fn commit_wish<L: Ledger, E: Events<A>, A: Allocator + Copy>(
    alloc: A,
    locked: &mut Locked<L, E, A>,
    seat: &mut Seat<L>,
    held: PageClaim,
    wish: Wish<A>,
) -> Stage<A>
    ensures turned { (t : Task) → Turned t seat.old seat.new locked.old.core (Committing held wish) locked.new.core result }
    ensures account { IsAccounted locked.old seat.old locked.new seat.new }
{
    if !locked.array().is_reserved(held.claim) {
        return Stage::Releasing(held, Some(BlockFault::Lost));
    }
    if locked.array().history_full() {
        commit_folded(alloc, locked, seat, held, wish)
    } else {
        commit_now(alloc, locked, seat, held, wish)
    }
}

/// What is reserved is committed. The history has room.
fn commit_now<L: Ledger, E: Events<A>, A: Allocator + Copy>(
    alloc: A,
    locked: &mut Locked<L, E, A>,
    seat: &mut Seat<L>,
    held: PageClaim,
    wish: Wish<A>,
) -> Stage<A>
    requires { history_full locked.old.core ≡ false }
    ensures turned { (t : Task) → Turned t seat.old seat.new locked.old.core (Committing held wish) locked.new.core result }
    ensures account { IsAccounted locked.old seat.old locked.new seat.new }
{
    match commit(alloc, locked, seat, held.claim) {
        None => Stage::Releasing(held, Some(BlockFault::Lost)),
        Some(answer) => committed(held, wish, answer),
    }
}

/// What is reserved is committed behind a Fold.
fn commit_folded<L: Ledger, E: Events<A>, A: Allocator + Copy>(
    alloc: A,
    locked: &mut Locked<L, E, A>,
    seat: &mut Seat<L>,
    held: PageClaim,
    wish: Wish<A>,
) -> Stage<A>
    requires full { history_full locked.old.core ≡ true }
    requires reserved { is_reserved locked.old.core held.claim.0 ≡ true }
    ensures turned { (t : Task) → Turned t seat.old seat.new locked.old.core (Committing held wish) locked.new.core result }
    ensures account { IsAccounted locked.old seat.old locked.new seat.new }
{
    fold(alloc, locked, seat);
    match commit(alloc, locked, seat, held.claim) {
        None => Stage::Releasing(held, Some(BlockFault::Lost)),
        Some(answer) => committed(held, wish, answer),
    }
}

/// What is reserved is given up, so that it may be reserved anew.
pub(crate) fn abandon_wish<L: Ledger, E: Events<A>, A: Allocator + Copy>(
    alloc: A,
    locked: &mut Locked<L, E, A>,
    seat: &mut Seat<L>,
    held: PageClaim,
    wish: Wish<A>,
) -> Stage<A>
    ensures turned { (t : Task) → Turned t seat.old seat.new locked.old.core (Abandoning held wish) locked.new.core result }
    ensures account { IsAccounted locked.old seat.old locked.new seat.new }
{
    match abandon(alloc, locked, seat, held.claim) {
        None => Stage::Releasing(held, Some(BlockFault::Lost)),
        Some(answer) => abandoned(held, wish, answer),
    }
}

/// The page is released. What is reserved under its claim is given up first.
pub(crate) fn release_page<L: Ledger, E: Events<A>, A: Allocator + Copy>(
    alloc: A,
    locked: &mut Locked<L, E, A>,
    seat: &mut Seat<L>,
    task: Task,
    held: PageClaim,
    fault: Option<BlockFault>,
) -> Stage<A>
    requires { IsRange task.range }
    ensures turned { Turned task seat.old seat.new locked.old.core (Releasing held fault) locked.new.core result }
    ensures account { IsAccounted locked.old seat.old locked.new seat.new }
{
    if !locked.array().claim_open(held.claim) {
        return Stage::Ended(Some(BlockFault::Lost));
    }
    if locked.array().is_reserved(held.claim) {
        return give_up(alloc, locked, seat, held, fault);
    }
    match release(alloc, locked, seat, held.claim) {
        Some(()) => released(task, held, fault),
        None => Stage::Releasing(held, fault),
    }
}

/// What is reserved under the claim is given up, before the page is released.
fn give_up<L: Ledger, E: Events<A>, A: Allocator + Copy>(
    alloc: A,
    locked: &mut Locked<L, E, A>,
    seat: &mut Seat<L>,
    held: PageClaim,
    fault: Option<BlockFault>,
) -> Stage<A>
    ensures turned { (t : Task) → Turned t seat.old seat.new locked.old.core (Releasing held fault) locked.new.core result }
    ensures account { IsAccounted locked.old seat.old locked.new seat.new }
{
    let _answer = abandon(alloc, locked, seat, held.claim);
    Stage::Releasing(held, fault)
}
