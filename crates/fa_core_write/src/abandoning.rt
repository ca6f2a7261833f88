//! Reservations that are given up.
ghost use Rattle.std.specs.Prelude.{◌≡◌, ℕ, ◌*◌, ◌<◌, ◌==◌, ◌&&◌, not, [], ◌∷◌, true, filter, None};
ghost use Rattle.std.specs.FinMap.{get};
ghost use Rattle.std.specs.List.{All, list_any};
ghost use Rattle.fa_machine.specs.Conditions.{claim_open, first_that, is_reserved, reserved_under};
ghost use Rattle.fa_machine.specs.State.{is_live};
ghost use Rattle.fa_machine.specs.Writing.{Abandons, is_programming as rule_programming, live_targets, with_reserved, with_targets};
ghost use Rattle.fa_machine.specs.declared.refusals.AbandonRefused.TheVariants.{Pending, Programmed};
ghost use Rattle.fa_machine.specs.declared.places.Used.TheVariants.{Stale};
ghost use Rattle.fa_core_tables.specs.Dies.{by_die};
ghost use Rattle.fa_core_tables.specs.Waits.{dies_of, waiting_of};
ghost use Rattle.fa_sound.specs.Sound.{IsSound};
ghost use Rattle.fa_core_state.specs.Core.{core_of};
ghost use Rattle.fa_core_state.specs.Fitted.{IsFitted};
ghost use Rattle.fa_core_commit.specs.Holding.{FitsLive};

use crate::looking::are_programmed;
use fa_core_state::State;
use fa_core_tables::{ByDie, Waiting};
use fa_machine::{AbandonRefused, ClaimId, Flight, Target};
use fa_map_calls::Map;
use fa_types::Slot;
use std::alloc::Allocator;

/// What is reserved under the claim is given up: its slots are stale, and its programs wait no more.
pub fn abandon<M: Map, A: Allocator + Clone>(
    state: &mut State<M, A>,
    claim: ClaimId,
) -> Result<(), AbandonRefused>
    requires reserved { is_reserved (core_of M.view state.old) claim.0 ≡ true }
    requires sound { IsSound (core_of M.view state.old) }
    ensures abandons { Abandons (core_of M.view state.old) claim.0 (reserved_under (core_of M.view state.old) claim.0) result
        (core_of M.view state.new) }
    ensures fitted { IsFitted M.view state.old → IsFitted M.view state.new }
{
    match state.claims.reserved(claim) {
        None => Ok(()),
        Some(reservation) => {
            let slots = reservation.targets.items();
            match refusal(&state.jobs, &state.page_map, slots) {
                Some(refused) => Err(refused),
                None => {
                    give_up(state, claim, slots);
                    Ok(())
                }
            }
        }
    }
}

/// The slots of the claim's reservation are stale, their programs wait no more, and nothing is reserved under the claim.
fn give_up<M: Map, A: Allocator + Clone>(state: &mut State<M, A>, claim: ClaimId, slots: &[Target])
    requires claimed { claim_open (core_of M.view state.old) claim.0 ≡ true }
    requires fits { All (FitsLive (M.view state.old.page_map)) slots.now }
    ensures given_up { core_of M.view state.new ≡ with_reserved claim.0 None (record (core_of M.view state.old) {
      page_map = with_targets Stale (live_targets (core_of M.view state.old) slots.now) (M.view state.old.page_map);
      waiting = filter (λ p. not (list_any (λ t. t.die.0 == p.die && t.slot.0 == p.slot) slots.now)) (waiting_of state.old.waiting);
    }) }
    ensures fitted { IsFitted M.view state.old → IsFitted M.view state.new }
{
    drop_programs(&mut state.waiting, slots);
    make_stale(&mut state.page_map, slots);
    state.claims.set_reserved(claim, None);
}

/// Why the slots of a reservation are not given up.
fn refusal<M: Map, A: Allocator>(
    jobs: &ByDie<Flight, A>,
    page_map: &M,
    slots: &[Target],
) -> Option<AbandonRefused>
    ensures { result ≡ first_that (
        (list_any (λ slot. rule_programming (get (by_die jobs.now) slot.die.0) slot.slot.0) slots.now, Pending)
        ∷ (list_any (λ slot. slot.programmed) (filter (λ slot. is_live (M.view page_map.now) slot.die.0) slots.now), Programmed)
        ∷ []) }
{
    if are_programming(jobs, slots) {
        return Some(AbandonRefused::Pending);
    }
    if are_programmed(page_map, slots) {
        return Some(AbandonRefused::Programmed);
    }
    None
}

/// Whether a program of the slot is what a die is at.
fn is_programming(flight: Option<Flight>, slot: Slot) -> bool
    ensures { result ≡ rule_programming flight slot.0 }
{
    match flight {
        Some(Flight::Program { slot: at, .. }) => at.0 == slot.0,
        _ => false,
    }
}

/// Whether a program of one of the slots is in flight.
fn are_programming<A: Allocator>(jobs: &ByDie<Flight, A>, slots: &[Target]) -> bool
    ensures { result ≡ list_any (λ slot. rule_programming (get (by_die jobs.now) slot.die.0) slot.slot.0) slots.now }
{
    slots
        .iter()
        .any(|slot| is_programming(jobs.get(slot.die), slot.slot))
}

/// The programs of these slots wait no more.
fn drop_programs<A: Allocator>(waiting: &mut Waiting<A>, slots: &[Target])
    ensures dropped { waiting_of waiting.new ≡ filter (λ p. not (list_any (λ slot. slot.die.0 == p.die && slot.slot.0 == p.slot) slots.now))
        (waiting_of waiting.old) }
    ensures dies { dies_of waiting.new ≡ dies_of waiting.old }
{
    for index in 0..slots.len() {
        let slot = slots[index];
        waiting.drop_place(slot.die, slot.slot);
    }
}

/// Those of these slots that are on live dies are stale.
fn make_stale<M: Map>(page_map: &mut M, slots: &[Target])
    requires { All (FitsLive (M.view page_map.old)) slots.now }
    ensures { M.view page_map.new
        ≡ with_targets Stale (filter (λ slot. is_live (M.view page_map.old) slot.die.0) slots.now) (M.view page_map.old) }
{
    for index in 0..slots.len() {
        let slot = slots[index];
        if page_map.is_live(slot.die) {
            page_map.make_stale(slot.die, slot.slot);
        }
    }
}
