//! Writes that become their pages' last.
ghost use Rattle.std.specs.Prelude.{◌≡◌, ◌<◌, ◌^◌, ◌++◌, [], ◌∷◌, not, true, false, filter, length, None};
ghost use Rattle.std.specs.List.{list_any};
ghost use Rattle.std.specs.Option.{option_map_or};
ghost use Rattle.fa_core_tables.specs.Claims.{reservation_of};
ghost use Rattle.fa_machine.specs.Conditions.{claim_open, first_that, history_full, is_reserved, reserved_under};
ghost use Rattle.fa_machine.specs.State.{is_live};
ghost use Rattle.fa_machine.specs.Writing.{Commits, claimed_page, committed};
ghost use Rattle.fa_machine.specs.declared.refusals.CommitRefused.TheVariants.{Pending, Failed};
ghost use Rattle.fa_map_calls.specs.Changes.{renewed};
ghost use Rattle.fa_core_tables.specs.Logs.{history_of};
ghost use Rattle.fa_core_tables.specs.declared.log.TheConstants.{MAX_ENTRIES};
ghost use Rattle.fa_sound.specs.Sound.{IsSound};
ghost use Rattle.fa_core_state.specs.Core.{core_of};
ghost use Rattle.fa_core_state.specs.Fitted.{IsFitted};
ghost use Rattle.fa_core_commit.specs.Holding.{MayHoldAll};

use crate::looking::{are_pending, are_programmed};
use fa_core_commit::replace_copies;
use fa_core_state::State;
use fa_core_tables::Reservation;
use fa_machine::{ClaimId, CommitRefused, Target};
use fa_map_calls::Map;
use fa_types::{Page, Seq};
use std::alloc::Allocator;

/// What is reserved under the claim becomes the page's last write: its copies on live dies are current, and those of older
/// writes are stale.
pub fn commit<M: Map, A: Allocator + Clone>(
    state: &mut State<M, A>,
    claim: ClaimId,
    seat: u32,
) -> Result<Seq, CommitRefused>
    requires reserved { is_reserved (core_of M.view state.old) claim.0 ≡ true }
    requires room { history_full (core_of M.view state.old) ≡ false }
    requires sound { IsSound (core_of M.view state.old) }
    ensures commits { Commits (core_of M.view state.old) claim.0 seat (reserved_under (core_of M.view state.old) claim.0) result
        (core_of M.view state.new) }
    ensures fitted { IsFitted M.view state.old → IsFitted M.view state.new }
{
    match state.claims.reserved(claim) {
        None => Err(CommitRefused::Failed),
        Some(reservation) => match refusal(&state.page_map, reservation.targets.items()) {
            Some(refused) => Err(refused),
            None => {
                let page = state.claims.page_of(claim);
                settle(state, claim, page, seat, reservation);
                Ok(reservation.version.seq)
            }
        },
    }
}

/// Whether what is reserved under the claim waits for a program of a live die, as long as which a Commit is refused.
pub fn is_pending<M: Map, A: Allocator + Clone>(state: &State<M, A>, claim: ClaimId) -> bool
    ensures { result ≡ option_map_or (λ reserved. list_any (λ slot. not slot.programmed)
        (filter (λ slot. is_live (M.view state.now.page_map) slot.die.0) reserved.targets))
        (reserved_under (core_of M.view state.now) claim.0) false }
{
    match state.claims.reserved(claim) {
        None => false,
        Some(reservation) => are_pending(&state.page_map, reservation.targets.items()),
    }
}

/// The write is the page's last, its copies on live dies are current, and nothing is reserved under the claim.
fn settle<M: Map, A: Allocator + Clone>(
    state: &mut State<M, A>,
    claim: ClaimId,
    page: Page,
    seat: u32,
    reservation: Reservation,
)
    requires claimed { claim_open (core_of M.view state.old) claim.0 ≡ true }
    requires page { page.0 ≡ claimed_page (core_of M.view state.old) claim.0 }
    requires fits { page.0 < (M.view state.old.page_map).geometry.pages }
    requires room { length (history_of state.old.log) < MAX_ENTRIES }
    requires holds { MayHoldAll (renewed page.0 reservation.version (M.view state.old.page_map)) page reservation.version
        (reservation_of reservation).targets }
    ensures settled { core_of M.view state.new ≡ committed claim.0 seat (reservation_of reservation) (core_of M.view state.old) }
    ensures fitted { IsFitted M.view state.old → IsFitted M.view state.new }
{
    replace_copies(
        &mut state.page_map,
        page,
        reservation.version,
        reservation.targets.items(),
    );
    state.log.note_commit(seat, page, reservation.version.seq);
    state.claims.set_reserved(claim, None);
}

/// Why what is reserved in these slots is not committed.
fn refusal<M: Map>(page_map: &M, slots: &[Target]) -> Option<CommitRefused>
    ensures { result ≡ first_that (
        (list_any (λ slot. not slot.programmed) (filter (λ slot. is_live (M.view page_map.now) slot.die.0) slots.now), Pending)
        ∷ (not (list_any (λ slot. slot.programmed) (filter (λ slot. is_live (M.view page_map.now) slot.die.0) slots.now)), Failed)
        ∷ []) }
{
    if are_pending(page_map, slots) {
        return Some(CommitRefused::Pending);
    }
    if !are_programmed(page_map, slots) {
        return Some(CommitRefused::Failed);
    }
    None
}
