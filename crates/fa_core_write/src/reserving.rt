//! Reservations for writes.
ghost use Rattle.std.specs.Prelude.{◌≡◌, ◌+◌, ◌-◌, ◌<◌, ◌^◌, ◌==◌, [], ◌∷◌, map, nat_lt, true, false, IfOk, OnErr, OnOk};
ghost use Rattle.fa_machine.specs.Conditions.{claim_open, first_that, is_reserved};
ghost use Rattle.std.specs.List.{All};
ghost use Rattle.fa_core_tables.specs.Claims.{targets_of};
ghost use Rattle.fa_machine.specs.Placement.{targets};
ghost use Rattle.fa_machine.specs.Writing.{Reserves, claimed_page, reserved, target_on};
ghost use Rattle.fa_mirror.specs.Chosen.{MayReserve};
ghost use Rattle.fa_machine.specs.declared.refusals.ReserveRefused.TheVariants.{NoRoom, NoDie, Spent};
ghost use Rattle.fa_core_state.specs.Core.{core_of};
ghost use Rattle.fa_core_state.specs.Fitted.{IsFitted};

use crate::placing::{reserve_slots, slots_for};
use crate::queueing::queue;
use fa_core_state::State;
use fa_core_tables::{Reservation, Targets};
use fa_machine::{ClaimId, ReserveRefused, Version};
use fa_map_calls::Map;
use fa_mirror::copies_asked;
use fa_tag::Payload;
use fa_types::{Kind, Page, Seq};
use std::alloc::{AllocError, Allocator};

/// The next sequence number, a slot on each die that the write goes to, and a program for each, for a write that wants a slot
/// on `least` dies or more. Refused, nothing has changed.
pub fn reserve<M: Map, A: Allocator + Clone>(
    state: &mut State<M, A>,
    claim: ClaimId,
    least: u32,
    kind: Kind,
    payload: &Payload<A>,
) -> Result<Seq, ReserveRefused>
    requires claimed { claim_open (core_of M.view state.old) claim.0 ≡ true }
    requires empty { is_reserved (core_of M.view state.old) claim.0 ≡ false }
    requires page { claimed_page (core_of M.view state.old) claim.0 < (M.view state.old.page_map).geometry.pages }
    requires fitted { IsFitted M.view state.old }
    ensures reserves { Reserves (core_of M.view state.old) claim.0 least kind payload.now result
        (core_of M.view state.new) }
    ensures fitted { IsFitted M.view state.new }
{
    let page = state.claims.page_of(claim);
    let slots = slots_for(&state.page_map, state.copies, page);
    let asked = copies_asked(&state.page_map, state.copies);
    match refusal(slots.items().len(), least, asked, state.last) {
        Some(refused) => Err(refused),
        None => match reserve_on(state, claim, page, slots, kind, payload) {
            Ok(seq) => Ok(seq),
            Err(_) => Err(ReserveRefused::NoMemory),
        },
    }
}

/// The same, on slots that were looked up. The error is out of memory.
fn reserve_on<M: Map, A: Allocator + Clone>(
    state: &mut State<M, A>,
    claim: ClaimId,
    page: Page,
    slots: Targets,
    kind: Kind,
    payload: &Payload<A>,
) -> Result<Seq, AllocError>
    requires claimed { claim_open (core_of M.view state.old) claim.0 ≡ true }
    requires page { page.0 ≡ claimed_page (core_of M.view state.old) claim.0 }
    requires number { page.0 ≡ claim.0 }
    requires slots { targets_of slots
        ≡ map (target_on (M.view state.old.page_map)) (targets state.old.copies.number (M.view state.old.page_map) page.0) }
    requires free { All (MayReserve (M.view state.old.page_map)) (targets_of slots) }
    requires fitted { IsFitted M.view state.old }
    requires left { state.old.last + 1 < 2 ^ 62 }
    ensures seq { IfOk result (λ seq. seq.0 ≡ state.old.last + 1) }
    ensures reserved { OnOk result (core_of M.view state.new
        ≡ reserved claim.0 kind payload.now (core_of M.view state.old)) }
    ensures refused { OnErr result (core_of M.view state.new ≡ core_of M.view state.old) }
    ensures fitted { IsFitted M.view state.new }
{
    let version = Version {
        seq: Seq(state.last + 1),
        kind,
    };
    match queue(&mut state.waiting, slots.items(), page, version, payload) {
        Err(refused) => Err(refused),
        Ok(()) => {
            reserve_slots(&mut state.page_map, slots.items());
            let reservation = Reservation {
                version,
                targets: slots,
            };
            state.claims.set_reserved(claim, Some(reservation));
            state.last += 1;
            Ok(version.seq)
        }
    }
}

/// Why a write is refused that found `slots` slots and wants `least` of them, as far as memory is not the matter.
fn refusal(slots: usize, least: u32, asked: u32, last: u64) -> Option<ReserveRefused>
    ensures { result ≡ first_that ((nat_lt slots least, NoRoom) ∷ (asked == 0, NoDie) ∷ (last == 2 ^ 62 - 1, Spent) ∷ []) }
{
    if slots < least as usize {
        return Some(ReserveRefused::NoRoom);
    }
    if asked == 0 {
        return Some(ReserveRefused::NoDie);
    }
    if last == (1 << 62) - 1 {
        return Some(ReserveRefused::Spent);
    }
    None
}
