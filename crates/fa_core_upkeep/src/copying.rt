//! Copies that begin.
ghost use Rattle.std.specs.Prelude.{◌≡◌, ◌<◌, [], ◌∷◌, ◌&&◌, is_none, not, true, Some, OnErr, OnOk};
ghost use Rattle.std.specs.FinMap.{get};
ghost use Rattle.fa_machine.specs.Conditions.{copy_open, first_that};
ghost use Rattle.fa_machine.specs.Placement.{copy_place as rule_place, has_room, is_thin as rule_thin};
ghost use Rattle.fa_machine.specs.Reading.{zeros as rule_zeros};
ghost use Rattle.fa_machine.specs.Step.{is_page};
ghost use Rattle.fa_machine.specs.Turning.{ReservesCopy, copying_to, has_number};
ghost use Rattle.fa_machine.specs.Writing.{target_on};
ghost use Rattle.fa_machine.specs.declared.refusals.ReserveCopyRefused.TheVariants.{Gone, NoRoom, Busy};
ghost use Rattle.fa_mirror.specs.Chosen.{TakesWrites};
ghost use Rattle.fa_core_state.specs.Core.{core_of};
ghost use Rattle.fa_core_state.specs.Fitted.{IsFitted};
ghost use Rattle.fa_core_upkeep.specs.Copied.{copying_on};

use crate::settling::is_last;
use fa_core_state::State;
use fa_core_tables::QueuedProgram;
use fa_machine::{Copying, ReserveCopyRefused, Target, Version};
use fa_map_calls::Map;
use fa_mirror::{copy_place, is_thin, slot_on};
use fa_tag::Payload;
use fa_types::{Copies, Die, Kind, Page, Seq, Slot};
use std::alloc::{AllocError, Allocator};

/// A slot for one more copy of a thin page, whose last write has the number `seq`, and the copy's program. The copy of a hole
/// shares `zeros`, and another one `payload`. Refused, nothing has changed.
pub fn reserve_copy<M: Map, A: Allocator + Clone>(
    state: &mut State<M, A>,
    page: Page,
    seq: Seq,
    payload: &Payload<A>,
    zeros: &Payload<A>,
) -> Result<(), ReserveCopyRefused>
    requires page { is_page (core_of M.view state.old) page.0 ≡ true }
    requires zeros { zeros.now ≡ rule_zeros (M.view state.old.page_map) }
    requires fitted { IsFitted M.view state.old }
    ensures reserves { ReservesCopy (core_of M.view state.old) page.0 seq.0 payload.now result
        (core_of M.view state.new) }
    ensures fitted { IsFitted M.view state.new }
{
    match refusal(
        &state.page_map,
        state.copies,
        page,
        seq,
        state.copying.is_some(),
    ) {
        Some(refused) => Err(refused),
        None => match reserve_slot(state, page, payload, zeros) {
            Ok(()) => Ok(()),
            Err(_) => Err(ReserveCopyRefused::NoMemory),
        },
    }
}

/// A slot for one more copy of the page, if it has a place to go, and the copy's program. The error is out of memory.
fn reserve_slot<M: Map, A: Allocator + Clone>(
    state: &mut State<M, A>,
    page: Page,
    payload: &Payload<A>,
    zeros: &Payload<A>,
) -> Result<(), AllocError>
    requires page { page.0 < (M.view state.old.page_map).geometry.pages }
    requires zeros { zeros.now ≡ rule_zeros (M.view state.old.page_map) }
    requires fitted { IsFitted M.view state.old }
    ensures reserved { OnOk result (core_of M.view state.new ≡ copying_to (core_of M.view state.old) page.0 payload.now
        (get (M.view state.old.page_map).versions page.0) (rule_place state.old.copies.number (M.view state.old.page_map) page.0)) }
    ensures refused { OnErr result (core_of M.view state.new ≡ core_of M.view state.old) }
    ensures fitted { IsFitted M.view state.new }
{
    match state.page_map.version(page) {
        None => Ok(()),
        Some(version) => match copy_place(&state.page_map, state.copies, page) {
            None => Ok(()),
            Some(die) => match version.kind {
                Kind::Data => copy_to(state, page, version, die, payload),
                Kind::Hole => copy_to(state, page, version, die, zeros),
            },
        },
    }
}

/// A slot of the die for a copy of this write of the page, and its program. The error is out of memory.
fn copy_to<M: Map, A: Allocator + Clone>(
    state: &mut State<M, A>,
    page: Page,
    version: Version,
    die: Die,
    payload: &Payload<A>,
) -> Result<(), AllocError>
    requires place { TakesWrites (M.view state.old.page_map) die.0 }
    requires fitted { IsFitted M.view state.old }
    ensures reserved { OnOk result (core_of M.view state.new
        ≡ copying_on (core_of M.view state.old) page.0 version payload.now die.0) }
    ensures refused { OnErr result (core_of M.view state.new ≡ core_of M.view state.old) }
    ensures fitted { IsFitted M.view state.new }
{
    let shared = payload.share()?;
    state.waiting.make_room(die, 1)?;
    let target = slot_on(&state.page_map, die);
    state.page_map.reserve_slot(target.die, target.slot);
    state.waiting.push(QueuedProgram {
        die: target.die,
        slot: target.slot,
        page,
        version,
        payload: shared,
    });
    state.copying = Some(Copying {
        page,
        version,
        target,
    });
    Ok(())
}

/// Why no copy of the page is begun, as far as memory is not the matter.
fn refusal<M: Map>(
    page_map: &M,
    copies: Copies,
    page: Page,
    seq: Seq,
    busy: bool,
) -> Option<ReserveCopyRefused>
    requires { page.0 < (M.view page_map.now).geometry.pages }
    ensures { result ≡ first_that (
        (not (rule_thin copies.number (M.view page_map.now) page.0 && has_number seq.0 (get (M.view page_map.now).versions page.0)), Gone)
        ∷ (is_none (rule_place copies.number (M.view page_map.now) page.0), NoRoom) ∷ (busy, Busy) ∷ []) }
{
    if !is_wanted(page_map, copies, page, seq) {
        return Some(ReserveCopyRefused::Gone);
    }
    if copy_place(page_map, copies, page).is_none() {
        return Some(ReserveCopyRefused::NoRoom);
    }
    if busy {
        return Some(ReserveCopyRefused::Busy);
    }
    None
}

/// Whether the page is thin, and its last write has this number.
fn is_wanted<M: Map>(page_map: &M, copies: Copies, page: Page, seq: Seq) -> bool
    requires { page.0 < (M.view page_map.now).geometry.pages }
    ensures { result
        ≡ (rule_thin copies.number (M.view page_map.now) page.0 && has_number seq.0 (get (M.view page_map.now).versions page.0)) }
{
    is_thin(page_map, copies, page) && is_last(page_map, page, seq)
}
