//! Copies that end.
ghost use Rattle.std.specs.Prelude.{◌≡◌, ◌*◌, ◌<◌, [], ◌∷◌, ◌&&◌, not, true, None, Ok, Some};
ghost use Rattle.std.specs.FinMap.{get};
ghost use Rattle.fa_machine.specs.Conditions.{copy_open, first_that};
ghost use Rattle.fa_machine.specs.State.{is_live};
ghost use Rattle.fa_machine.specs.Turning.{CommitsCopy, commit_copy_refusal, has_number};
ghost use Rattle.fa_machine.specs.declared.refusals.CommitCopyRefused.TheVariants.{Pending, Failed};
ghost use Rattle.fa_map_calls.specs.Changes.{MayKeep};
ghost use Rattle.fa_sound.specs.Sound.{IsSound};
ghost use Rattle.fa_core_state.specs.Core.{core_of};
ghost use Rattle.fa_core_state.specs.Fitted.{IsFitted};

use fa_core_state::State;
use fa_machine::{CommitCopyRefused, Copied, Copying, Target};
use fa_map_calls::Map;
use fa_types::{Page, Seq};
use std::alloc::Allocator;

/// The copy under way ends: it is current, or stale where the page was written meanwhile. Pending, nothing has changed. A copy
/// whose die went out failed, and is over.
pub fn commit_copy<M: Map, A: Allocator + Clone>(
    state: &mut State<M, A>,
) -> Result<Copied, CommitCopyRefused>
    requires open { copy_open (core_of M.view state.old) ≡ true }
    requires sound { IsSound (core_of M.view state.old) }
    ensures commits { CommitsCopy (core_of M.view state.old) (core_of M.view state.old).copying result (core_of M.view state.new) }
    ensures fitted { IsFitted M.view state.old → IsFitted M.view state.new }
{
    match state.copying {
        None => Err(CommitCopyRefused::Failed),
        Some(copying) => match refusal(&state.page_map, copying.target) {
            None => Ok(settle(state, copying)),
            Some(CommitCopyRefused::Pending) => Err(CommitCopyRefused::Pending),
            Some(CommitCopyRefused::Failed) => {
                state.copying = None;
                Err(CommitCopyRefused::Failed)
            }
        },
    }
}

/// The copy is current, or stale where the page has another number now, and none is under way.
fn settle<M: Map, A: Allocator + Clone>(state: &mut State<M, A>, copying: Copying) -> Copied
    requires ready { commit_copy_refusal (core_of M.view state.old) copying ≡ None }
    requires page { copying.page.0 < (M.view state.old.page_map).geometry.pages }
    requires live { is_live (M.view state.old.page_map) copying.target.die.0 ≡ true }
    requires slot { copying.target.slot.0 < (M.view state.old.page_map).geometry.blocks * (M.view state.old.page_map).geometry.slots }
    requires keeps { has_number copying.version.seq.0 (get (M.view state.old.page_map).versions copying.page.0) ≡ true
        → MayKeep (M.view state.old.page_map) copying.page copying.version copying.target.die.0 copying.target.slot.0 }
    ensures settled { CommitsCopy (core_of M.view state.old) (Some copying) (Ok result) (core_of M.view state.new) }
    ensures fitted { IsFitted M.view state.old → IsFitted M.view state.new }
{
    let target = copying.target;
    state.copying = None;
    if is_last(&state.page_map, copying.page, copying.version.seq) {
        state
            .page_map
            .hold(copying.page, copying.version, target.die, target.slot);
        Copied::Current
    } else {
        state.page_map.make_stale(target.die, target.slot);
        Copied::Late
    }
}

/// Whether the page's last write has this number.
pub fn is_last<M: Map>(page_map: &M, page: Page, seq: Seq) -> bool
    requires { page.0 < (M.view page_map.now).geometry.pages }
    ensures { result ≡ has_number seq.0 (get (M.view page_map.now).versions page.0) }
{
    match page_map.version(page) {
        None => false,
        Some(version) => version.seq.0 == seq.0,
    }
}

/// Why a copy in this slot does not end well.
fn refusal<M: Map>(page_map: &M, target: Target) -> Option<CommitCopyRefused>
    ensures { result ≡ first_that ((is_live (M.view page_map.now) target.die.0 && not target.programmed, Pending)
        ∷ (not (is_live (M.view page_map.now) target.die.0), Failed) ∷ []) }
{
    if !page_map.is_live(target.die) {
        return Some(CommitCopyRefused::Failed);
    }
    if !target.programmed {
        return Some(CommitCopyRefused::Pending);
    }
    None
}
