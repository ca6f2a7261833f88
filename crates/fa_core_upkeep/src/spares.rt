//! Spares that come in.
ghost use Rattle.std.specs.Prelude.{◌≡◌, ◌+◌, ◌<◌, true, false};
ghost use Rattle.std.specs.FinMap.{contains_key, insert, remove};
ghost use Rattle.fa_machine.specs.State.{is_live};
ghost use Rattle.fa_machine.specs.Step.{is_die};
ghost use Rattle.fa_machine.specs.Turning.{BringsIn};
ghost use Rattle.fa_set.specs.Members.{members};
ghost use Rattle.fa_sound.specs.Sound.{IsSound};
ghost use Rattle.fa_core_state.specs.Core.{core_of};
ghost use Rattle.fa_core_state.specs.Fitted.{IsFitted};

use fa_core_state::{State, mark_live};
use fa_machine::SpareRefused;
use fa_map_calls::Map;
use fa_types::Die;
use std::alloc::Allocator;

/// A spare is live from now on, with all of its slots erased, and the header of each live die is behind. Refused, nothing has
/// changed.
pub fn spare_in<M: Map, A: Allocator + Clone>(
    state: &mut State<M, A>,
    die: Die,
) -> Result<(), SpareRefused>
    requires die { is_die (core_of M.view state.old) die.0 ≡ true }
    requires fitted { IsFitted M.view state.old }
    requires sound { IsSound (core_of M.view state.old) }
    ensures brings { BringsIn (core_of M.view state.old) die.0 result (core_of M.view state.new) }
    ensures fitted { IsFitted M.view state.new }
{
    if state.spares.contains(die.0 as usize) {
        bring_in(state, die);
        Ok(())
    } else {
        Err(SpareRefused::NotSpare)
    }
}

/// The spare is live, and each live die is behind.
fn bring_in<M: Map, A: Allocator + Clone>(state: &mut State<M, A>, die: Die)
    requires inside { die.0 < (M.view state.old.page_map).geometry.dies }
    requires spare { contains_key (members state.old.spares) die.0 ≡ true }
    requires out { is_live (M.view state.old.page_map) die.0 ≡ false }
    requires fitted { IsFitted M.view state.old }
    ensures brings { core_of M.view state.new ≡ record (core_of M.view state.old) {
      page_map = record (M.view state.old.page_map) { live = insert (M.view state.old.page_map).live die.0 tt };
      epoch = state.old.epoch + 1;
      behind = insert (M.view state.old.page_map).live die.0 tt;
      spares = remove (members state.old.spares) die.0;
    } }
    ensures fitted { IsFitted M.view state.new }
{
    state.page_map.bring_in(die);
    state.spares.remove(die.0 as usize);
    state.epoch += 1;
    mark_live(&mut state.behind, &state.page_map);
}
