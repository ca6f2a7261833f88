//! Dies that go out, and jobs that are over.
ghost use Rattle.std.specs.Prelude.{◌≡◌, ℕ, false, true};
ghost use Rattle.std.specs.FinMap.{get, remove};
ghost use Rattle.fa_machine.specs.Conditions.{drop_die};
ghost use Rattle.fa_machine.specs.State.{is_live};
ghost use Rattle.fa_core_state.specs.Core.{core_of};
ghost use Rattle.fa_core_state.specs.Fitted.{IsFitted};
ghost use Rattle.fa_core_state.specs.Tracked.{is_at_read};

use fa_core_state::{State, mark_live};
use fa_map_calls::Map;
use fa_types::Die;
use std::alloc::Allocator;

/// The live die goes out: what it held, its bookings, its window, its job and its waiting programs are dropped, the epoch rises by
/// 1, and the header of each die that is left is behind.
pub fn lose_die<M: Map, A: Allocator + Clone>(state: &mut State<M, A>, die: Die)
    requires live { is_live (M.view state.old.page_map) die.0 ≡ true }
    requires fitted { IsFitted M.view state.old }
    ensures dropped { core_of M.view state.new ≡ drop_die die.0 (core_of M.view state.old) }
    ensures fitted { IsFitted M.view state.new }
{
    state.page_map.drop_die(die);
    state.bookings.drop_die(die);
    state.epoch += 1;
    mark_live(&mut state.behind, &state.page_map);
    state.stepped.remove(die.0 as usize);
    state.waiting.drop_die(die);
    state.jobs.remove(die);
    state.asked.remove(die);
    state.synced.remove(die);
    state.batches.drop_die(die);
}

/// The die is at no job any more. What it was at was no read.
pub fn end_job<M: Map, A: Allocator + Clone>(state: &mut State<M, A>, die: Die)
    requires other { (batch page : ℕ) → is_at_read batch page (get (core_of M.view state.old).jobs die.0) ≡ false }
    requires fitted { IsFitted M.view state.old }
    ensures over { core_of M.view state.new
        ≡ record (core_of M.view state.old) { jobs = remove (core_of M.view state.old).jobs die.0 } }
    ensures fitted { IsFitted M.view state.new }
{
    state.jobs.remove(die);
}
