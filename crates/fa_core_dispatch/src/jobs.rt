//! What a die is at.
ghost use Rattle.std.specs.Prelude.{◌≡◌, ◌<◌, false, None};
ghost use Rattle.std.specs.FinMap.{get, insert};
ghost use Rattle.fa_core_tables.specs.Dies.{by_die};
ghost use Rattle.fa_core_state.specs.Core.{core_of};
ghost use Rattle.fa_core_state.specs.Fitted.{IsFitted};
ghost use Rattle.fa_core_dispatch.specs.Begins.{is_read};

use fa_core_state::State;
use fa_machine::Flight;
use fa_map_calls::Map;
use fa_types::Die;
use std::alloc::Allocator;

/// The job, which is no read, is what the die is at.
pub fn set_job<M: Map, A: Allocator + Clone>(state: &mut State<M, A>, die: Die, flight: Flight)
    requires inside { die.0 < (M.view state.old.page_map).geometry.dies }
    requires idle { get (by_die state.old.jobs) die.0 ≡ None }
    requires other { is_read flight ≡ false }
    requires fitted { IsFitted M.view state.old }
    ensures set { core_of M.view state.new ≡ record (core_of M.view state.old) { jobs = insert (by_die state.old.jobs) die.0 flight } }
    ensures fitted { IsFitted M.view state.new }
{
    state.jobs.insert(die, flight);
}
