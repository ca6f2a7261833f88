//! The history.
ghost use Rattle.std.specs.Prelude.{◌≡◌};
ghost use Rattle.fa_machine.specs.Conditions.{history_full as rule_full};
ghost use Rattle.fa_machine.specs.Flushing.{Folds};
ghost use Rattle.fa_machine.specs.Looks.{counts as rule_counts};
ghost use Rattle.fa_core_tables.specs.Counted.{capped};
ghost use Rattle.fa_core_state.specs.Core.{core_of};
ghost use Rattle.fa_core_state.specs.Fitted.{IsFitted};

use fa_core_state::State;
use fa_map_calls::Map;
use std::alloc::Allocator;

/// The history is taken into its base, and none is left.
pub fn fold<M: Map, A: Allocator + Clone>(state: &mut State<M, A>)
    ensures folded { Folds (core_of M.view state.old) (core_of M.view state.new) }
    ensures fitted { IsFitted M.view state.old → IsFitted M.view state.new }
{
    state.log.fold();
}

/// Whether the history has no room for one more entry.
pub fn history_full<M: Map, A: Allocator + Clone>(state: &State<M, A>) -> bool
    ensures { result ≡ rule_full (core_of M.view state.now) }
{
    state.log.is_full()
}

/// How many Commits and how many Starts there were since mounting; of 2^64 and more, 2^64 - 1 are told.
pub fn counts<M: Map, A: Allocator + Clone>(state: &State<M, A>) -> (u64, u64)
    ensures commits { result.0 ≡ capped (rule_counts (core_of M.view state.now)).0 }
    ensures starts { result.1 ≡ capped (rule_counts (core_of M.view state.now)).1 }
{
    state.log.counts()
}
