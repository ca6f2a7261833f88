//! How a batch stands.
ghost use Rattle.std.specs.Prelude.{◌≡◌, true};
ghost use Rattle.fa_machine.specs.Conditions.{batch_open};
ghost use Rattle.fa_machine.specs.Reading.{results as rule_results};
ghost use Rattle.fa_core_state.specs.Core.{core_of};
ghost use Rattle.fa_core_state.specs.Fitted.{IsFitted};

use fa_core_state::State;
use fa_machine::{BatchId, ReadState};
use fa_map_calls::Map;
use std::alloc::Allocator;

/// How the batch stands: torn where no such batch is open, or where a page has no answer and no read that is booked or in flight;
/// ready where each page has an answer; and else it waits.
pub fn results<M: Map, A: Allocator + Clone>(state: &State<M, A>, batch: BatchId) -> ReadState
    requires fitted { IsFitted M.view state.now }
    ensures { result ≡ rule_results (core_of M.view state.now) batch.0 }
{
    if state.batches.is_open(batch) {
        results_of_open(state, batch)
    } else {
        ReadState::Torn
    }
}

/// How an open batch stands.
fn results_of_open<M: Map, A: Allocator + Clone>(state: &State<M, A>, batch: BatchId) -> ReadState
    requires open { batch_open (core_of M.view state.now) batch.0 ≡ true }
    requires fitted { IsFitted M.view state.now }
    ensures { result ≡ rule_results (core_of M.view state.now) batch.0 }
{
    if state.batches.has_torn(batch) {
        ReadState::Torn
    } else if state.batches.are_answered(batch) {
        ReadState::Ready
    } else {
        ReadState::Waiting
    }
}
