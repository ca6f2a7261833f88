//! The calls of dies.
ghost use Rattle.std.specs.Prelude.{◌≡◌, length, true, false, option_map, IfSome};
ghost use Rattle.std.specs.FinMap.{get};
ghost use Rattle.std.specs.Option.{option_map_or};
ghost use Rattle.fa_core_outcome.specs.Outcomes.{outcome_of};
ghost use Rattle.fa_machine.specs.Cells.{is_of_kind};
ghost use Rattle.fa_machine.specs.Conditions.{history_full};
ghost use Rattle.fa_machine.specs.Step.{Done, Step, Take, is_die};
ghost use Rattle.fa_core_outcome.specs.Fits.{IsJobFor};
ghost use Rattle.fa_core_outcome.specs.Handed.{handed_of};

use crate::array::Array;
use fa_core_dispatch::laws::what_is_handed_out_fits;
use fa_core_outcome::{Job, Outcome};
use fa_laws::invariants::an_event_keeps;
use fa_map_calls::Map;
use fa_types::Die;
use std::alloc::Allocator;

impl<M: Map, A: Allocator + Clone> Array<M, A> {
    ghost use Rattle.fa_core.specs.Array.{IsWhole, number_of, state_of};

    /// The next job of the die, and none where it is not live, is at one, or has nothing to do. The history says which seat started a
    /// read.
    pub fn take(&mut self, die: Die, seat: u32) -> Option<Job<A>>
        requires die { is_die (state_of M.view self.old) die.0 ≡ true }
        requires room { history_full (state_of M.view self.old) ≡ false }
        requires whole { IsWhole M.view self.old }
        ensures step { Step (state_of M.view self.old) (Take die.0 seat (option_map handed_of result)) (state_of M.view self.new) }
        ensures number { number_of self.new ≡ number_of self.old }
        ensures whole { IsWhole M.view self.new }
        // The job fits the die and its image.
        ensures fits { IfSome result (λ job. IsJobFor (state_of M.view self.old).page_map.geometry (number_of self.old) die.0
            (handed_of job)) }
    {
        let _geometry = self.state.page_map.geometry();
        is_a_number(&self.array);
        what_is_handed_out_fits();
        let job = fa_core_dispatch::take(&mut self.state, die, seat);
        an_event_keeps();
        job
    }

    /// The job of the die has ended so, which is by an outcome of its kind. What a read gave is in the buffer, of a page's bytes; where
    /// it answers a batch, the buffer and the batch's own change places.
    pub fn done(&mut self, die: Die, outcome: Outcome, buffer: &mut Vec<u8, A>)
        requires kind { option_map_or (λ job. is_of_kind job (outcome_of outcome buffer.old.items))
            (get (state_of M.view self.old).jobs die.0) false ≡ true }
        requires sized { length buffer.old.items ≡ (state_of M.view self.old).page_map.geometry.page_bytes }
        requires whole { IsWhole M.view self.old }
        ensures step { Step (state_of M.view self.old) (Done die.0 (outcome_of outcome buffer.old.items)) (state_of M.view self.new) }
        ensures number { number_of self.new ≡ number_of self.old }
        ensures whole { IsWhole M.view self.new }
        ensures buffer { length buffer.new.items ≡ length buffer.old.items }
    {
        fa_core_complete::done(&mut self.state, die, outcome, buffer);
        an_event_keeps();
    }
}

/// The number of an array has 16 bytes.
fn is_a_number(number: &[u8; 16])
    ensures { length number.now ≡ 16 }
{
    let _bytes = *number;
}
