//! The calls of flushes and of the history.
ghost use Rattle.std.specs.Prelude.{◌≡◌};
ghost use Rattle.fa_machine.specs.Flushing.{flush_state as rule_state};
ghost use Rattle.fa_machine.specs.Step.{FlushBegin, Fold, Step};

use crate::array::Array;
use fa_laws::invariants::an_event_keeps;
use fa_machine::{Flush, FlushRefused, FlushState};
use fa_map_calls::Map;
use std::alloc::Allocator;

impl<M: Map, A: Allocator + Clone> Array<M, A> {
    ghost use Rattle.fa_core.specs.Array.{IsWhole, number_of, state_of};

    /// Each live die is asked for a sync. Refused, nothing has changed.
    pub fn flush_begin(&mut self) -> Result<Flush, FlushRefused>
        requires whole { IsWhole M.view self.old }
        ensures step { Step (state_of M.view self.old) (FlushBegin result) (state_of M.view self.new) }
        ensures number { number_of self.new ≡ number_of self.old }
        ensures whole { IsWhole M.view self.new }
    {
        let answer = fa_core_upkeep::flush_begin(&mut self.state);
        an_event_keeps();
        answer
    }

    /// How the flush stands. It is an event that changes nothing.
    pub fn flush_state(&self, flush: &Flush) -> FlushState
        ensures { result ≡ rule_state (state_of M.view self.now) flush.now }
    {
        fa_core_upkeep::flush_state(&self.state, flush)
    }

    /// The history is taken into its base, and none is left.
    pub fn fold(&mut self)
        requires whole { IsWhole M.view self.old }
        ensures step { Step (state_of M.view self.old) Fold (state_of M.view self.new) }
        ensures number { number_of self.new ≡ number_of self.old }
        ensures whole { IsWhole M.view self.new }
    {
        fa_core_upkeep::fold(&mut self.state);
        an_event_keeps();
    }
}
