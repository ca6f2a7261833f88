//! The calls of the collector and of the rebuilder.
ghost use Rattle.std.specs.Prelude.{◌≡◌, ◌≤◌, true};
ghost use Rattle.fa_machine.specs.Conditions.{copy_open};
ghost use Rattle.fa_machine.specs.Step.{Window, Advance, SpareIn, ReserveCopy, CommitCopy, Step, is_die, is_page, is_sized};

use crate::array::Array;
use fa_laws::invariants::an_event_keeps;
use fa_machine::{
    AdvanceRefused, CommitCopyRefused, Copied, ReserveCopyRefused, SpareRefused, WindowRefused,
};
use fa_map_calls::Map;
use fa_tag::Payload;
use fa_types::{Die, Page, Round, Seq};
use std::alloc::Allocator;

impl<M: Map, A: Allocator + Clone> Array<M, A> {
    ghost use Rattle.fa_core.specs.Array.{IsWhole, number_of, state_of};

    /// The first run of 1 to 64 open rounds of a die after the current one is its window; its first round is answered. Refused, nothing
    /// has changed.
    pub fn window(&mut self, die: Die, rounds: u64) -> Result<Round, WindowRefused>
        requires die { is_die (state_of M.view self.old) die.0 ≡ true }
        requires some { 1 ≤ rounds }
        requires few { rounds ≤ 64 }
        requires whole { IsWhole M.view self.old }
        ensures step { Step (state_of M.view self.old) (Window die.0 rounds result) (state_of M.view self.new) }
        ensures number { number_of self.new ≡ number_of self.old }
        ensures whole { IsWhole M.view self.new }
    {
        let answer = fa_core_upkeep::window(&mut self.state, die, rounds);
        an_event_keeps();
        answer
    }

    /// The next round is the current one, and it is answered. Refused, nothing has changed.
    pub fn advance(&mut self) -> Result<Round, AdvanceRefused>
        requires whole { IsWhole M.view self.old }
        ensures step { Step (state_of M.view self.old) (Advance result) (state_of M.view self.new) }
        ensures number { number_of self.new ≡ number_of self.old }
        ensures whole { IsWhole M.view self.new }
    {
        let answer = fa_core_upkeep::advance(&mut self.state);
        an_event_keeps();
        answer
    }

    /// A spare is live from now on. Refused, nothing has changed.
    pub fn spare_in(&mut self, die: Die) -> Result<(), SpareRefused>
        requires die { is_die (state_of M.view self.old) die.0 ≡ true }
        requires whole { IsWhole M.view self.old }
        ensures step { Step (state_of M.view self.old) (SpareIn die.0 result) (state_of M.view self.new) }
        ensures number { number_of self.new ≡ number_of self.old }
        ensures whole { IsWhole M.view self.new }
    {
        let answer = fa_core_upkeep::spare_in(&mut self.state, die);
        an_event_keeps();
        answer
    }

    /// A slot for one more copy of a thin page whose last write has the number `seq`, and the copy's program. The payload is what a read
    /// of the page gave that started while it had this number; a hole's is zeros, whatever it is. Refused, nothing has changed.
    pub fn reserve_copy(
        &mut self,
        page: Page,
        seq: Seq,
        payload: &Payload<A>,
    ) -> Result<(), ReserveCopyRefused>
        requires page { is_page (state_of M.view self.old) page.0 ≡ true }
        requires sized { is_sized (state_of M.view self.old) payload.now ≡ true }
        requires whole { IsWhole M.view self.old }
        ensures step { Step (state_of M.view self.old) (ReserveCopy page.0 seq.0 payload.now result)
            (state_of M.view self.new) }
        ensures number { number_of self.new ≡ number_of self.old }
        ensures whole { IsWhole M.view self.new }
    {
        let answer = fa_core_upkeep::reserve_copy(&mut self.state, page, seq, payload, &self.zeros);
        an_event_keeps();
        answer
    }

    /// The copy under way ends. Pending, nothing has changed; a copy whose die went out failed, and is over.
    pub fn commit_copy(&mut self) -> Result<Copied, CommitCopyRefused>
        requires open { copy_open (state_of M.view self.old) ≡ true }
        requires whole { IsWhole M.view self.old }
        ensures step { Step (state_of M.view self.old) (CommitCopy result) (state_of M.view self.new) }
        ensures number { number_of self.new ≡ number_of self.old }
        ensures whole { IsWhole M.view self.new }
    {
        let answer = fa_core_upkeep::commit_copy(&mut self.state);
        an_event_keeps();
        answer
    }
}
