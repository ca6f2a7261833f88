//! The trait of an array that is changed.
ghost use Rattle.std.specs.Prelude.{◌≡◌, ◌+◌};
ghost use Rattle.fa_core_calls.specs.Calls.{FitsAnswer, HandsOutWhole, Makes, commits_of_answer};
ghost use Rattle.fa_machine.specs.Looks.{counts as rule_counts};

use crate::call::{Answer, Call};
use crate::looks::Looks;
use fa_plan::{PlanNote, Planned};
use fa_types::Page;
use std::alloc::Allocator;

/// An array that events change. Whoever shares an array, works for it or serves its requests sees it so, and knows neither its page map nor
/// its containers. What a call takes it is lent, since the kit proves no impl of a trait whose methods own what names the trait's allocator.
pub trait Events<A: Allocator + Copy>: Looks {
    /// One event, made by a seat. Where a condition of the event does not hold, the answer is Stranger and nothing has changed. The call is used
    /// up.
    fn step(&mut self, alloc: A, seat: u32, call: &mut Call<'_, A>) -> Answer<A>
        requires whole { Self.whole self.old }
        ensures event { Makes (Self.core self.old) seat call.old result (Self.core self.new) }
        ensures number { Self.number self.new ≡ Self.number self.old }
        ensures whole { Self.whole self.new }
        ensures fits { FitsAnswer (Self.core self.old).page_map.geometry (Self.number self.old) call.old result }
        ensures handed { HandsOutWhole (Self.core self.old) call.old result }
        ensures commits { (rule_counts (Self.core self.new)).0 ≡ (rule_counts (Self.core self.old)).0 + commits_of_answer result };

    /// Buffers that were handed out come back, for the pages of batches to come. It is no event. None are left here.
    fn give_back(&mut self, alloc: A, buffers: &mut Vec<(Page, Vec<u8, A>), A>)
        requires whole { Self.whole self.old }
        ensures state { Self.core self.new ≡ Self.core self.old }
        ensures number { Self.number self.new ≡ Self.number self.old }
        ensures whole { Self.whole self.new };

    /// A plan that was answered and that nobody wants any more comes back, and plans to come are made in its memory. It is no event.
    fn give_back_plan(&mut self, planned: &mut Option<Planned<A>>)
        requires whole { Self.whole self.old }
        ensures state { Self.core self.new ≡ Self.core self.old }
        ensures number { Self.number self.new ≡ Self.number self.old }
        ensures whole { Self.whole self.new };

    /// The plan that waits longest for who checks it. It is no event.
    fn take_plan(&mut self) -> Option<PlanNote<A>>
        requires whole { Self.whole self.old }
        ensures state { Self.core self.new ≡ Self.core self.old }
        ensures number { Self.number self.new ≡ Self.number self.old }
        ensures whole { Self.whole self.new };

    /// A plan that was taken and that nobody wants any more comes back, and plans to come are kept in its memory. It is no event.
    fn give_back_note(&mut self, note: &mut Option<PlanNote<A>>)
        requires whole { Self.whole self.old }
        ensures state { Self.core self.new ≡ Self.core self.old }
        ensures number { Self.number self.new ≡ Self.number self.old }
        ensures whole { Self.whole self.new };
}
