//! The calls of readers.
ghost use Rattle.std.specs.Prelude.{◌≡◌, ℕ, ◌<◌, ◌≤◌, length, map, true, IfOk};
ghost use Rattle.std.specs.List.{All};
ghost use Rattle.fa_closed.specs.Closed.{current_of, is_closed};
ghost use Rattle.fa_machine.specs.Conditions.{batch_open};
ghost use Rattle.fa_machine.specs.Reading.{left_of, released, results as rule_results, to_read};
ghost use Rattle.fa_machine.specs.Rounds.{is_taken};
ghost use Rattle.fa_machine.specs.Step.{Admit, EndBatch, Replan, Step, is_distinct};
ghost use Rattle.fa_core_calls.specs.Answers.{IsHandedOut, admit_answer, plan_answer};

use crate::array::Array;
use fa_closed::Closed;
use fa_core_calls::Admitted;
use fa_laws::invariants::an_event_keeps;
use fa_machine::{AdmitRefused, BatchId, ReadState};
use fa_map_calls::Map;
use fa_plan::{PlanNote, Planned};
use fa_types::Page;
use std::alloc::{AllocError, Allocator};

impl<M: Map, A: Allocator + Copy> Array<M, A> {
    ghost use Rattle.fa_core.specs.Array.{IsWhole, number_of, state_of};

    /// A batch of these pages, at most 1,024 and no two the same: those that have bytes on their dies are planned in the least number of
    /// rounds and booked, and the others are answered with zeros at once. Refused, nothing has changed.
    pub fn admit(&mut self, alloc: A, pages: &[Page]) -> Result<Admitted<A>, AdmitRefused>
        requires inside { All (λ page. page.0 < (state_of M.view self.old).page_map.geometry.pages) pages.now }
        requires distinct { is_distinct (map (λ page. page.0) pages.now) ≡ true }
        requires few { length pages.now ≤ 1024 }
        requires whole { IsWhole M.view self.old }
        ensures step { Step (state_of M.view self.old) (Admit (map (λ page. page.0) pages.now) (admit_answer result))
            (state_of M.view self.new) }
        ensures handed { IfOk result (λ admitted. IsHandedOut
            (length (to_read (state_of M.view self.old).page_map (map (λ page. page.0) pages.now))) admitted.planned) }
        ensures number { number_of self.new ≡ number_of self.old }
        ensures whole { IsWhole M.view self.new }
    {
        let answer = fa_core_read::admit(alloc, &mut self.planner, &mut self.state, pages);
        an_event_keeps();
        answer
    }

    /// The batch's bookings that were not started are given up, and its pages that have no answer and no read in flight are planned
    /// anew, in the least number of rounds, and booked. Refused, nothing has changed.
    pub fn replan(&mut self, alloc: A, batch: BatchId) -> Result<Planned<A>, AdmitRefused>
        requires open { batch_open (state_of M.view self.old) batch.0 ≡ true }
        requires whole { IsWhole M.view self.old }
        ensures step { Step (state_of M.view self.old) (Replan batch.0 (plan_answer result)) (state_of M.view self.new) }
        ensures handed { IfOk result (λ planned. IsHandedOut (length (left_of (state_of M.view self.old) batch.0)) planned) }
        ensures number { number_of self.new ≡ number_of self.old }
        ensures whole { IsWhole M.view self.new }
    {
        let answer = fa_core_read::replan(alloc, &mut self.planner, &mut self.state, batch);
        an_event_keeps();
        answer
    }

    /// A plan that was answered and that nobody wants any more comes back, and plans to come are made in its memory. It is no event.
    pub fn give_back_plan(&mut self, planned: Planned<A>)
        requires whole { IsWhole M.view self.old }
        ensures state { state_of M.view self.new ≡ state_of M.view self.old }
        ensures number { number_of self.new ≡ number_of self.old }
        ensures whole { IsWhole M.view self.new }
    {
        self.planner.keep(planned);
    }

    /// From here on the plan of each n-th batch of at least two pages waits for who checks it. It is no event.
    pub fn log_plans(&mut self, alloc: A, every: u64)
        requires whole { IsWhole M.view self.old }
        ensures state { state_of M.view self.new ≡ state_of M.view self.old }
        ensures number { number_of self.new ≡ number_of self.old }
        ensures whole { IsWhole M.view self.new }
    {
        let dies = u8::try_from(self.geometry().dies).unwrap_or(u8::MAX);
        self.planner.log_plans(alloc, every, dies);
    }

    /// The plan that waits longest for who checks it. It is no event.
    pub fn take_plan(&mut self) -> Option<PlanNote<A>>
        requires whole { IsWhole M.view self.old }
        ensures state { state_of M.view self.new ≡ state_of M.view self.old }
        ensures number { number_of self.new ≡ number_of self.old }
        ensures whole { IsWhole M.view self.new }
    {
        self.planner.take_plan()
    }

    /// A plan that was taken and that nobody wants any more comes back, and plans to come are kept in its memory. It is no event.
    pub fn give_back_note(&mut self, note: PlanNote<A>)
        requires whole { IsWhole M.view self.old }
        ensures state { state_of M.view self.new ≡ state_of M.view self.old }
        ensures number { number_of self.new ≡ number_of self.old }
        ensures whole { IsWhole M.view self.new }
    {
        self.planner.give_back_note(note);
    }

    /// The closed rounds of all dies from the current one on. Those that are booked for the batch and were not started are left out. The
    /// error is out of memory.
    pub fn closed_without(&self, alloc: A, batch: BatchId) -> Result<Closed<A>, AllocError>
        requires open { batch_open (state_of M.view self.now) batch.0 ≡ true }
        requires whole { IsWhole M.view self.now }
        ensures current { IfOk result (λ closed. current_of closed ≡ (state_of M.view self.now).calendar.round) }
        ensures closed { IfOk result (λ closed. (die round : ℕ) → (state_of M.view self.now).calendar.round ≤ round
            → is_closed closed die round ≡ is_taken (released batch.0 (state_of M.view self.now).calendar) die round) }
    {
        fa_core_read::closed_without(alloc, &self.state, batch)
    }

    /// The closed rounds of all dies from the current one on. The error is out of memory.
    pub fn closed(&self, alloc: A) -> Result<Closed<A>, AllocError>
        ensures current { IfOk result (λ closed. current_of closed ≡ (state_of M.view self.now).calendar.round) }
        ensures closed { IfOk result (λ closed. (die round : ℕ) → (state_of M.view self.now).calendar.round ≤ round
            → is_closed closed die round ≡ is_taken (state_of M.view self.now).calendar die round) }
    {
        self.state.bookings.closed(alloc, &[])
    }
}

impl<M: Map, A: Allocator + Clone> Array<M, A> {
    ghost use Rattle.fa_core.specs.Array.{IsWhole, number_of, state_of};

    /// The batch is open no more: its bookings that were not started are given up, and its answers are handed out in the order of its
    /// list, each with the buffer that has its bytes. A read in flight for it answers nothing.
    pub fn end_batch(&mut self, batch: BatchId) -> Vec<(Page, Vec<u8, A>), A>
        requires open { batch_open (state_of M.view self.old) batch.0 ≡ true }
        requires whole { IsWhole M.view self.old }
        ensures step { Step (state_of M.view self.old) (EndBatch batch.0 (map (λ e. (e.0.0, e.1.items)) result.items))
            (state_of M.view self.new) }
        ensures number { number_of self.new ≡ number_of self.old }
        ensures whole { IsWhole M.view self.new }
    {
        let answers = fa_core_read::end_batch(&mut self.state, batch);
        an_event_keeps();
        answers
    }

    /// Buffers that were handed out come back, for the pages of batches to come. It is no event.
    pub fn give_back(&mut self, buffers: Vec<(Page, Vec<u8, A>), A>)
        requires whole { IsWhole M.view self.old }
        ensures state { state_of M.view self.new ≡ state_of M.view self.old }
        ensures number { number_of self.new ≡ number_of self.old }
        ensures whole { IsWhole M.view self.new }
    {
        self.state.batches.give_back(buffers);
    }

    /// How the batch stands.
    pub fn results(&self, batch: BatchId) -> ReadState
        requires whole { IsWhole M.view self.now }
        ensures { result ≡ rule_results (state_of M.view self.now) batch.0 }
    {
        fa_core_read::results(&self.state, batch)
    }
}
