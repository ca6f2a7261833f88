//! One door for all events.
ghost use Rattle.std.specs.Prelude.{◌≡◌, ◌+◌, ℕ, true};
ghost use Rattle.fa_machine.specs.Looks.{counts};

use crate::array::Array;
use fa_core_calls::{Answer, Call};
use fa_laws::invariants::an_event_counts;
use fa_map_calls::Map;
use std::alloc::Allocator;

impl<M: Map, A: Allocator + Copy> Array<M, A> {
    ghost use Rattle.fa_core.specs.Array.{IsWhole, number_of, state_of};
    ghost use Rattle.fa_core_calls.specs.Calls.{FitsAnswer, HandsOutWhole, Makes, commits_of_answer, may_make as rule_may};

    /// One event, made by a seat. Where a condition of the event does not hold, the answer is Stranger and nothing has changed.
    pub fn step(&mut self, alloc: A, seat: u32, call: Call<'_, A>) -> Answer<A>
        requires whole { IsWhole M.view self.old }
        ensures event { Makes (state_of M.view self.old) seat call.entry result (state_of M.view self.new) }
        ensures number { number_of self.new ≡ number_of self.old }
        ensures whole { IsWhole M.view self.new }
        ensures fits { FitsAnswer (state_of M.view self.old).page_map.geometry (number_of self.old) call.entry result }
        ensures handed { HandsOutWhole (state_of M.view self.old) call.entry result }
        ensures commits { (counts (state_of M.view self.new)).0 ≡ (counts (state_of M.view self.old)).0 + commits_of_answer result }
    {
        if !self.may_make(&call) {
            return Answer::Stranger(buffer_of(call));
        }
        an_event_counts();
        self.make(alloc, seat, call)
    }

    /// One event whose condition holds, made by a seat.
    fn make(&mut self, alloc: A, seat: u32, call: Call<'_, A>) -> Answer<A>
        requires may { rule_may (state_of M.view self.old) seat call ≡ true }
        requires whole { IsWhole M.view self.old }
        ensures event { Makes (state_of M.view self.old) seat call.entry result (state_of M.view self.new) }
        ensures number { number_of self.new ≡ number_of self.old }
        ensures whole { IsWhole M.view self.new }
        ensures fits { FitsAnswer (state_of M.view self.old).page_map.geometry (number_of self.old) call.entry result }
        ensures handed { HandsOutWhole (state_of M.view self.old) call.entry result }
    {
        match call {
            Call::Claim(page) => Answer::Claim(self.claim(page)),
            Call::Release(claim) => {
                self.release(claim);
                Answer::Release
            }
            Call::Reserve(claim, payload) => Answer::Reserve(self.reserve(claim, payload)),
            Call::ReserveHole(claim) => Answer::Reserve(self.reserve_hole(claim)),
            Call::ReserveFewer(claim, payload) => Answer::Reserve(self.reserve_fewer(
                claim, payload,
            )),
            Call::Commit(claim) => Answer::Commit(self.commit(claim, seat)),
            Call::Abandon(claim) => Answer::Abandon(self.abandon(claim)),
            Call::Admit(pages) => Answer::Admit(self.admit(alloc, pages)),
            Call::Replan(batch) => Answer::Replan(self.replan(alloc, batch)),
            Call::EndBatch(batch) => Answer::EndBatch(self.end_batch(batch)),
            Call::Take(die) => Answer::Take(self.take(die, seat)),
            Call::Done(die, outcome, buffer) => {
                let mut buffer = buffer;
                self.done(die, outcome, &mut buffer);
                Answer::Done(buffer)
            }
            Call::Window(die, rounds) => Answer::Window(self.window(die, rounds)),
            Call::Advance => Answer::Advance(self.advance()),
            Call::SpareIn(die) => Answer::SpareIn(self.spare_in(die)),
            Call::ReserveCopy(page, seq, payload) => {
                Answer::ReserveCopy(self.reserve_copy(page, seq, payload))
            }
            Call::CommitCopy => Answer::CommitCopy(self.commit_copy()),
            Call::FlushBegin => Answer::FlushBegin(self.flush_begin()),
            Call::FlushState(flush) => Answer::FlushState(self.flush_state(&flush)),
            Call::Fold => {
                self.fold();
                Answer::Fold
            }
        }
    }

    /// Whether the condition of an event holds.
    fn may_make(&self, call: &Call<'_, A>) -> bool
        ensures { (seat : ℕ) → result ≡ rule_may (state_of M.view self.now) seat call.now }
    {
        match call {
            Call::Claim(page) => self.is_page(*page),
            Call::Release(claim) | Call::ReserveHole(claim) => self.may_reserve(*claim),
            Call::Reserve(claim, payload) | Call::ReserveFewer(claim, payload) => {
                self.may_reserve_payload(*claim, payload)
            }
            Call::Commit(claim) => self.may_commit(*claim),
            Call::Abandon(claim) => self.is_reserved(*claim),
            Call::Admit(pages) => self.may_admit(pages),
            Call::Replan(batch) | Call::EndBatch(batch) => self.batch_open(*batch),
            Call::Take(die) => self.may_take(*die),
            Call::Done(die, outcome, buffer) => self.may_end(*die, *outcome, buffer),
            Call::Window(die, rounds) => self.may_have_window(*die, *rounds),
            Call::SpareIn(die) => self.is_die(*die),
            Call::ReserveCopy(page, _, payload) => self.may_reserve_copy(*page, payload),
            Call::CommitCopy => self.copy_open(),
            Call::Advance | Call::FlushBegin | Call::FlushState(_) | Call::Fold => true,
        }
    }
}

/// The buffer that came with a call, where one did.
fn buffer_of<A: Allocator>(call: Call<'_, A>) -> Option<Vec<u8, A>> {
    match call {
        Call::Done(_, _, buffer) => Some(buffer),
        _ => None,
    }
}
