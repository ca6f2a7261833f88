//! The array as whoever shares it sees it: each call is the array's own.
use crate::array::Array;
use fa_core_calls::{Answer, Call, Events, Looks};
use fa_machine::{BatchId, Block, ClaimId, Flush, FlushState, JobKind, ReadState};
use fa_map_calls::Map;
use fa_mirror::Placing;
use fa_plan::{PlanNote, Planned};
use fa_types::{Die, Geometry, Page, Round, Seq};
use std::alloc::Allocator;
use std::mem::replace;

impl<M: Map + Drop, A: Allocator + Copy> Looks for Array<M, A> {
    ghost use Rattle.fa_core.specs.Array.{IsWhole, number_of, state_of};

    ghost core = { state_of M.view };

    ghost number = { number_of };

    ghost whole = { IsWhole M.view };

    fn geometry(&self) -> Geometry {
        Array::geometry(self)
    }

    fn array_id(&self) -> [u8; 16] {
        Array::array_id(self)
    }

    fn is_page(&self, page: Page) -> bool {
        Array::is_page(self, page)
    }

    fn is_die(&self, die: Die) -> bool {
        Array::is_die(self, die)
    }

    fn is_live(&self, die: Die) -> bool {
        Array::is_live(self, die)
    }

    fn now(&self) -> Round {
        Array::now(self)
    }

    fn seq(&self, page: Page) -> Option<Seq> {
        Array::seq(self, page)
    }

    fn next_thin(&self) -> Option<(Page, Die)> {
        Array::next_thin(self)
    }

    fn first_dies(&self, page: Page) -> Placing {
        Array::first_dies(self, page)
    }

    fn room(&self, die: Die) -> u32 {
        Array::room(self, die)
    }

    fn victim(&self, die: Die) -> Option<Block> {
        Array::victim(self, die)
    }

    fn wants_window(&self, die: Die) -> bool {
        Array::wants_window(self, die)
    }

    fn has_window(&self, die: Die) -> bool {
        Array::has_window(self, die)
    }

    fn is_window_due(&self) -> bool {
        Array::is_window_due(self)
    }

    fn has_job(&self, die: Die) -> bool {
        Array::has_job(self, die)
    }

    fn job_kind(&self, die: Die) -> Option<JobKind> {
        Array::job_kind(self, die)
    }

    fn is_pending(&self, claim: ClaimId) -> bool {
        Array::is_pending(self, claim)
    }

    fn claim_open(&self, claim: ClaimId) -> bool {
        Array::claim_open(self, claim)
    }

    fn is_reserved(&self, claim: ClaimId) -> bool {
        Array::is_reserved(self, claim)
    }

    fn copy_open(&self) -> bool {
        Array::copy_open(self)
    }

    fn history_full(&self) -> bool {
        Array::history_full(self)
    }

    fn commits(&self) -> u64 {
        self.counts().0
    }

    fn results(&self, batch: BatchId) -> ReadState {
        Array::results(self, batch)
    }

    fn flush_state(&self, flush: &Flush) -> FlushState {
        Array::flush_state(self, flush)
    }

    ghost history = { λ array whole. whole.history };
}

impl<M: Map + Drop, A: Allocator + Copy> Events<A> for Array<M, A> {
    fn step(&mut self, alloc: A, seat: u32, call: &mut Call<'_, A>) -> Answer<A> {
        Array::step(self, alloc, seat, replace(call, Call::Fold))
    }

    fn give_back(&mut self, alloc: A, buffers: &mut Vec<(Page, Vec<u8, A>), A>) {
        Array::give_back(self, replace(buffers, Vec::new(alloc)));
    }

    fn give_back_plan(&mut self, planned: &mut Option<Planned<A>>) {
        if let Some(planned) = planned.take() {
            Array::give_back_plan(self, planned);
        }
    }

    fn take_plan(&mut self) -> Option<PlanNote<A>> {
        Array::take_plan(self)
    }

    fn give_back_note(&mut self, note: &mut Option<PlanNote<A>>) {
        if let Some(note) = note.take() {
            Array::give_back_note(self, note);
        }
    }
}
