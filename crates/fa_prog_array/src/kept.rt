//! An array as the threads of a server and the store of one thread have it.
use crate::counting::{count_pages, count_slots};
use crate::lost::{count_lost, note_lost};
use crate::seen::Seen;
use crate::standing::{moment_of, sight_of, standing_of};
use fa_core::Array;
use fa_core_calls::{Answer, Call, Events, Looks};
use fa_machine::{BatchId, Block, ClaimId, Flush, FlushState, JobKind, ReadState};
use fa_map_calls::Map;
use fa_mirror::Placing;
use fa_plan::{PlanNote, Planned};
use fa_prog_host::LostPages;
use fa_prog_status::{DieState, PageStatus, SlotCounts};
use fa_prog_watch::{Moment, Sight};
use fa_types::{Die, Geometry, Page, Round, Seq};
use std::alloc::{AllocError, Global};
use std::mem::replace;

/// An array whose memory is the system's, for crates that are over any array. A type of its own has no allocator among its parameters: where one is
/// named there, the kit compares all parts of the array for each call of its impl, and comes to no verdict.
#[derive(Drop)]
pub struct Kept<M: Map + Drop> {
    /// The array.
    pub array: Array<M>,
}

impl<M: Map + Drop> Looks for Kept<M> {
    ghost use Rattle.fa_core.specs.Array.{IsWhole, number_of, state_of};

    ghost core = { λ kept. state_of M.view kept.array };

    ghost number = { λ kept. number_of kept.array };

    ghost whole = { λ kept. IsWhole M.view kept.array };

    fn geometry(&self) -> Geometry {
        self.array.geometry()
    }

    fn array_id(&self) -> [u8; 16] {
        self.array.array_id()
    }

    fn is_page(&self, page: Page) -> bool {
        self.array.is_page(page)
    }

    fn is_die(&self, die: Die) -> bool {
        self.array.is_die(die)
    }

    fn is_live(&self, die: Die) -> bool {
        self.array.is_live(die)
    }

    fn now(&self) -> Round {
        self.array.now()
    }

    fn seq(&self, page: Page) -> Option<Seq> {
        self.array.seq(page)
    }

    fn next_thin(&self) -> Option<(Page, Die)> {
        self.array.next_thin()
    }

    fn first_dies(&self, page: Page) -> Placing {
        self.array.first_dies(page)
    }

    fn room(&self, die: Die) -> u32 {
        self.array.room(die)
    }

    fn victim(&self, die: Die) -> Option<Block> {
        self.array.victim(die)
    }

    fn wants_window(&self, die: Die) -> bool {
        self.array.wants_window(die)
    }

    fn has_window(&self, die: Die) -> bool {
        self.array.has_window(die)
    }

    fn is_window_due(&self) -> bool {
        self.array.is_window_due()
    }

    fn has_job(&self, die: Die) -> bool {
        self.array.has_job(die)
    }

    fn job_kind(&self, die: Die) -> Option<JobKind> {
        self.array.job_kind(die)
    }

    fn is_pending(&self, claim: ClaimId) -> bool {
        self.array.is_pending(claim)
    }

    fn claim_open(&self, claim: ClaimId) -> bool {
        self.array.claim_open(claim)
    }

    fn is_reserved(&self, claim: ClaimId) -> bool {
        self.array.is_reserved(claim)
    }

    fn copy_open(&self) -> bool {
        self.array.copy_open()
    }

    fn history_full(&self) -> bool {
        self.array.history_full()
    }

    fn commits(&self) -> u64 {
        self.array.counts().0
    }

    fn results(&self, batch: BatchId) -> ReadState {
        self.array.results(batch)
    }

    fn flush_state(&self, flush: &Flush) -> FlushState {
        self.array.flush_state(flush)
    }

    ghost history = { λ kept whole. whole.history };
}

impl<M: Map + Drop> Events<Global> for Kept<M> {
    fn step(&mut self, alloc: Global, seat: u32, call: &mut Call<'_, Global>) -> Answer<Global> {
        self.array.step(alloc, seat, replace(call, Call::Fold))
    }

    fn give_back(&mut self, alloc: Global, buffers: &mut Vec<(Page, Vec<u8>)>) {
        self.array.give_back(replace(buffers, Vec::new(alloc)));
    }

    fn give_back_plan(&mut self, planned: &mut Option<Planned<Global>>) {
        if let Some(planned) = planned.take() {
            self.array.give_back_plan(planned);
        }
    }

    fn take_plan(&mut self) -> Option<PlanNote<Global>> {
        self.array.take_plan()
    }

    fn give_back_note(&mut self, note: &mut Option<PlanNote<Global>>) {
        if let Some(note) = note.take() {
            self.array.give_back_note(note);
        }
    }
}

impl<M: Map + Drop> Seen for Kept<M> {
    fn moment(&self) -> Moment {
        moment_of(&self.array)
    }

    fn sight(&self, copies: u32) -> Sight {
        sight_of(&self.array, copies)
    }

    fn standing(&self, die: Die, has_image: bool) -> (DieState, bool) {
        standing_of(&self.array, die, has_image)
    }

    fn note_lost(&self, first: u64, pages: u64, lost: &mut LostPages) -> Result<(), AllocError> {
        note_lost(&self.array, first, pages, lost)
    }

    fn count_lost(&self, first: u64, pages: u64) -> u64 {
        count_lost(&self.array, first, pages)
    }

    fn count_pages(
        &self,
        first: u64,
        pages: u64,
        counted: &mut PageStatus,
    ) -> Result<(), AllocError> {
        count_pages(&self.array, first, pages, counted)
    }

    fn count_slots(&self, die: Die, first: u32, blocks: u32, counted: &mut SlotCounts) {
        count_slots(&self.array, die, first, blocks, counted);
    }
}
