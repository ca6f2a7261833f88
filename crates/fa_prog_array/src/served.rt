//! A shared array as who watches it sees it.
use crate::faults::told;
use crate::seen::Seen;
use fa_core_calls::Events;
use fa_plan::PlanNote;
use fa_prog_clients::Networked;
use fa_prog_host::LostPages;
use fa_prog_status::{DieState, FaultStatus, PageStatus, SlotCounts};
use fa_prog_watch::{BLOCKS_A_HOLD, Moment, PAGES_A_HOLD, PLANS_A_HOLD, Sight, Watched};
use fa_shared::Shared;
use fa_types::{Die, Geometry};
use std::alloc::{AllocError, Global};
use std::sync::ledger::Ledger;

/// A shared array, on a machine on which its lock is waited for.
#[derive(Drop)]
pub struct Served<'a, R, L: Ledger, E: Events<Global> + Seen> {
    rt: &'a R,
    shared: &'a Shared<L, E>,
}

impl<'a, R, L: Ledger, E: Events<Global> + Seen> Served<'a, R, L, E> {
    /// This array.
    pub fn new(rt: &'a R, shared: &'a Shared<L, E>) -> Served<'a, R, L, E> {
        Served { rt, shared }
    }
}

impl<R: Networked, L: Ledger, E: Events<Global> + Seen> Watched for Served<'_, R, L, E> {
    fn geometry(&self) -> Geometry {
        let guard = self.shared.lock(self.rt);
        let geometry = guard.array().geometry();
        self.shared.let_go(guard);
        geometry
    }

    fn is_stopping(&self) -> bool {
        self.shared.stopped(self.rt)
    }

    fn moment(&self) -> Moment {
        let guard = self.shared.lock(self.rt);
        let moment = guard.array().moment();
        self.shared.let_go(guard);
        moment
    }

    fn sight(&self, copies: u32) -> Sight {
        let guard = self.shared.lock(self.rt);
        let sight = guard.array().sight(copies);
        self.shared.let_go(guard);
        sight
    }

    fn standing(&self, die: Die, has_image: bool) -> (DieState, bool) {
        let guard = self.shared.lock(self.rt);
        let standing = guard.array().standing(die, has_image);
        self.shared.let_go(guard);
        standing
    }

    fn faults(&self, global: Global) -> Result<Vec<FaultStatus>, AllocError> {
        let faults = self.shared.faults(self.rt, global)?;
        told(global, faults.as_slice())
    }

    fn note_lost(&self, first: u64, lost: &mut LostPages) -> Result<(), AllocError> {
        let guard = self.shared.lock(self.rt);
        let noted = guard.array().note_lost(first, PAGES_A_HOLD, lost);
        self.shared.let_go(guard);
        noted
    }

    fn count_lost(&self, first: u64) -> u64 {
        let guard = self.shared.lock(self.rt);
        let count = guard.array().count_lost(first, PAGES_A_HOLD);
        self.shared.let_go(guard);
        count
    }

    fn count_pages(&self, first: u64, counted: &mut PageStatus) -> Result<(), AllocError> {
        let guard = self.shared.lock(self.rt);
        let made = guard.array().count_pages(first, PAGES_A_HOLD, counted);
        self.shared.let_go(guard);
        made
    }

    fn count_slots(&self, die: Die, first: u32, counted: &mut SlotCounts) {
        let guard = self.shared.lock(self.rt);
        guard
            .array()
            .count_slots(die, first, BLOCKS_A_HOLD, counted);
        self.shared.let_go(guard);
    }

    fn change_plans(&self, used: &mut Vec<PlanNote>, taken: &mut Vec<PlanNote>) {
        let mut held = self.shared.lock(self.rt);
        for _ in 0..PLANS_A_HOLD {
            let Some(note) = used.pop() else {
                break;
            };
            held.give_back_note(note);
        }
        for _ in 0..PLANS_A_HOLD {
            let Some(note) = held.take_plan() else {
                break;
            };
            let _ = taken.push(note);
        }
        self.shared.let_go(held);
    }
}
