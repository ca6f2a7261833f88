//! What may be asked of the array. Nothing of this is an event.
ghost use Rattle.std.specs.Prelude.{◌≡◌, ◌<◌, ℕ, None, false, is_some, option_map};
ghost use Rattle.std.specs.FinMap.{contains_key, get};
ghost use Rattle.fa_machine.specs.Collecting.{victim as rule_victim};
ghost use Rattle.fa_machine.specs.Conditions.{batch_open as rule_batch, claim_open as rule_claim, copy_open as rule_copy};
ghost use Rattle.fa_machine.specs.Conditions.{history_full as rule_full, is_reserved as rule_reserved};
ghost use Rattle.fa_machine.specs.Copies.{copy_on as rule_copy_on};
ghost use Rattle.fa_machine.specs.Looks.{counts as rule_counts, is_busy as rule_busy, job_kind as rule_job};
ghost use Rattle.fa_machine.specs.Looks.{next_thin as rule_thin, wants_window as rule_window};
ghost use Rattle.fa_machine.specs.Placement.{room as rule_room};
ghost use Rattle.fa_machine.specs.State.{is_live as rule_live};
ghost use Rattle.fa_machine.specs.Taking.{taken};
ghost use Rattle.fa_core_calls.specs.Windows.{is_window_due as is_due, lacks_window as lacks};
ghost use Rattle.fa_core_tables.specs.Counted.{capped};
ghost use Rattle.fa_mirror.specs.Order.{first_dies as rule_first, numbers_of};

use crate::array::Array;
use fa_core_read::PlanCounts;
use fa_machine::{BatchId, Block, ClaimId, HistoryEntry, JobKind, Version};
use fa_map_calls::Map;
use fa_mirror::Placing;
use fa_plan::LogCounts;
use fa_types::{Die, Geometry, Page, Round, Seq, Slot};
use std::alloc::Allocator;

impl<M: Map, A: Allocator + Clone> Array<M, A> {
    ghost use Rattle.fa_core.specs.Array.{number_of, state_of};

    /// The geometry, which no call changes.
    pub fn geometry(&self) -> Geometry
        ensures { result ≡ (state_of M.view self.now).page_map.geometry }
    {
        self.state.page_map.geometry()
    }

    /// The number of the array.
    pub fn array_id(&self) -> [u8; 16]
        ensures { result ≡ number_of self.now }
    {
        self.array
    }

    /// The last write of the page. None where it was never written.
    pub fn version(&self, page: Page) -> Option<Version>
        requires { page.0 < (state_of M.view self.now).page_map.geometry.pages }
        ensures { result ≡ get (state_of M.view self.now).page_map.versions page.0 }
    {
        self.state.page_map.version(page)
    }

    /// The number of the page's last write. None where it was never written.
    pub fn seq(&self, page: Page) -> Option<Seq>
        requires { page.0 < (state_of M.view self.now).page_map.geometry.pages }
        ensures { result ≡ option_map (λ version. version.seq) (get (state_of M.view self.now).page_map.versions page.0) }
    {
        self.state.page_map.seq(page)
    }

    /// The slot of the current copy of the page on the die.
    pub fn copy_on(&self, page: Page, die: Die) -> Option<Slot>
        requires page { page.0 < (state_of M.view self.now).page_map.geometry.pages }
        requires die { die.0 < (state_of M.view self.now).page_map.geometry.dies }
        ensures { option_map (λ slot. slot.0) result ≡ rule_copy_on (state_of M.view self.now).page_map page.0 die.0 }
    {
        self.state.page_map.copy_on(page, die)
    }

    /// Whether the die is live.
    pub fn is_live(&self, die: Die) -> bool
        ensures { result ≡ rule_live (state_of M.view self.now).page_map die.0 }
    {
        self.state.page_map.is_live(die)
    }

    /// How often the live dies have changed.
    pub fn epoch(&self) -> u64
        ensures { result ≡ (state_of M.view self.now).epoch }
    {
        self.state.epoch
    }

    /// The current round.
    pub fn now(&self) -> Round
        ensures { result.0 ≡ (state_of M.view self.now).calendar.round }
    {
        self.state.bookings.now()
    }

    /// How many erased slots of the die writers may take.
    pub fn room(&self, die: Die) -> u32
        requires { die.0 < (state_of M.view self.now).page_map.geometry.dies }
        ensures { result ≡ rule_room (state_of M.view self.now).page_map die.0 }
    {
        self.state.page_map.room(die)
    }

    /// The block that the die's collector empties.
    pub fn victim(&self, die: Die) -> Option<Block>
        requires { die.0 < (state_of M.view self.now).page_map.geometry.dies }
        ensures { option_map (λ block. block.0) result ≡ rule_victim (state_of M.view self.now).page_map die.0 }
    {
        fa_collect::victim(&self.state.page_map, die)
    }

    /// Whether the die wants a window: it is live, has less room than a block, and has a victim.
    pub fn wants_window(&self, die: Die) -> bool
        requires { die.0 < (state_of M.view self.now).page_map.geometry.dies }
        ensures { result ≡ rule_window (state_of M.view self.now).page_map die.0 }
    {
        fa_collect::wants_window(&self.state.page_map, die)
    }

    /// The lowest thin page that has a place to go, and that place.
    pub fn next_thin(&self) -> Option<(Page, Die)>
        ensures { option_map (λ found. (found.0.0, found.1.0)) result
            ≡ rule_thin (state_of M.view self.now).copies (state_of M.view self.now).page_map }
    {
        fa_mirror::next_thin(&self.state.page_map, self.state.copies)
    }

    /// The dies that a write of the page goes to where each has room.
    pub fn first_dies(&self, page: Page) -> Placing
        ensures { numbers_of result ≡ rule_first (state_of M.view self.now).copies (state_of M.view self.now).page_map page.0 }
    {
        fa_mirror::first_dies(&self.state.page_map, self.state.copies, page)
    }

    /// The page map, for whoever only looks.
    pub fn page_map(&self) -> &M
        ensures { M.view result.now ≡ (state_of M.view self.now).page_map }
    {
        &self.state.page_map
    }

    /// How many copies a page is to have.
    pub fn copies(&self) -> u32
        ensures { result ≡ (state_of M.view self.now).copies }
    {
        self.state.copies.number
    }

    /// What the plans of admitted batches came to, since mounting.
    pub fn plan_counts(&self) -> PlanCounts {
        self.planner.counts()
    }

    /// How many plans were kept for who checks them, and how many were dropped. None where nobody does.
    pub fn plan_log_counts(&self) -> Option<LogCounts> {
        self.planner.log_counts()
    }

    /// Whether the die is a spare that was not brought in yet.
    pub fn is_spare(&self, die: Die) -> bool
        ensures { result ≡ contains_key (state_of M.view self.now).spares die.0 }
    {
        self.state.spares.contains(usize::from(die.0))
    }

    /// Whether the die is live, and its header is not one of this epoch.
    pub fn is_behind(&self, die: Die) -> bool
        ensures { result ≡ contains_key (state_of M.view self.now).behind die.0 }
    {
        self.state.behind.contains(usize::from(die.0))
    }

    /// The entries of the history since the last fold, the oldest first.
    pub fn history(&self) -> &[HistoryEntry]
        ensures { result.now ≡ (state_of M.view self.now).history }
    {
        self.state.log.history()
    }

    /// Whether the history has no room for one more entry.
    pub fn history_full(&self) -> bool
        ensures { result ≡ rule_full (state_of M.view self.now) }
    {
        fa_core_upkeep::history_full(&self.state)
    }

    /// How many Commits and how many Starts there were since mounting; of 2^64 and more, 2^64 - 1 are told.
    pub fn counts(&self) -> (u64, u64)
        ensures commits { result.0 ≡ capped (rule_counts (state_of M.view self.now)).0 }
        ensures starts { result.1 ≡ capped (rule_counts (state_of M.view self.now)).1 }
    {
        fa_core_upkeep::counts(&self.state)
    }

    /// Whether the claim is open.
    pub fn claim_open(&self, claim: ClaimId) -> bool
        ensures { result ≡ rule_claim (state_of M.view self.now) claim.0 }
    {
        fa_core_upkeep::claim_open(&self.state, claim)
    }

    /// Whether something is reserved under the claim.
    pub fn is_reserved(&self, claim: ClaimId) -> bool
        ensures { result ≡ rule_reserved (state_of M.view self.now) claim.0 }
    {
        fa_core_upkeep::is_reserved(&self.state, claim)
    }

    /// Whether the batch is open.
    pub fn batch_open(&self, batch: BatchId) -> bool
        ensures { result ≡ rule_batch (state_of M.view self.now) batch.0 }
    {
        fa_core_upkeep::batch_open(&self.state, batch)
    }

    /// Whether a copy is under way.
    pub fn copy_open(&self) -> bool
        ensures { result ≡ rule_copy (state_of M.view self.now) }
    {
        fa_core_upkeep::copy_open(&self.state)
    }

    /// Whether a job, a claim, a batch or a copy is open.
    pub fn is_busy(&self) -> bool
        ensures { result ≡ rule_busy (state_of M.view self.now) }
    {
        fa_core_upkeep::is_busy(&self.state)
    }

    /// Whether a Take of the die would hand out a job, or drop a booking. Where it says no, a Take answers nothing and changes nothing,
    /// whoever makes it.
    pub fn has_job(&self, die: Die) -> bool
        requires { die.0 < (state_of M.view self.now).page_map.geometry.dies }
        ensures nothing { result ≡ false → (seat : ℕ) → taken (state_of M.view self.now) die.0 seat ≡ (None, state_of M.view self.now) }
    {
        fa_core_dispatch::has_job(&self.state, die)
    }

    /// Whether what is reserved under the claim waits for a program of a live die.
    pub fn is_pending(&self, claim: ClaimId) -> bool {
        fa_core_write::is_pending(&self.state, claim)
    }

    /// Whether the die has a window that has not passed.
    pub fn has_window(&self, die: Die) -> bool
        ensures { result ≡ is_some (get (state_of M.view self.now).calendar.windows die.0) }
    {
        self.state.bookings.window(die).is_some()
    }

    /// Whether a die wants a window and has none.
    pub fn is_window_due(&self) -> bool
        ensures { result ≡ is_due (state_of M.view self.now) }
    {
        for die in 0..self.geometry().dies {
            if self.lacks_window(Die(die as u8)) {
                return true;
            }
        }
        false
    }

    /// Whether this die does.
    fn lacks_window(&self, die: Die) -> bool
        requires { die.0 < (state_of M.view self.now).page_map.geometry.dies }
        ensures { result ≡ lacks (state_of M.view self.now) die.0 }
    {
        self.wants_window(die) && !self.has_window(die)
    }

    /// The kind of the job that the die is at.
    pub fn job_kind(&self, die: Die) -> Option<JobKind>
        ensures { result ≡ rule_job (state_of M.view self.now) die.0 }
    {
        fa_core_upkeep::job_kind(&self.state, die)
    }
}
