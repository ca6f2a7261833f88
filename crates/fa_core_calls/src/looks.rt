//! The trait of an array that is looked at.
ghost use Rattle.std.specs.Prelude.{◌≡◌, ◌<◌, ℕ, List, None, false, is_some, option_map};
ghost use Rattle.std.specs.FinMap.{get};
ghost use Rattle.fa_core_calls.specs.Windows.{is_window_due as is_due};
ghost use Rattle.fa_core_tables.specs.Counted.{capped};
ghost use Rattle.fa_laws.specs.Counted.{HasHistory};
ghost use Rattle.fa_machine.specs.Collecting.{victim as rule_victim};
ghost use Rattle.fa_machine.specs.Conditions.{claim_open as rule_claim, copy_open as rule_copy, history_full as rule_full};
ghost use Rattle.fa_machine.specs.Conditions.{is_reserved as rule_reserved};
ghost use Rattle.fa_machine.specs.Flushing.{flush_state as rule_state};
ghost use Rattle.fa_machine.specs.Looks.{counts as rule_counts, job_kind as rule_job, next_thin as rule_thin};
ghost use Rattle.fa_machine.specs.Looks.{wants_window as rule_window};
ghost use Rattle.fa_machine.specs.Placement.{room as rule_room};
ghost use Rattle.fa_machine.specs.Reading.{results as rule_results};
ghost use Rattle.fa_machine.specs.State.{Core, is_live as rule_live};
ghost use Rattle.fa_machine.specs.Step.{is_die as rule_die, is_page as rule_page};
ghost use Rattle.fa_machine.specs.Taking.{taken};
ghost use Rattle.fa_mirror.specs.Order.{first_dies as rule_first, numbers_of};

use fa_machine::{BatchId, Block, ClaimId, Flush, FlushState, JobKind, ReadState};
use fa_mirror::Placing;
use fa_types::{Die, Geometry, Page, Round, Seq};

/// An array that anybody may look at. Nothing of this is an event.
pub trait Looks: Drop {
    /// The state, as the machine has it.
    ghost core: { Self → Core };

    /// The number of the array.
    ghost number: { Self → List ℕ };

    /// What is true of the array at any time.
    ghost whole: { Self → Type 0 };

    /// The geometry, which no call changes.
    fn geometry(&self) -> Geometry
        ensures { result ≡ (core self.now).page_map.geometry };

    /// The number of the array.
    fn array_id(&self) -> [u8; 16]
        ensures { result ≡ number self.now };

    /// Whether the page is one of the array.
    fn is_page(&self, page: Page) -> bool
        ensures { result ≡ rule_page (core self.now) page.0 };

    /// Whether the die is one of the array.
    fn is_die(&self, die: Die) -> bool
        ensures { result ≡ rule_die (core self.now) die.0 };

    /// Whether the die is live.
    fn is_live(&self, die: Die) -> bool
        ensures { result ≡ rule_live (core self.now).page_map die.0 };

    /// The current round.
    fn now(&self) -> Round
        ensures { result.0 ≡ (core self.now).calendar.round };

    /// The number of the page's last write. None where it was never written.
    fn seq(&self, page: Page) -> Option<Seq>
        requires { page.0 < (core self.now).page_map.geometry.pages }
        ensures { result ≡ option_map (λ version. version.seq) (get (core self.now).page_map.versions page.0) };

    /// The lowest thin page that has a place to go, and that place.
    fn next_thin(&self) -> Option<(Page, Die)>
        ensures { option_map (λ found. (found.0.0, found.1.0)) result ≡ rule_thin (core self.now).copies (core self.now).page_map };

    /// The dies that a write of the page goes to where each has room.
    fn first_dies(&self, page: Page) -> Placing
        ensures { numbers_of result ≡ rule_first (core self.now).copies (core self.now).page_map page.0 };

    /// How many erased slots of the die writers may take.
    fn room(&self, die: Die) -> u32
        requires { die.0 < (core self.now).page_map.geometry.dies }
        ensures { result ≡ rule_room (core self.now).page_map die.0 };

    /// The block that the die's collector empties.
    fn victim(&self, die: Die) -> Option<Block>
        requires { die.0 < (core self.now).page_map.geometry.dies }
        ensures { option_map (λ block. block.0) result ≡ rule_victim (core self.now).page_map die.0 };

    /// Whether the die wants a window: it is live, has less room than a block, and has a victim.
    fn wants_window(&self, die: Die) -> bool
        requires { die.0 < (core self.now).page_map.geometry.dies }
        ensures { result ≡ rule_window (core self.now).page_map die.0 };

    /// Whether the die has a window that has not passed.
    fn has_window(&self, die: Die) -> bool
        ensures { result ≡ is_some (get (core self.now).calendar.windows die.0) };

    /// Whether a die wants a window and has none.
    fn is_window_due(&self) -> bool
        ensures { result ≡ is_due (core self.now) };

    /// Whether a Take of the die would hand out a job, or drop a booking. Where it says no, a Take answers nothing and changes nothing,
    /// whoever makes it.
    fn has_job(&self, die: Die) -> bool
        requires { die.0 < (core self.now).page_map.geometry.dies }
        ensures nothing { result ≡ false → (seat : ℕ) → taken (core self.now) die.0 seat ≡ (None, core self.now) };

    /// The kind of the job that the die is at.
    fn job_kind(&self, die: Die) -> Option<JobKind>
        ensures { result ≡ rule_job (core self.now) die.0 };

    /// Whether what is reserved under the claim waits for a program of a live die.
    fn is_pending(&self, claim: ClaimId) -> bool;

    /// Whether the claim is open.
    fn claim_open(&self, claim: ClaimId) -> bool
        ensures { result ≡ rule_claim (core self.now) claim.0 };

    /// Whether something is reserved under the claim.
    fn is_reserved(&self, claim: ClaimId) -> bool
        ensures { result ≡ rule_reserved (core self.now) claim.0 };

    /// Whether a copy is under way.
    fn copy_open(&self) -> bool
        ensures { result ≡ rule_copy (core self.now) };

    /// Whether the history has no room for one more entry.
    fn history_full(&self) -> bool
        ensures { result ≡ rule_full (core self.now) };

    /// How many Commits there were since mounting; of 2^64 and more, 2^64 - 1 are told.
    fn commits(&self) -> u64
        ensures { result ≡ capped (rule_counts (core self.now)).0 };

    /// How the batch stands.
    fn results(&self, batch: BatchId) -> ReadState
        requires whole { whole self.now }
        ensures { result ≡ rule_results (core self.now) batch.0 };

    /// How the flush stands.
    fn flush_state(&self, flush: &Flush) -> FlushState
        ensures { result ≡ rule_state (core self.now) flush.now };

    /// Its numbers are the replay of its history since the last fold, in which each Start is legal.
    ghost history: { (array : Self) → whole array → HasHistory (core array) };
}
