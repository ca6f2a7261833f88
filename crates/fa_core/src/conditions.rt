//! What may be asked of the array before an event: whether the event's conditions hold. Nothing of this is an event.
ghost use Rattle.std.specs.Prelude.{◌≡◌, ◌&&◌, ℕ, List, false, length, map, nat_le, nat_lt, not};
ghost use Rattle.std.specs.FinMap.{get};
ghost use Rattle.std.specs.List.{list_all};
ghost use Rattle.std.specs.Option.{option_map_or};
ghost use Rattle.fa_core_outcome.specs.Outcomes.{outcome_of};
ghost use Rattle.fa_machine.specs.Cells.{is_of_kind};
ghost use Rattle.fa_machine.specs.Conditions.{claim_open as rule_claim, history_full as rule_full, is_reserved as rule_reserved};
ghost use Rattle.fa_machine.specs.Step.{is_die as rule_die, is_distinct, is_page as rule_page, is_sized as rule_sized};

use crate::array::Array;
use crate::distinct::are_distinct;
use fa_core_outcome::Outcome;
use fa_machine::{ClaimId, Flight};
use fa_map_calls::Map;
use fa_tag::Payload;
use fa_types::{Die, Page};
use std::alloc::Allocator;

impl<M: Map, A: Allocator + Clone> Array<M, A> {
    ghost use Rattle.fa_core.specs.Array.{state_of};

    /// Whether the page is one of the array.
    pub fn is_page(&self, page: Page) -> bool
        ensures { result ≡ rule_page (state_of M.view self.now) page.0 }
    {
        page.0 < self.state.page_map.geometry().pages
    }

    /// Whether the die is one of the array.
    pub fn is_die(&self, die: Die) -> bool
        ensures { result ≡ rule_die (state_of M.view self.now) die.0 }
    {
        u32::from(die.0) < self.state.page_map.geometry().dies
    }

    /// Whether these are as many bytes as a page has.
    pub fn is_sized(&self, bytes: &[u8]) -> bool
        ensures { result ≡ rule_sized (state_of M.view self.now) bytes.now }
    {
        bytes.len() == self.state.page_map.geometry().page_bytes as usize
    }

    /// Whether the claim is open and nothing is reserved under it.
    pub fn may_reserve(&self, claim: ClaimId) -> bool
        ensures { result ≡ (rule_claim (state_of M.view self.now) claim.0 && not (rule_reserved (state_of M.view self.now) claim.0)) }
    {
        self.claim_open(claim) && !self.is_reserved(claim)
    }

    /// Whether the same is true and the payload has a page's bytes.
    pub fn may_reserve_payload(&self, claim: ClaimId, payload: &Payload<A>) -> bool
        ensures { result ≡ (rule_claim (state_of M.view self.now) claim.0 && not (rule_reserved (state_of M.view self.now) claim.0)
            && rule_sized (state_of M.view self.now) payload.now) }
    {
        self.may_reserve(claim) && self.is_sized(payload.bytes())
    }

    /// Whether something is reserved under the claim and the history has room.
    pub fn may_commit(&self, claim: ClaimId) -> bool
        ensures { result ≡ (rule_reserved (state_of M.view self.now) claim.0 && not (rule_full (state_of M.view self.now))) }
    {
        self.is_reserved(claim) && !self.history_full()
    }

    /// Whether these pages may be a batch: they are pages of the array, 1,024 at most, and no two are the same.
    pub fn may_admit(&self, pages: &[Page]) -> bool
        ensures { result ≡ (is_distinct (map (λ page. page.0) pages.now)
            && list_all (rule_page (state_of M.view self.now)) (map (λ page. page.0) pages.now)
            && nat_le (length (map (λ page. page.0) pages.now)) 1024) }
    {
        are_distinct(pages) && self.are_pages(pages) && are_few(pages)
    }

    /// Whether these are pages of the array.
    fn are_pages(&self, pages: &[Page]) -> bool
        ensures { result ≡ list_all (rule_page (state_of M.view self.now)) (map (λ page. page.0) pages.now) }
    {
        let all = self.state.page_map.geometry().pages;
        are_below(pages, all)
    }

    /// Whether the die is one of the array and the history has room.
    pub fn may_take(&self, die: Die) -> bool
        ensures { result ≡ (rule_die (state_of M.view self.now) die.0 && not (rule_full (state_of M.view self.now))) }
    {
        self.is_die(die) && !self.history_full()
    }

    /// Whether the die is at a job that may end so, and these are as many bytes as a page has.
    pub fn may_end(&self, die: Die, outcome: Outcome, bytes: &[u8]) -> bool
        ensures { result ≡ (option_map_or (λ job. is_of_kind job (outcome_of outcome bytes.now))
            (get (state_of M.view self.now).jobs die.0) false && rule_sized (state_of M.view self.now) bytes.now) }
    {
        match self.state.jobs.get(die) {
            Some(job) => may_end_by(job, outcome) && self.is_sized(bytes),
            None => false,
        }
    }

    /// Whether the die is one of the array and a window may be of so many rounds: 1 to 64.
    pub fn may_have_window(&self, die: Die, rounds: u64) -> bool
        ensures { result ≡ (rule_die (state_of M.view self.now) die.0 && nat_le 1 rounds && nat_le rounds 64) }
    {
        self.is_die(die) && 1 <= rounds && rounds <= 64
    }

    /// Whether the page is one of the array and the payload has a page's bytes.
    pub fn may_reserve_copy(&self, page: Page, payload: &Payload<A>) -> bool
        ensures { result ≡ (rule_page (state_of M.view self.now) page.0
            && rule_sized (state_of M.view self.now) payload.now) }
    {
        self.is_page(page) && self.is_sized(payload.bytes())
    }
}

/// Whether these are pages of an array of so many pages.
fn are_below(pages: &[Page], all: u64) -> bool
    ensures { result ≡ list_all (λ page. nat_lt page.0 all) pages.now }
{
    pages.iter().all(|page| page.0 < all)
}

/// Whether the outcome is of the job's kind, whatever bytes come with it.
fn may_end_by(job: Flight, outcome: Outcome) -> bool
    ensures { (bytes : List ℕ) → result ≡ is_of_kind job (outcome_of outcome bytes) }
{
    match outcome {
        Outcome::Read(_) => matches!(job, Flight::Read { .. }),
        Outcome::Programmed => matches!(job, Flight::Program { .. }),
        Outcome::Moved | Outcome::Wrong => matches!(job, Flight::Move { .. }),
        Outcome::Erased => matches!(job, Flight::Erase { .. }),
        Outcome::HeaderWritten => matches!(job, Flight::Header { .. }),
        Outcome::Synced => matches!(job, Flight::Sync { .. }),
        Outcome::Fault(_) => true,
    }
}

/// Whether a batch may have as many pages.
fn are_few(pages: &[Page]) -> bool
    ensures { result ≡ nat_le (length (map (λ page. page.0) pages.now)) 1024 }
{
    pages.len() <= 1024
}
