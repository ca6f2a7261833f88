//! What plans came to, beside what a naive placement would have come to.
use fa_batch::Batch;
use fa_types::{Die, Rounds};
use std::alloc::Allocator;

/// The last round in which anything is planned.
const LAST_ROUND: u64 = 1 << 56;

/// How many pages of a die are counted at most.
const MAX_PAGES: u64 = 1 << 32;

/// What the plans of batches came to.
#[derive(Clone, Copy)]
pub struct PlanCounts {
    /// Batches that were planned.
    pub batches: u64,
    /// Their pages.
    pub pages: u64,
    /// The rounds that their plans take.
    pub rounds: u64,
    /// The rounds that they would have taken, had each page been read from its first holder.
    pub naive_rounds: u64,
}

impl PlanCounts {
    /// Nothing was planned yet.
    pub(crate) const NONE: PlanCounts = PlanCounts {
        batches: 0,
        pages: 0,
        rounds: 0,
        naive_rounds: 0,
    };

    /// One batch of these pages, whose plan takes so many rounds. None of it is booked yet.
    pub(crate) fn of<R: Rounds, A: Allocator>(
        entries: &Batch<A>,
        rounds: u64,
        calendar: &R,
    ) -> PlanCounts {
        PlanCounts {
            batches: 1,
            pages: entries.len() as u64,
            rounds,
            naive_rounds: naive_rounds(entries, calendar),
        }
    }

    /// What other plans came to is added.
    pub(crate) fn add(&mut self, other: PlanCounts) {
        self.batches = self.batches.saturating_add(other.batches);
        self.pages = self.pages.saturating_add(other.pages);
        self.rounds = self.rounds.saturating_add(other.rounds);
        self.naive_rounds = self.naive_rounds.saturating_add(other.naive_rounds);
    }
}

/// How many rounds it would take to read each page from its first holder.
fn naive_rounds<R: Rounds, A: Allocator>(entries: &Batch<A>, calendar: &R) -> u64 {
    let now = calendar.now().0;
    if now > LAST_ROUND {
        return 0;
    }
    let pages = pages_of_dies(entries);
    let mut rounds = 0u64;
    for die in 0..64u8 {
        let count = pages[usize::from(die)].min(MAX_PAGES);
        if count > 0 {
            let last = calendar.nth_open(Die(die), count).0;
            rounds = rounds.max(last.saturating_sub(now).saturating_add(1));
        }
    }
    rounds
}

/// For each die how many of these pages it holds first.
fn pages_of_dies<A: Allocator>(entries: &Batch<A>) -> [u64; 64] {
    let mut pages = [0u64; 64];
    for index in 0..entries.len() {
        if let Some(die) = entries.holders_at(index).first() {
            if let Some(count) = pages.get_mut(usize::from(die.0)) {
                *count = count.saturating_add(1);
            }
        }
    }
    pages
}
