//! The history, and the base that it goes on from.
ghost use Rattle.std.specs.Prelude.{◌≡◌, ℕ, ◌<◌, ◌≤◌, [], ◌∷◌, ◌++◌, nat_le, length, vec_capacity, IfOk};
ghost use Rattle.std.specs.FinMap.{FinMap};
ghost use Rattle.std.specs.Ordering.{nat_cmp};
ghost use Rattle.fa_machine.specs.History.{folded};
ghost use Rattle.fa_core_tables.specs.Counted.{IsCounted, capped, new_base};
ghost use Rattle.fa_core_tables.specs.declared.log.TheConstants.{MAX_ENTRIES};

use crate::shown::BaseShown;
use fa_ghost::History;
use fa_machine::HistoryEntry;
use fa_types::{Page, Seq};
use std::alloc::{AllocError, Allocator, Global};

/// How many entries the history has room for.
pub const MAX_ENTRIES: usize = 65_536;

/// The history: the Commits and Starts since the last fold, and how many there were since mounting. What
/// the pages' numbers were at the last fold is shown to clauses alone, and takes no memory. No call but
/// [`Log::new`] takes memory, and each takes one step, save `fold`, which takes one for each entry.
#[derive(Drop)]
pub struct Log<A: Allocator = Global> {
    entries: Vec<HistoryEntry, A>,
    /// How many Commits there were since mounting.
    commits: u64,
    /// How many Starts there were since mounting.
    starts: u64,
    base: History<BaseShown>,
    ghost room: { MAX_ENTRIES ≤ vec_capacity entries },
    ghost fits: { length entries.items ≤ MAX_ENTRIES },
    ghost counted: { IsCounted base.shown entries.items commits starts },
}

impl<A: Allocator> Log<A> {
    ghost use Rattle.fa_machine.specs.declared.answers.HistoryEntry.TheVariants.{Commit, Start};
    ghost use Rattle.fa_core_tables.specs.Logs.{base_of, history_of};

    /// An empty history over what was mounted: the proof of the caller says which numbers its pages have.
    /// The error is out of memory.
    pub fn new<E>(alloc: A, mounted: &E) -> Result<Log<A>, AllocError>
        ghost numbers: { E → FinMap nat_cmp ℕ }
        ensures base { IfOk result (λ log. base_of log ≡ new_base (numbers mounted.now)) }
        ensures history { IfOk result (λ log. history_of log ≡ []) }
    {
        let entries = Vec::with_capacity(alloc, MAX_ENTRIES)?;
        Ok(Log {
            entries,
            commits: 0,
            starts: 0,
            base: History::begin(mounted),
        })
    }

    /// A page was given a number.
    pub fn note_commit(&mut self, seat: u32, page: Page, seq: Seq)
        requires { length (history_of self.old) < MAX_ENTRIES }
        ensures history { history_of self.new ≡ history_of self.old ++ Commit seat page seq ∷ [] }
        ensures base { base_of self.new ≡ base_of self.old }
    {
        self.entries
            .push_reserved(HistoryEntry::Commit { seat, page, seq });
        self.commits = self.commits.saturating_add(1);
    }

    /// A read of a page started while the page had a number.
    pub fn note_start(&mut self, seat: u32, page: Page, seq: Seq)
        requires { length (history_of self.old) < MAX_ENTRIES }
        ensures history { history_of self.new ≡ history_of self.old ++ Start seat page seq ∷ [] }
        ensures base { base_of self.new ≡ base_of self.old }
    {
        self.entries
            .push_reserved(HistoryEntry::Start { seat, page, seq });
        self.starts = self.starts.saturating_add(1);
    }

    /// Whether there is no room for one more entry.
    pub fn is_full(&self) -> bool
        ensures { result ≡ nat_le MAX_ENTRIES (length (history_of self.now)) }
    {
        MAX_ENTRIES <= self.entries.len()
    }

    /// The entries since the last fold, the oldest first.
    pub fn history(&self) -> &[HistoryEntry]
        ensures { result.now ≡ history_of self.now }
    {
        &self.entries
    }

    /// How many Commits and how many Starts there were since mounting; of 2^64 and more, 2^64 - 1 are
    /// told.
    pub fn counts(&self) -> (u64, u64)
        ensures commits { result.0 ≡ capped (folded (base_of self.now) (history_of self.now)).commits }
        ensures starts { result.1 ≡ capped (folded (base_of self.now) (history_of self.now)).starts }
    {
        (self.commits, self.starts)
    }

    /// The entries are taken into the base, and none is left.
    pub fn fold(&mut self)
        ensures base { base_of self.new ≡ folded (base_of self.old) (history_of self.old) }
        ensures history { history_of self.new ≡ [] }
    {
        self.base.note(&self.entries);
        self.entries.clear();
    }
}
