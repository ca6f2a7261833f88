//! A batch of reads: the pages that are to be read together, each with the dies that hold it.
ghost use Rattle.std.specs.Prelude.{◌≡◌, ℕ, ◌<◌, ◌≤◌, ◌↔◌, ◌==◌, [], ◌∷◌, ◌++◌, length, IsTrue, OnOk, OnErr, IfSome};
ghost use Rattle.std.specs.Prelude.{MatchOption, false, nat_lt, slice_get, take};
ghost use Rattle.std.specs.Option.{option_copied, option_map, option_map_or};
ghost use Rattle.std.specs.List.{find};
ghost use Rattle.fa_batch.specs.declared.batch.HeldPage.{HeldPage};
ghost use Rattle.fa_batch.specs.Index.{begin_from, index_among, pages_of, AreRising};
ghost use Rattle.fa_batch_terms.specs.Batch.{AreFine, IsFirstWrong, is_among, with_holder};

use fa_batch_terms::Unsound;
use fa_types::{Die, Page};
use std::alloc::{AllocError, Allocator, Global};
use std::collections::BTreeMap;
use std::marker::Model;

/// The most pages of a batch.
pub const MAX_PAGES: usize = 1024;

/// A page of a batch, and the index at which its holders end in the list of all holders. They begin
/// where those of the entry before it end.
#[derive(Clone, Copy)]
struct HeldPage {
    page: Page,
    end: usize,
}

/// The pages of a batch in the order in which they were given, each with its holders. Contracts see
/// the list of these. Finding a page takes as many steps as the logarithm of their number. Pages that
/// are added in rising order take no memory but that of two lists.
#[derive(Drop)]
pub struct Batch<A: Allocator = Global> {
    entries: Vec<HeldPage, A>,
    // The holders of each entry, in the order of the entries.
    holders: Vec<Die, A>,
    // The length of the longest prefix of the entries in which each page is above the one before it.
    rising: usize,
    // The index of the first entry of each page that is not in this prefix.
    first: BTreeMap<u64, usize, A>,
}

impl<A: Allocator> Model for Batch<A> {
    ghost use Rattle.std.specs.Prelude.{List};
    ghost use Rattle.fa_batch_terms.specs.Batch.{Entry};

    ghost Value = { List Entry };

    ghost use Rattle.fa_batch.specs.Index.{entries_of, IsIndexed};

    ghost view = { λ b. entries_of b.entries.items b.holders.items };

    ghost invariant = { λ b. IsIndexed b.entries.items b.holders.items b.rising b.first };
}

impl<A: Allocator + Copy> Batch<A> {
    /// The batch of no pages.
    pub fn new(alloc: A) -> Batch<A>
        ensures { result ≡ [] }
    {
        Batch {
            entries: Vec::new(alloc),
            holders: Vec::new(alloc),
            rising: 0,
            first: BTreeMap::new(alloc),
        }
    }

    /// Adds a page with its holders at the end. Out of memory, the batch stays as it was.
    pub fn push(&mut self, page: Page, holders: &[Die]) -> Result<(), AllocError>
        ensures ok { OnOk result (self.new ≡ self.old ++ record { page = page; holders = holders.now } ∷ []) }
        ensures err { OnErr result (self.new ≡ self.old) }
    {
        if rises(&self.entries, self.rising, page) {
            append(&mut self.entries, &mut self.holders, page, holders)?;
            self.rising += 1;
            return Ok(());
        }
        let is_new = self.first_index(page).is_none();
        let index = self.entries.len();
        let count = self.holders.len();
        append(&mut self.entries, &mut self.holders, page, holders)?;
        if is_new {
            if let Err(_) = self.first.insert(page.0, index) {
                self.entries.truncate(index);
                self.holders.truncate(count);
                return Err(AllocError);
            }
        }
        Ok(())
    }
}

impl<A: Allocator> Batch<A> {
    ghost use Rattle.fa_batch_terms.specs.Batch.{IsSound, times_named};
    ghost use Rattle.fa_batch.specs.Index.{entry_index};

    /// Adds a die at the end of the last entry's holders. Out of memory, the batch stays as it was.
    pub fn hold(&mut self, die: Die) -> Result<(), AllocError>
        requires { 0 < length self.old }
        ensures ok { OnOk result (self.new ≡ with_holder self.old die) }
        ensures err { OnErr result (self.new ≡ self.old) }
    {
        self.holders.push(die)?;
        let last = self.entries.len() - 1;
        self.entries[last].end = self.holders.len();
        Ok(())
    }

    /// The batch has no pages any more, and keeps its memory.
    pub fn clear(&mut self)
        ensures { self.new ≡ [] }
    {
        self.entries.clear();
        self.holders.clear();
        self.rising = 0;
        self.first.clear();
    }

    /// The number of entries.
    pub fn len(&self) -> usize
        ensures { result ≡ length self.now }
    {
        self.entries.len()
    }

    /// The page of the entry at an index.
    pub fn page(&self, index: usize) -> Page
        requires { index < length self.now }
        ensures { IfSome (slice_get self.now index) (λ e. e.page ≡ result) }
    {
        self.entries[index].page
    }

    /// The holders of the entry at an index.
    pub fn holders_at(&self, index: usize) -> &[Die]
        requires { index < length self.now }
        ensures { IfSome (slice_get self.now index) (λ e. e.holders ≡ result.now) }
    {
        let begin = begin_of(&self.entries, index);
        &self.holders[begin..self.entries[index].end]
    }

    /// The index of the entry of a page, where there is one. It is found at once where it is the index at
    /// which the page is likely to stand.
    pub fn index_of(&self, page: Page, likely: usize) -> Option<usize>
        requires { times_named self.now page.0 ≤ 1 }
        ensures { result ≡ entry_index self.now page.0 }
    {
        if likely < self.len() && self.page(likely).0 == page.0 {
            return Some(likely);
        }
        self.first_index(page)
    }

    /// The holders of the first entry of a page, where there is one.
    pub fn holders(&self, page: Page) -> Option<&[Die]>
        ensures { option_copied result ≡ option_map (λ e. e.holders) (find (λ e. e.page.0 == page.0) self.now) }
    {
        match self.first_index(page) {
            Some(index) => Some(self.holders_at(index)),
            None => None,
        }
    }

    /// Whether the die is a holder in the entry at an index.
    pub fn holds_at(&self, index: usize, die: Die) -> bool
        requires { index < length self.now }
        ensures { IfSome (slice_get self.now index) (λ e. result ≡ is_among e.holders die.0) }
    {
        is_one_of(self.holders_at(index), die)
    }

    /// The first page, in their order, that has no holder or was named before; nothing where all is
    /// well. Takes no memory.
    pub fn unsound(&self) -> Option<Unsound>
        ensures { MatchOption result (AreFine self.now) (λ unsound. IsFirstWrong self.now unsound) }
    {
        for index in 0..self.len() {
            if self.holders_at(index).is_empty() {
                return Some(Unsound::NoHolder(self.page(index)));
            }
            if self.is_named_before(index) {
                return Some(Unsound::Twice(self.page(index)));
            }
        }
        None
    }

    /// Whether there are at most 1,024 pages, each with a holder and none named twice. Takes no memory.
    pub fn is_sound(&self) -> bool
        ensures { IsTrue result ↔ IsSound self.now }
    {
        self.len() <= MAX_PAGES && self.unsound().is_none()
    }

    /// The index of the first entry of a page, where there is one. It takes as many steps as the logarithm
    /// of the number of entries.
    fn first_index(&self, page: Page) -> Option<usize>
        ensures { result ≡ entry_index self.now page.0 }
    {
        match rising_index(&self.entries[..self.rising], page) {
            Some(index) => Some(index),
            None => self.first.get(&page.0).copied(),
        }
    }

    /// Whether an entry before the index has the page of the one at the index.
    fn is_named_before(&self, index: usize) -> bool
        requires { index < length self.now }
        ensures { IfSome (slice_get self.now index)
            (λ e. result ≡ option_map_or (λ earliest. nat_lt earliest index) (entry_index self.now e.page.0) false) }
    {
        if index < self.rising {
            return false;
        }
        match self.first_index(self.page(index)) {
            Some(earliest) => earliest < index,
            None => false,
        }
    }
}

/// Whether the pages of all entries rise and this page is above them, given how many of the first rise.
fn rises(entries: &[HeldPage], rising: usize, page: Page) -> bool
    requires { AreRising (take rising (pages_of entries.now)) }
    ensures { IsTrue result ↔ (rising ≡ length entries.now) × AreRising (pages_of entries.now ++ page.0 ∷ []) }
{
    rising == entries.len() && (rising == 0 || entries[rising - 1].page.0 < page.0)
}

/// The index of a page among entries whose pages rise. It takes as many steps as the logarithm of their
/// number.
fn rising_index(entries: &[HeldPage], page: Page) -> Option<usize>
    requires { AreRising (pages_of entries.now) }
    ensures { result ≡ index_among (pages_of entries.now) page.0 }
{
    entries
        .binary_search_by_key(&page.0, |held| held.page.0)
        .ok()
}

/// The index at which the holders of the entry at an index begin in the list of all holders.
fn begin_of(entries: &[HeldPage], index: usize) -> usize
    requires { index ≤ length entries.now }
    ensures { (d : HeldPage) → result ≡ begin_from 0 entries.now index d }
{
    if index == 0 {
        0
    } else {
        entries[index - 1].end
    }
}

/// Adds an entry with its holders at the ends of both lists. Out of memory, both stay as they were.
fn append<A: Allocator>(
    entries: &mut Vec<HeldPage, A>,
    all: &mut Vec<Die, A>,
    page: Page,
    holders: &[Die],
) -> Result<(), AllocError>
    ensures entries { OnOk result (entries.new.items ≡ entries.old.items ++ record { page = page; end = length all.new.items } ∷ []) }
    ensures holders { OnOk result (all.new.items ≡ all.old.items ++ holders.now) }
    ensures entries_stay { OnErr result (entries.new.items ≡ entries.old.items) }
    ensures holders_stay { OnErr result (all.new.items ≡ all.old.items) }
{
    let count = all.len();
    all.extend_from_slice(holders)?;
    let end = all.len();
    if let Err(_) = entries.push(HeldPage { page, end }) {
        all.truncate(count);
        return Err(AllocError);
    }
    Ok(())
}

/// Whether the die is one of these.
fn is_one_of(dies: &[Die], die: Die) -> bool
    ensures { result ≡ is_among dies.now die.0 }
{
    dies.iter().any(|d| d.0 == die.0)
}
