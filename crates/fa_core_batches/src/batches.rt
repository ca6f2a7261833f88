//! The batches of reads that are open.
ghost use Rattle.std.specs.Prelude.{◌≡◌, ◌↔◌, ℕ, ◌+◌, ◌<◌, ◌==◌, ◌&&◌, ◌++◌, [], ◌∷◌, true, false, IsTrue, IfOk, OnOk, OnErr, Some};
ghost use Rattle.std.specs.Prelude.{None};
ghost use Rattle.std.specs.Prelude.{if◌then◌else◌, is_some, length, map, option_map, replicate};
ghost use Rattle.std.specs.FinMap.{contains_key, empty, insert, len, remove};
ghost use Rattle.std.specs.List.{list_all, list_any};
ghost use Rattle.std.specs.Option.{option_map_or};
ghost use Rattle.fa_core_batches.specs.Counted.{AreCounted};
ghost use Rattle.fa_core_batches.specs.Pages.{is_answered, is_torn, opened, without_die as rule_without};
ghost use Rattle.fa_core_batches.specs.Whole.{IsWhole};
ghost use Rattle.fa_machine.specs.Maps.{is_one_of};
ghost use Rattle.fa_machine.specs.Reading.{answered as answered_of};

use crate::lists::{count_anew, count_change, hand_out, insert_list, push_page, take_list};
use crate::page::{BatchList, BatchPage, Lists, PageState, Pages};
use crate::pages::{insert_page, lose_die, set_answer, set_state};
use crate::pool::Pool;
use fa_machine::BatchId;
use fa_types::{Die, Page};
use std::alloc::{AllocError, Allocator, Global};
use std::collections::HashMap;

/// The batches that are open, by their numbers. A number never comes back. A batch, and a page of one, is found by one look into a table,
/// as a rule. Only [`Batches::begin`], [`Batches::add`], [`Batches::end`] and [`Batches::give_back`] take memory, the last two of them as
/// far as there is some. What a batch had is kept for those to come: where its buffers came back, the next that is no larger takes none,
/// as a rule.
#[derive(Drop)]
pub struct Batches<A: Allocator = Global> {
    page_bytes: usize,
    // The number of the next batch.
    next: u64,
    // By their numbers.
    lists: Lists<A>,
    // By batch and page.
    pages: Pages<A>,
    // Buffers that came back.
    pool: Pool<A>,
    ghost whole: { IsWhole page_bytes next lists.entries pages.entries },
    ghost counted: { AreCounted lists.entries pages.entries },
}

impl<A: Allocator + Copy> Batches<A> {
    ghost use Rattle.fa_core_batches.specs.Batches.{batches_of, bytes_of, next_of, room_of, state_of};

    /// No batches, of pages of so many bytes.
    pub fn new(alloc: A, page_bytes: usize) -> Batches<A>
        ensures batches { batches_of result ≡ empty }
        ensures states { (b p : ℕ) → state_of result b p ≡ None }
        ensures bytes { bytes_of result ≡ page_bytes }
    {
        Batches {
            page_bytes,
            next: 0,
            lists: HashMap::new(alloc),
            pages: HashMap::new(alloc),
            pool: Pool::new(alloc),
        }
    }

    /// A batch of no pages yet, with room for this many. The error is out of memory, which is also answered where no number is
    /// left, and changes nothing.
    pub fn begin(&mut self, alloc: A, pages: usize) -> Result<BatchId, AllocError>
        ensures number { IfOk result (λ batch. (batch.0 ≡ next_of self.old) × (next_of self.new ≡ next_of self.old + 1)) }
        ensures fresh { contains_key (batches_of self.old) (next_of self.old) ≡ false }
        ensures begun { IfOk result (λ batch. batches_of self.new
            ≡ insert (batches_of self.old) batch.0 (record { pages = []; answers = empty })) }
        ensures room { IfOk result (λ batch. room_of self.new batch.0 ≡ pages) }
        ensures states { (b p : ℕ) → state_of self.new b p ≡ state_of self.old b p }
        ensures bytes { bytes_of self.new ≡ bytes_of self.old }
        ensures refused { OnErr result (batches_of self.new ≡ batches_of self.old) }
        ensures refused_number { OnErr result (next_of self.new ≡ next_of self.old) }
    {
        if self.next == u64::MAX {
            return Err(AllocError);
        }
        let list = BatchList {
            pages: self.pool.take_pages(alloc, pages)?,
            answers: self.pool.take_answers(alloc, pages)?,
            room: pages,
            torn: 0,
            unanswered: 0,
        };
        let batch = self.next;
        insert_list(&mut self.lists, batch, list)?;
        self.next = batch + 1;
        Ok(BatchId(batch))
    }

    /// One page more, behind the others: it is answered with zeros, or it is to be read. The error is out of memory, and changes
    /// nothing.
    pub fn add(
        &mut self,
        alloc: A,
        batch: BatchId,
        page: Page,
        answered: bool,
    ) -> Result<(), AllocError>
        requires open { contains_key (batches_of self.old) batch.0 ≡ true }
        requires other { state_of self.old batch.0 page.0 ≡ None }
        requires room { 0 < room_of self.old batch.0 }
        ensures added { OnOk result (batches_of self.new ≡ insert (batches_of self.old) batch.0 (record {
          pages = (opened (batches_of self.old) batch.0).pages ++ page.0 ∷ [];
          answers = if answered then insert (opened (batches_of self.old) batch.0).answers page.0 (replicate (bytes_of self.old) 0)
              else (opened (batches_of self.old) batch.0).answers;
        })) }
        ensures states { OnOk result ((b p : ℕ) → state_of self.new b p
            ≡ (if b == batch.0 && p == page.0 then Some (if answered then PageState.Answered else PageState.Torn)
            else state_of self.old b p)) }
        ensures room { OnOk result (room_of self.new batch.0 + 1 ≡ room_of self.old batch.0) }
        ensures number { next_of self.new ≡ next_of self.old }
        ensures bytes { bytes_of self.new ≡ bytes_of self.old }
        ensures refused { OnErr result (batches_of self.new ≡ batches_of self.old) }
        ensures refused_states { OnErr result ((b p : ℕ) → state_of self.new b p ≡ state_of self.old b p) }
    {
        let buffer = self.pool.take(alloc, self.page_bytes, answered)?;
        let state = if answered {
            PageState::Answered
        } else {
            PageState::Torn
        };
        insert_page(&mut self.pages, batch, page, BatchPage { state, buffer })?;
        push_page(&mut self.lists, batch, page, state);
        Ok(())
    }
}

impl<A: Allocator + Clone> Batches<A> {
    ghost use Rattle.fa_core_batches.specs.Batches.{batches_of, bytes_of, next_of, room_of, state_of};

    /// Whether none is open.
    pub fn is_empty(&self) -> bool
        ensures { IsTrue result ↔ (len (batches_of self.now) ≡ 0) }
    {
        self.lists.is_empty()
    }

    /// Whether the batch is open.
    pub fn is_open(&self, batch: BatchId) -> bool
        ensures { result ≡ contains_key (batches_of self.now) batch.0 }
    {
        self.lists.contains_key(&batch.0)
    }

    /// The pages of an open batch, in the order of its list.
    pub fn pages(&self, batch: BatchId) -> &[Page]
        requires { contains_key (batches_of self.now) batch.0 ≡ true }
        ensures pages { map (λ page. page.0) result.now ≡ (opened (batches_of self.now) batch.0).pages }
        ensures there { (p : ℕ) → is_one_of (opened (batches_of self.now) batch.0).pages p ≡ is_some (state_of self.now batch.0 p) }
        ensures answers { (p : ℕ) → contains_key (opened (batches_of self.now) batch.0).answers p
            ≡ option_map_or is_answered (state_of self.now batch.0 p) false }
        ensures older { batch.0 < next_of self.now }
    {
        match self.lists.get(&batch.0) {
            Some(list) => &list.pages,
            None => &[],
        }
    }

    /// How a page of a batch stands. None where no such batch is open, or where it has no such page.
    pub fn state(&self, batch: BatchId, page: Page) -> Option<PageState>
        ensures state { result ≡ state_of self.now batch.0 page.0 }
        ensures answer { contains_key (opened (batches_of self.now) batch.0).answers page.0
            ≡ option_map_or is_answered (state_of self.now batch.0 page.0) false }
        ensures open { is_some (state_of self.now batch.0 page.0) ≡ true → contains_key (batches_of self.now) batch.0 ≡ true }
    {
        match self.pages.get(&(batch.0, page.0)) {
            Some(entry) => Some(entry.state),
            None => None,
        }
    }

    /// A page of a batch that has no answer stands otherwise from now on.
    pub fn set(&mut self, batch: BatchId, page: Page, state: PageState)
        requires there { is_some (state_of self.old batch.0 page.0) ≡ true }
        requires open { option_map_or is_answered (state_of self.old batch.0 page.0) false ≡ false }
        requires without { is_answered state ≡ false }
        ensures batches { batches_of self.new ≡ batches_of self.old }
        ensures states { (b p : ℕ) → state_of self.new b p
            ≡ (if b == batch.0 && p == page.0 then Some state else state_of self.old b p) }
        ensures number { next_of self.new ≡ next_of self.old }
        ensures bytes { bytes_of self.new ≡ bytes_of self.old }
    {
        let was = set_state(&mut self.pages, batch, page, state);
        count_change(&mut self.lists, batch, was, state);
    }

    /// The buffer has the answer of a page of a batch. It and the page's buffer change places.
    pub fn answer(&mut self, batch: BatchId, page: Page, buffer: &mut Vec<u8, A>)
        requires there { is_some (state_of self.old batch.0 page.0) ≡ true }
        requires whole { length buffer.old.items ≡ bytes_of self.old }
        ensures answered { batches_of self.new ≡ insert (batches_of self.old) batch.0 (record (opened (batches_of self.old) batch.0) {
          answers = insert (opened (batches_of self.old) batch.0).answers page.0 buffer.old.items;
        }) }
        ensures states { (b p : ℕ) → state_of self.new b p
            ≡ (if b == batch.0 && p == page.0 then Some PageState.Answered else state_of self.old b p) }
        ensures number { next_of self.new ≡ next_of self.old }
        ensures bytes { bytes_of self.new ≡ bytes_of self.old }
        ensures buffer { length buffer.new.items ≡ length buffer.old.items }
    {
        let was = set_answer(&mut self.pages, batch, page, buffer);
        count_change(&mut self.lists, batch, was, PageState::Answered);
    }

    /// A die is out: the reads that were booked or in flight there are lost. It takes two looks at each page of each batch or three.
    pub fn drop_die(&mut self, die: Die)
        ensures batches { batches_of self.new ≡ batches_of self.old }
        ensures states { (b p : ℕ) → state_of self.new b p ≡ option_map (rule_without die.0) (state_of self.old b p) }
        ensures number { next_of self.new ≡ next_of self.old }
        ensures bytes { bytes_of self.new ≡ bytes_of self.old }
    {
        lose_die(&mut self.pages, die);
        count_anew(&mut self.lists, &self.pages);
    }

    /// The batch is open no more. Its answers are handed out in the order of its list. The list of its pages is kept for batches to come,
    /// if there is place and memory for it.
    pub fn end(&mut self, batch: BatchId) -> Vec<(Page, Vec<u8, A>), A>
        requires { contains_key (batches_of self.old) batch.0 ≡ true }
        ensures answers { map (λ e. (e.0.0, e.1.items)) result.items ≡ answered_of (opened (batches_of self.old) batch.0) }
        ensures ended { batches_of self.new ≡ remove (batches_of self.old) batch.0 }
        ensures states { (b p : ℕ) → state_of self.new b p ≡ (if b == batch.0 then None else state_of self.old b p) }
        ensures number { next_of self.new ≡ next_of self.old }
        ensures bytes { bytes_of self.new ≡ bytes_of self.old }
    {
        let Some(mut list) = take_list(&mut self.lists, batch) else {
            unreachable!()
        };
        hand_out(&mut self.pages, batch, &list.pages, &mut list.answers);
        self.pool.put_pages(list.pages);
        list.answers
    }

    /// Buffers that [`Batches::end`] handed out come back, and pages that are added get them in place of new ones. So does their list,
    /// which a batch that begins gets. At most 1,024 buffers and 64 lists are kept, and the others are dropped. Which are kept is in no
    /// clause.
    pub fn give_back(&mut self, buffers: Vec<(Page, Vec<u8, A>), A>)
        ensures batches { batches_of self.new ≡ batches_of self.old }
        ensures states { (b p : ℕ) → state_of self.new b p ≡ state_of self.old b p }
        ensures number { next_of self.new ≡ next_of self.old }
        ensures bytes { bytes_of self.new ≡ bytes_of self.old }
        ensures room { (b : ℕ) → room_of self.new b ≡ room_of self.old b }
    {
        self.pool.put(buffers);
    }

    /// Whether a page of the open batch has no answer, and no read that is booked or in flight. It takes no look at a page.
    pub fn has_torn(&self, batch: BatchId) -> bool
        requires { contains_key (batches_of self.now) batch.0 ≡ true }
        ensures { result ≡ list_any (λ page. option_map_or is_torn (state_of self.now batch.0 page) false)
            (opened (batches_of self.now) batch.0).pages }
    {
        match self.lists.get(&batch.0) {
            Some(list) => list.torn != 0,
            None => false,
        }
    }

    /// Whether each page of the open batch has an answer. It takes no look at a page.
    pub fn are_answered(&self, batch: BatchId) -> bool
        requires { contains_key (batches_of self.now) batch.0 ≡ true }
        ensures { result ≡ list_all (λ page. contains_key (opened (batches_of self.now) batch.0).answers page)
            (opened (batches_of self.now) batch.0).pages }
    {
        match self.lists.get(&batch.0) {
            Some(list) => list.unanswered == 0,
            None => true,
        }
    }
}
