//! What is kept of each slot and of each page, in one row for each, so that one look in memory finds all of it.
ghost use Rattle.std.specs.Prelude.{◌≡◌, ◌<◌, None, Some, length, slice_index_or, slice_set, replicate, IfOk};
ghost use Rattle.fa_map.specs.Chains.{no_link, no_second, second_at};
ghost use Rattle.fa_map.specs.declared.entries.Entry.TheVariants.{Erased};

use crate::entries::{Entry, Link, NO_LINK, NO_SECOND, Second};
use fa_ghost::History;
use fa_machine::Version;
use fa_types::{Kind, Seq};
use std::alloc::{AllocError, Allocator, Global};
use std::marker::Model;

/// What is kept of a slot.
#[derive(Clone, Copy)]
struct SlotRow {
    entry: Entry,
    /// Where the next copy of the page is, if the slot holds a copy of a page with more than two. It means nothing elsewhere.
    link: Link,
}

/// What is kept of a page.
#[derive(Clone, Copy)]
struct PageRow {
    /// The number of the page's last write. It means nothing where the page was never written.
    seq: Seq,
    /// What that write made of the page; none where the page was never written.
    kind: Option<Kind>,
    /// Where its first copy is.
    first: Link,
    /// Where its second copy is, and whether it has a third.
    second: Second,
}

const _: () = prove!(size_of::<SlotRow>() <= 16);

const _: () = prove!(size_of::<PageRow>() <= 32);

/// A row for each slot, die by die. Clauses see a link of each slot, which takes no memory. The link that is written in the
/// slot's row may be another one: the caller says which links are written.
#[derive(Drop)]
pub struct SlotRows<A: Allocator = Global> {
    rows: Vec<SlotRow, A>,
    told: History<LinkList>,
}

/// A row for each page.
#[derive(Drop)]
pub struct PageRows<A: Allocator = Global> {
    rows: Vec<PageRow, A>,
}

/// That the slot at an index has a link.
#[derive(Clone, Copy)]
struct LinkSet {
    index: usize,
    link: Link,
}

/// Links, for a history that shows them. No value of it is made.
struct LinkList {}

impl Model for LinkList {
    ghost use Rattle.std.specs.Prelude.{List, []};
    ghost use Rattle.fa_map.specs.declared.entries.Link.{Link};

    ghost Value = { List Link };

    ghost view = { λ _. [] };
}

impl<A: Allocator> Model for SlotRows<A> {
    ghost use Rattle.std.specs.Prelude.{◌≡◌, length, map};
    ghost use Rattle.fa_map.specs.Rows.{SlotLists};

    ghost Value = { SlotLists };

    ghost view = { λ slots. record {
      entries = map (λ row. row.entry) slots.rows.items;
      links = slots.told.shown;
      written = map (λ row. row.link) slots.rows.items;
    } };

    ghost invariant = { λ slots. length slots.told.shown ≡ length slots.rows.items };
}

impl<A: Allocator> Model for PageRows<A> {
    ghost use Rattle.std.specs.Prelude.{map};
    ghost use Rattle.fa_map.specs.Rows.{PageLists, last_write};

    ghost Value = { PageLists };

    ghost view = { λ pages. record {
      versions = map (λ row. last_write row.seq row.kind) pages.rows.items;
      heads = map (λ row. row.first) pages.rows.items;
      seconds = map (λ row. row.second) pages.rows.items;
    } };
}

impl<A: Allocator + Copy> SlotRows<A> {
    /// Rows of slots that are erased and lead to no copy. The error is out of memory.
    pub fn new(alloc: A, count: usize) -> Result<SlotRows<A>, AllocError>
        ensures entries { IfOk result (λ slots. slots.entries ≡ replicate count Erased) }
        ensures links { IfOk result (λ slots. slots.links ≡ replicate count no_link) }
        ensures written { IfOk result (λ slots. slots.written ≡ replicate count no_link) }
    {
        let rows = vec![in alloc; SlotRow {
            entry: Entry::Erased,
            link: NO_LINK
        }; count]?;
        let told = History::begin(&count);
        Ok(SlotRows { rows, told })
    }
}

impl<A: Allocator> SlotRows<A> {
    /// The entry of the slot at this index.
    pub fn entry(&self, index: usize) -> Entry
        requires { index < length self.now.entries }
        ensures { result ≡ slice_index_or self.now.entries index Erased }
    {
        self.rows[index].entry
    }

    /// The link that is written in the row of the slot at this index.
    pub fn link(&self, index: usize) -> Link
        requires { index < length self.now.links }
        ensures { result ≡ slice_index_or self.now.written index no_link }
    {
        self.rows[index].link
    }

    /// The slot at this index has this entry.
    pub fn set_entry(&mut self, index: usize, entry: Entry)
        requires { index < length self.old.entries }
        ensures entries { self.new.entries ≡ slice_set self.old.entries index entry }
        ensures links { self.new.links ≡ self.old.links }
        ensures written { self.new.written ≡ self.old.written }
    {
        self.rows[index].entry = entry;
    }

    /// The slot at this index has this link, which is written in its row.
    pub fn set_link(&mut self, index: usize, link: Link)
        requires { index < length self.old.links }
        ensures entries { self.new.entries ≡ self.old.entries }
        ensures links { self.new.links ≡ slice_set self.old.links index link }
        ensures written { self.new.written ≡ slice_set self.old.written index link }
    {
        self.tell_link(index, link);
        self.write_link(index, link);
    }

    /// The slot at this index has this link. Only clauses see it: nothing happens at run time.
    pub fn tell_link(&mut self, index: usize, link: Link)
        requires { index < length self.old.links }
        ensures entries { self.new.entries ≡ self.old.entries }
        ensures links { self.new.links ≡ slice_set self.old.links index link }
        ensures written { self.new.written ≡ self.old.written }
    {
        self.told.note(&LinkSet { index, link });
    }

    /// This link is written in the row of the slot at this index. The slot's link is what it was.
    pub fn write_link(&mut self, index: usize, link: Link)
        requires { index < length self.old.links }
        ensures entries { self.new.entries ≡ self.old.entries }
        ensures links { self.new.links ≡ self.old.links }
        ensures written { self.new.written ≡ slice_set self.old.written index link }
    {
        self.rows[index].link = link;
    }
}

impl<A: Allocator + Copy> PageRows<A> {
    /// Rows of pages that were never written and have no copy. The error is out of memory.
    pub fn new(alloc: A, count: usize) -> Result<PageRows<A>, AllocError>
        ensures versions { IfOk result (λ pages. pages.versions ≡ replicate count None) }
        ensures heads { IfOk result (λ pages. pages.heads ≡ replicate count no_link) }
        ensures seconds { IfOk result (λ pages. pages.seconds ≡ replicate count no_second) }
    {
        let rows = vec![in alloc; PageRow {
            seq: Seq(0),
            kind: None,
            first: NO_LINK,
            second: NO_SECOND
        }; count]?;
        Ok(PageRows { rows })
    }
}

impl<A: Allocator> PageRows<A> {
    /// The last write of the page.
    pub fn version(&self, page: usize) -> Option<Version>
        requires { page < length self.now.versions }
        ensures { result ≡ slice_index_or self.now.versions page None }
    {
        let row = &self.rows[page];
        match row.kind {
            None => None,
            Some(kind) => Some(Version { seq: row.seq, kind }),
        }
    }

    /// Where the page's first copy is.
    pub fn head(&self, page: usize) -> Link
        requires { page < length self.now.heads }
        ensures { result ≡ slice_index_or self.now.heads page no_link }
    {
        self.rows[page].first
    }

    /// What is kept of the page's second copy.
    pub fn second(&self, page: usize) -> Second
        requires { page < length self.now.seconds }
        ensures { result ≡ second_at self.now.seconds page }
    {
        self.rows[page].second
    }

    /// This is the page's last write.
    pub fn set_version(&mut self, page: usize, version: Version)
        requires { page < length self.old.versions }
        ensures versions { self.new.versions ≡ slice_set self.old.versions page (Some version) }
        ensures heads { self.new.heads ≡ self.old.heads }
        ensures seconds { self.new.seconds ≡ self.old.seconds }
    {
        let row = &mut self.rows[page];
        row.seq = version.seq;
        row.kind = Some(version.kind);
    }

    /// The page's first copy is there.
    pub fn set_head(&mut self, page: usize, head: Link)
        requires { page < length self.old.heads }
        ensures versions { self.new.versions ≡ self.old.versions }
        ensures heads { self.new.heads ≡ slice_set self.old.heads page head }
        ensures seconds { self.new.seconds ≡ self.old.seconds }
    {
        self.rows[page].first = head;
    }

    /// This is kept of the page's second copy.
    pub fn set_second(&mut self, page: usize, second: Second)
        requires { page < length self.old.seconds }
        ensures versions { self.new.versions ≡ self.old.versions }
        ensures heads { self.new.heads ≡ self.old.heads }
        ensures seconds { self.new.seconds ≡ slice_set self.old.seconds page second }
    {
        self.rows[page].second = second;
    }
}
