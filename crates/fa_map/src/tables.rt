//! The tables of a page map: the entry of each slot, the counts of each block, and the chains of copies.
ghost use Rattle.std.specs.Prelude.{◌≡◌, ℕ, ◌+◌, ◌*◌, ◌/◌, ◌-◌, ◌^◌, ◌<◌, ◌≤◌, ◌==◌, ◌&&◌, true, false, nat_lt, if◌then◌else◌, length};
ghost use Rattle.std.specs.Prelude.{slice_set, replicate, find, min, IfOk, None, Some};
ghost use Rattle.fa_map.specs.Chains.{AreInside, AreSeconds, AreWritten, IsInside, IsNext, IsSeam, entry_at, entry_of, follower};
ghost use Rattle.fa_map.specs.Chains.{link_from, target};
ghost use Rattle.fa_map.specs.Entries.{AreTables, AreTallied, copies_in, count_of, erased_entry, is_current_entry, is_erased_entry};
ghost use Rattle.fa_map.specs.Entries.{may_take, one_if, retired};
ghost use Rattle.fa_map.specs.Few.{IsCounted, IsCounted-prop};
ghost use Rattle.fa_map_calls.specs.Blocks.{IsGreatest};
ghost use Rattle.fa_map.specs.Found.{IsFound, IsFound-prop};
ghost use Rattle.fa_map_calls.specs.Plain.{die_slots};
ghost use Rattle.fa_map.specs.Shown.{version_at};
ghost use Rattle.std.specs.List.{range_with_len};
ghost use Rattle.fa_machine.specs.Maps.{below};

use crate::entries::{Entry, Link, NO_LINK};
use crate::few_copies::FewCopies;
use crate::finder::Finder;
use crate::links::{index_of, leads_to, relink};
use crate::rows::{PageRows, SlotRows};
use crate::tallies::{is_erased, moved, state_of};
use fa_machine::Version;
use fa_map_calls::BlockCounts;
use fa_types::{Die, Geometry, Slot};
use std::alloc::{AllocError, Allocator, Global};

/// The entries of all slots with their counts, and for each page its last write and the chain of its copies by rising die.
#[derive(Drop)]
pub struct Tables<A: Allocator = Global> {
    geometry: Geometry,
    /// The entry of each slot, die by die, and where the next copy of its page is, if it holds a copy of a page with more than two.
    slots: SlotRows<A>,
    /// For each page its last write, where its first two copies are, and whether it has a third.
    pages: PageRows<A>,
    /// The counts of each block, die by die.
    counts: Vec<BlockCounts, A>,
    /// How many slots of each die are erased.
    erased: Vec<u32, A>,
    /// The pages with one copy and those with two.
    few: FewCopies<A>,
    /// The erased slots, and the blocks that may be emptied.
    finder: Finder<A>,
    ghost sound: { AreTables geometry slots.entries slots.links pages.heads counts.items erased.items },
    ghost inside: { AreInside geometry.dies (die_slots geometry) slots.links },
    ghost seconds: { AreSeconds slots.links pages.heads pages.seconds (die_slots geometry) geometry.pages },
    ghost written: { AreWritten slots.entries slots.links slots.written pages.seconds (die_slots geometry) },
    ghost counted: { IsCounted geometry slots.entries few } by { IsCounted-prop geometry slots.entries few },
    ghost found: { IsFound geometry slots.entries counts.items finder } by { IsFound-prop geometry slots.entries counts.items finder },
}

/// Where a die's copy of a page belongs in the page's chain.
#[derive(Clone, Copy)]
pub struct Seam {
    /// The last copy on a die below; none where there is none.
    pub last: Link,
    /// The first copy on the die or one above; none where there is none.
    pub next: Link,
}

/// A slot that was looked for, and what that took.
#[derive(Clone, Copy)]
pub struct Found {
    /// The slot; none where there is none.
    pub slot: Option<u32>,
    /// How many slots and counts were looked at.
    pub looks: u32,
}

/// One copy more or less leaves a page with more than two, where it has this many.
const MANY: u32 = 4;

/// A count after it lost one, gained one, or both.
fn shifted(count: u32, loses: bool, gains: bool) -> u32
    requires some { loses ≡ true → 0 < count }
    requires few { count + 1 < 2 ^ 32 }
    ensures { result + one_if loses ≡ count + one_if gains }
{
    let kept = if loses { count - 1 } else { count };
    if gains { kept + 1 } else { kept }
}

/// The entry of a slot is written, and the counts and the sets follow. The caller knows the old entry: no row is read.
fn write_entry<A: Allocator>(
    geometry: Geometry,
    slots: &mut SlotRows<A>,
    counts: &mut [BlockCounts],
    erased: &mut [u32],
    finder: &mut Finder<A>,
    die: Die,
    slot: Slot,
    old: Entry,
    entry: Entry,
)
    requires die { die.0 < geometry.dies }
    requires slot { slot.0 < die_slots geometry }
    requires old { old ≡ entry_of slots.old.entries (die_slots geometry) die.0 slot.0 }
    requires tallied { AreTallied geometry slots.old.entries counts.old erased.old }
    requires found { IsFound geometry slots.old.entries counts.old finder.old }
    ensures entries { slots.new.entries ≡ slice_set slots.old.entries (die.0 * die_slots geometry + slot.0) entry }
    ensures links { slots.new.links ≡ slots.old.links }
    ensures written { slots.new.written ≡ slots.old.written }
    ensures tallied { AreTallied geometry slots.new.entries counts.new erased.new }
    ensures found { IsFound geometry slots.new.entries counts.new finder.new }
{
    let index = index_of(geometry, die, slot);
    let number = slot.0 / geometry.slots;
    let block = die.0 as usize * geometry.blocks as usize + number as usize;
    let before = counts[block];
    let after = moved(before, state_of(old), state_of(entry));
    counts[block] = after;
    let from = is_erased(old);
    let to = is_erased(entry);
    let at = die.0 as usize;
    erased[at] = shifted(erased[at], from, to);
    slots.set_entry(index, entry);
    finder.put_slot(index, from, to);
    finder.put_block(geometry, die, number, before, after);
}

impl<A: Allocator + Copy> Tables<A> {
    ghost use Rattle.fa_map.specs.declared.entries.Entry.TheVariants.{Erased};

    /// The tables of slots that are all erased, and of pages with no copy. The error is out of memory.
    pub fn new(alloc: A, geometry: Geometry) -> Result<Tables<A>, AllocError>
        ensures geometry { IfOk result (λ tables. tables.geometry ≡ geometry) }
        ensures entries { IfOk result (λ tables. (k : ℕ) → entry_at tables.slots.entries k ≡ Erased) }
        ensures versions { IfOk result (λ tables. tables.pages.versions ≡ replicate geometry.pages None) }
    {
        let dies = geometry.dies as usize;
        let blocks = dies * geometry.blocks as usize;
        let size = (geometry.blocks * geometry.slots) as usize;
        let slots = SlotRows::new(alloc, dies * size)?;
        let pages = PageRows::new(alloc, geometry.pages as usize)?;
        let counts = vec![in alloc; BlockCounts {
            erased: geometry.slots,
            reserved: 0,
            current: 0,
            stale: 0
        }; blocks]?;
        let erased = vec![in alloc; geometry.blocks * geometry.slots; dies]?;
        let few = FewCopies::new(alloc, geometry.pages as usize)?;
        let finder = Finder::new(alloc, geometry)?;
        Ok(Tables {
            geometry,
            slots,
            pages,
            counts,
            erased,
            few,
            finder,
        })
    }
}

impl<A: Allocator> Tables<A> {
    ghost use Rattle.fa_map.specs.Entries.{entries_in};
    ghost use Rattle.fa_map.specs.declared.entries.Entry.TheVariants.{Current, Erased, Stale};
    ghost use Rattle.fa_map_calls.specs.declared.slots.SlotState.{SlotState};

    /// The entry of a slot.
    pub fn entry(&self, die: Die, slot: Slot) -> Entry
        requires die { die.0 < self.now.geometry.dies }
        requires slot { slot.0 < die_slots self.now.geometry }
        ensures { result ≡ entry_of self.now.slots.entries (die_slots self.now.geometry) die.0 slot.0 }
    {
        self.slots.entry(index_of(self.geometry, die, slot))
    }

    /// How many slots of the block are in each state.
    pub fn counts(&self, die: Die, block: u32) -> BlockCounts
        requires die { die.0 < self.now.geometry.dies }
        requires block { block < self.now.geometry.blocks }
        ensures { (state : SlotState) → count_of state result ≡ entries_in self.now.slots.entries (die_slots self.now.geometry) die.0
            (block * self.now.geometry.slots) self.now.geometry.slots state }
    {
        self.counts[die.0 as usize * self.geometry.blocks as usize + block as usize]
    }

    /// How many slots of the die are erased.
    pub fn erased(&self, die: Die) -> u32
        requires { die.0 < self.now.geometry.dies }
        ensures { result ≡ entries_in self.now.slots.entries (die_slots self.now.geometry) die.0 0
            (die_slots self.now.geometry) SlotState.Erased }
    {
        self.erased[die.0 as usize]
    }

    /// Where a die's copy of the page belongs in the page's chain. It takes a step for each copy on a die below.
    pub fn seam(&self, page: u32, die: u8) -> Seam
        requires { page < self.now.geometry.pages }
        ensures { IsSeam (entry_of self.now.slots.entries (die_slots self.now.geometry)) (die_slots self.now.geometry)
            self.now.geometry.dies page die (target result.last) (target result.next) }
    {
        let mut last = NO_LINK;
        let mut next = self.first(page);
        while let Some(other) = next.die {
            if other >= die {
                break;
            }
            last = next;
            next = self.next(page, Die(other), Slot(last.slot));
        }
        Seam { last, next }
    }

    /// The slot of the die that holds the page. It takes a step for each copy on a die below.
    pub fn copy_on(&self, page: u32, die: u8) -> Option<u32>
        requires { page < self.now.geometry.pages }
        ensures some { (slot : ℕ) → result ≡ Some slot → (slot < die_slots self.now.geometry)
            × (entry_of self.now.slots.entries (die_slots self.now.geometry) die slot ≡ Current page) }
        ensures none { result ≡ None → (slot : ℕ) → slot < die_slots self.now.geometry
            → entry_of self.now.slots.entries (die_slots self.now.geometry) die slot ≡ Current page → ⊥ }
    {
        let next = self.seam(page, die).next;
        match next.die {
            Some(other) => { if other == die { Some(next.slot) } else { None } }
            None => None,
        }
    }

    /// How many dies hold the page. It takes a step for each of them.
    pub fn copies_of(&self, page: u32) -> u32
        requires { page < self.now.geometry.pages }
        ensures { result ≡ copies_in self.now.slots.entries self.now.geometry page }
    {
        self.copies_up_to(page, self.geometry.dies)
    }

    /// How many dies hold the page, or the limit where that is less. It takes a step for each that is counted.
    fn copies_up_to(&self, page: u32, limit: u32) -> u32
        requires { page < self.now.geometry.pages }
        ensures { result ≡ min limit (copies_in self.now.slots.entries self.now.geometry page) }
    {
        let mut copies = 0;
        let mut next = self.first(page);
        while let Some(die) = next.die {
            if copies == limit {
                return copies;
            }
            copies += 1;
            next = self.next(page, Die(die), Slot(next.slot));
        }
        copies
    }

    /// The first copy of the page.
    pub fn first(&self, page: u32) -> Link
        requires { page < self.now.geometry.pages }
        ensures { IsNext (entry_of self.now.slots.entries (die_slots self.now.geometry)) (die_slots self.now.geometry)
            self.now.geometry.dies page 0 (target result) }
    {
        self.pages.head(page as usize)
    }

    /// The lowest page from one on that this many dies hold, 1 or 2. It takes two looks at a set at most.
    pub fn next_with(&self, count: u32, from: usize) -> Option<usize>
        requires { (1 ≤ count) × (count ≤ 2) }
        ensures { result ≡ find (λ page. copies_in self.now.slots.entries self.now.geometry page == count)
            (range_with_len from (self.now.geometry.pages - from)) }
    {
        self.few.lowest_from(count, from)
    }

    /// Where the copy is that comes next in the page's chain behind the slot, which holds the page. The page's own row says it
    /// where the page has at most two copies, and the slot's row where it has more.
    pub fn next(&self, page: u32, die: Die, slot: Slot) -> Link
        requires page { page < self.now.geometry.pages }
        requires die { die.0 < self.now.geometry.dies }
        requires slot { slot.0 < die_slots self.now.geometry }
        requires holds { entry_of self.now.slots.entries (die_slots self.now.geometry) die.0 slot.0 ≡ Current page }
        ensures link { target result ≡ link_from self.now.slots.links (die_slots self.now.geometry) die.0 slot.0 }
        ensures next { entry_of self.now.slots.entries (die_slots self.now.geometry) die.0 slot.0 ≡ Current page
            → IsNext (entry_of self.now.slots.entries (die_slots self.now.geometry)) (die_slots self.now.geometry)
            self.now.geometry.dies page (die.0 + 1) (target result) }
    {
        let second = self.pages.second(page as usize);
        if leads_to(self.pages.head(page as usize), die, slot) {
            return second.place;
        }
        if second.more {
            return self.slots.link(index_of(self.geometry, die, slot));
        }
        NO_LINK
    }

    /// Where the copy behind a place of the page's chain is; none behind none. It is found as `next` finds it.
    fn next_of(&self, page: u32, place: Link) -> Link
        requires page { page < self.now.geometry.pages }
        requires place { IsInside self.now.geometry.dies (die_slots self.now.geometry) (target place) }
        requires holds { (die slot : ℕ) → target place ≡ Some (die, slot)
            → entry_of self.now.slots.entries (die_slots self.now.geometry) die slot ≡ Current page }
        ensures { target result ≡ follower self.now.slots.links (die_slots self.now.geometry) (target place) }
    {
        match place.die {
            None => NO_LINK,
            Some(die) => self.next(page, Die(die), Slot(place.slot)),
        }
    }

    /// The last write of the page; none where it was never written.
    pub fn version(&self, page: u32) -> Option<Version>
        requires { page < length self.now.pages.versions }
        ensures { result ≡ version_at self.now.pages.versions page }
    {
        self.pages.version(page as usize)
    }

    /// This is the page's last write.
    pub fn set_version(&mut self, page: u32, version: Version)
        requires { page < length self.old.pages.versions }
        ensures geometry { self.new.geometry ≡ self.old.geometry }
        ensures versions { self.new.pages.versions ≡ slice_set self.old.pages.versions page (Some version) }
        ensures entries { self.new.slots.entries ≡ self.old.slots.entries }
    {
        self.pages.set_version(page as usize, version);
    }

    /// The slot that does not hold a copy, and will hold none, has this entry in place of the old one.
    fn set_plain(&mut self, die: Die, slot: Slot, old: Entry, entry: Entry)
        requires die { die.0 < self.old.geometry.dies }
        requires slot { slot.0 < die_slots self.old.geometry }
        requires known { old ≡ entry_of self.old.slots.entries (die_slots self.old.geometry) die.0 slot.0 }
        requires old { is_current_entry (entry_of self.old.slots.entries (die_slots self.old.geometry) die.0 slot.0) ≡ false }
        requires new { is_current_entry entry ≡ false }
        ensures geometry { self.new.geometry ≡ self.old.geometry }
        ensures versions { self.new.pages.versions ≡ self.old.pages.versions }
        ensures entries { self.new.slots.entries
            ≡ slice_set self.old.slots.entries (die.0 * die_slots self.old.geometry + slot.0) entry }
    {
        write_entry(
            self.geometry,
            &mut self.slots,
            &mut self.counts,
            &mut self.erased,
            &mut self.finder,
            die,
            slot,
            old,
            entry,
        );
    }

    /// The slot that holds a copy of the page has this entry, which holds none. Where the page has at most two copies, no other
    /// slot's row is read or written.
    fn remove_copy(&mut self, page: u32, die: Die, slot: Slot, entry: Entry)
        requires die { die.0 < self.old.geometry.dies }
        requires slot { slot.0 < die_slots self.old.geometry }
        requires old { entry_of self.old.slots.entries (die_slots self.old.geometry) die.0 slot.0 ≡ Current page }
        requires new { is_current_entry entry ≡ false }
        ensures geometry { self.new.geometry ≡ self.old.geometry }
        ensures versions { self.new.pages.versions ≡ self.old.pages.versions }
        ensures entries { self.new.slots.entries
            ≡ slice_set self.old.slots.entries (die.0 * die_slots self.old.geometry + slot.0) entry }
    {
        let copies = self.copies_up_to(page, MANY);
        let last = self.seam(page, die.0).last;
        let next = self.next(page, die, slot);
        let following = self.next_of(page, next);
        let is_followed = self.next_of(page, following).die.is_some();
        relink(
            self.geometry,
            &mut self.pages,
            &mut self.slots,
            page,
            last,
            next,
            following,
            is_followed,
        );
        write_entry(
            self.geometry,
            &mut self.slots,
            &mut self.counts,
            &mut self.erased,
            &mut self.finder,
            die,
            slot,
            Entry::Current { page },
            entry,
        );
        self.few.put(page, copies - 1);
    }

    /// The slot, which holds no copy, holds one of the page. No other slot of the die holds the page. Where the page had at most
    /// two copies, no other slot's row is read. Those of its first two are written where this is its third.
    pub fn add_copy(&mut self, page: u32, die: Die, slot: Slot)
        requires page { page < self.old.geometry.pages }
        requires die { die.0 < self.old.geometry.dies }
        requires slot { slot.0 < die_slots self.old.geometry }
        requires free { is_current_entry (entry_of self.old.slots.entries (die_slots self.old.geometry) die.0 slot.0) ≡ false }
        requires once { (other : ℕ) → other < die_slots self.old.geometry
            → entry_of self.old.slots.entries (die_slots self.old.geometry) die.0 other ≡ Current page → ⊥ }
        ensures geometry { self.new.geometry ≡ self.old.geometry }
        ensures versions { self.new.pages.versions ≡ self.old.pages.versions }
        ensures entries { self.new.slots.entries
            ≡ slice_set self.old.slots.entries (die.0 * die_slots self.old.geometry + slot.0) (Current page) }
    {
        let copies = self.copies_up_to(page, MANY);
        let seam = self.seam(page, die.0);
        let is_followed = self.next_of(page, seam.next).die.is_some();
        let old = self.entry(die, slot);
        let index = index_of(self.geometry, die, slot);
        self.slots.set_link(index, seam.next);
        let link = Link {
            die: Some(die.0),
            slot: slot.0,
        };
        relink(
            self.geometry,
            &mut self.pages,
            &mut self.slots,
            page,
            seam.last,
            link,
            seam.next,
            is_followed,
        );
        write_entry(
            self.geometry,
            &mut self.slots,
            &mut self.counts,
            &mut self.erased,
            &mut self.finder,
            die,
            slot,
            old,
            Entry::Current { page },
        );
        self.few.put(page, copies + 1);
    }

    /// The entry of a slot, whose row is not looked at where the set of erased slots has it.
    fn known_entry(&self, die: Die, slot: Slot) -> Entry
        requires die { die.0 < self.now.geometry.dies }
        requires slot { slot.0 < die_slots self.now.geometry }
        ensures { result ≡ entry_of self.now.slots.entries (die_slots self.now.geometry) die.0 slot.0 }
    {
        let index = index_of(self.geometry, die, slot);
        if self.finder.has_slot(index) {
            return Entry::Erased;
        }
        self.slots.entry(index)
    }

    /// The slot has this entry, which holds no copy.
    pub fn put(&mut self, die: Die, slot: Slot, entry: Entry)
        requires die { die.0 < self.old.geometry.dies }
        requires slot { slot.0 < die_slots self.old.geometry }
        requires new { is_current_entry entry ≡ false }
        ensures geometry { self.new.geometry ≡ self.old.geometry }
        ensures versions { self.new.pages.versions ≡ self.old.pages.versions }
        ensures entries { self.new.slots.entries
            ≡ slice_set self.old.slots.entries (die.0 * die_slots self.old.geometry + slot.0) entry }
    {
        let old = self.known_entry(die, slot);
        match old {
            Entry::Current { page } => self.remove_copy(page, die, slot, entry),
            _ => self.set_plain(die, slot, old, entry),
        }
    }

    /// No slot holds a copy of the page: those that did are stale. It takes a step for each of them.
    pub fn retire(&mut self, page: u32)
        requires { page < self.old.geometry.pages }
        ensures geometry { self.new.geometry ≡ self.old.geometry }
        ensures versions { self.new.pages.versions ≡ self.old.pages.versions }
        ensures entries { (die slot : ℕ) → slot < die_slots self.old.geometry
            → entry_of self.new.slots.entries (die_slots self.old.geometry) die slot
            ≡ retired page (entry_of self.old.slots.entries (die_slots self.old.geometry) die slot) }
    {
        let mut next = self.first(page);
        while let Some(die) = next.die {
            self.remove_copy(page, Die(die), Slot(next.slot), Entry::Stale);
            next = self.first(page);
        }
    }

    /// No slot holds a copy of the page, unless its copies are those of its last write.
    pub fn renew(&mut self, page: u32, is_last: bool)
        requires { page < self.old.geometry.pages }
        ensures geometry { self.new.geometry ≡ self.old.geometry }
        ensures versions { self.new.pages.versions ≡ self.old.pages.versions }
        ensures entries { (die slot : ℕ) → die < self.old.geometry.dies → slot < die_slots self.old.geometry
            → entry_of self.new.slots.entries (die_slots self.old.geometry) die slot
            ≡ (if is_last then entry_of self.old.slots.entries (die_slots self.old.geometry) die slot
            else retired page (entry_of self.old.slots.entries (die_slots self.old.geometry) die slot)) }
    {
        if is_last {
            return;
        }
        self.retire(page);
    }

    /// The slots of the die are erased.
    pub fn erase_die(&mut self, die: Die)
        requires { die.0 < self.old.geometry.dies }
        ensures geometry { self.new.geometry ≡ self.old.geometry }
        ensures versions { self.new.pages.versions ≡ self.old.pages.versions }
        ensures entries { (d slot : ℕ) → slot < die_slots self.old.geometry
            → entry_of self.new.slots.entries (die_slots self.old.geometry) d slot
            ≡ (if d == die.0 then Erased else entry_of self.old.slots.entries (die_slots self.old.geometry) d slot) }
    {
        for slot in 0..self.geometry.blocks * self.geometry.slots {
            self.put(die, Slot(slot), Entry::Erased);
        }
    }

    /// The slots of the block are erased, save those that are reserved.
    pub fn erase_block(&mut self, die: Die, block: u32)
        requires die { die.0 < self.old.geometry.dies }
        requires block { block < self.old.geometry.blocks }
        ensures geometry { self.new.geometry ≡ self.old.geometry }
        ensures versions { self.new.pages.versions ≡ self.old.pages.versions }
        ensures entries { (d slot : ℕ) → slot < die_slots self.old.geometry
            → entry_of self.new.slots.entries (die_slots self.old.geometry) d slot
            ≡ (if d == die.0 && slot / self.old.geometry.slots == block
            then erased_entry (entry_of self.old.slots.entries (die_slots self.old.geometry) d slot)
            else entry_of self.old.slots.entries (die_slots self.old.geometry) d slot) }
    {
        let first = block * self.geometry.slots;
        for slot in first..first + self.geometry.slots {
            self.erase_unreserved(die, Slot(slot));
        }
    }

    /// The slot is erased, unless it is reserved.
    fn erase_unreserved(&mut self, die: Die, slot: Slot)
        requires die { die.0 < self.old.geometry.dies }
        requires slot { slot.0 < die_slots self.old.geometry }
        ensures geometry { self.new.geometry ≡ self.old.geometry }
        ensures versions { self.new.pages.versions ≡ self.old.pages.versions }
        ensures entries { self.new.slots.entries ≡ slice_set self.old.slots.entries (die.0 * die_slots self.old.geometry + slot.0)
            (erased_entry (entry_of self.old.slots.entries (die_slots self.old.geometry) die.0 slot.0)) }
    {
        let old = self.entry(die, slot);
        match old {
            Entry::Reserved => self.put(die, slot, Entry::Reserved),
            _ => self.put(die, slot, Entry::Erased),
        }
    }

    /// The lowest erased slot of the die from one on.
    fn erased_from(&self, die: Die, from: u32) -> Option<u32>
        requires die { die.0 < self.now.geometry.dies }
        requires from { from ≤ die_slots self.now.geometry }
        ensures { result ≡ find (λ slot. is_erased_entry (entry_of self.now.slots.entries (die_slots self.now.geometry) die.0 slot))
            (range_with_len from (die_slots self.now.geometry - from)) }
    {
        let size = (self.geometry.blocks * self.geometry.slots) as usize;
        let first = die.0 as usize * size;
        match self.finder.slot_from(first + from as usize) {
            Some(index) if index < first + size => Some((index - first) as u32),
            _ => None,
        }
    }

    /// The lowest erased slot of the die outside a block.
    fn erased_outside(&self, die: Die, block: u32) -> Found
        requires { die.0 < self.now.geometry.dies }
        ensures slot { result.slot
            ≡ find (may_take self.now.slots.entries (die_slots self.now.geometry) self.now.geometry.slots die.0 (Some block))
            (below (die_slots self.now.geometry)) }
        ensures looks { result.looks ≤ 2 }
    {
        match self.erased_from(die, 0) {
            Some(slot) if slot / self.geometry.slots == block => Found {
                slot: self.erased_from(die, (block + 1) * self.geometry.slots),
                looks: 2,
            },
            Some(slot) => Found {
                slot: Some(slot),
                looks: 1,
            },
            None => Found {
                slot: None,
                looks: 1,
            },
        }
    }

    /// The lowest erased slot of the die outside a block, if one is named, and how many were looked at: two at most.
    pub fn lowest_erased(&self, die: Die, outside: Option<u32>) -> Found
        requires { die.0 < self.now.geometry.dies }
        ensures slot { result.slot
            ≡ find (may_take self.now.slots.entries (die_slots self.now.geometry) self.now.geometry.slots die.0 outside)
            (below (die_slots self.now.geometry)) }
        ensures looks { result.looks ≤ 2 }
    {
        match outside {
            None => Found {
                slot: self.erased_from(die, 0),
                looks: 1,
            },
            Some(block) => self.erased_outside(die, block),
        }
    }

    /// The block of the die with most stale slots, of those with a stale slot and none that is reserved; the lowest on ties.
    pub fn stalest(&self, die: Die) -> Option<u32>
        requires { die.0 < self.now.geometry.dies }
        ensures { IsGreatest self.now.geometry.blocks
            (λ b. nat_lt 0 (entries_in self.now.slots.entries (die_slots self.now.geometry) die.0 (b * self.now.geometry.slots)
            self.now.geometry.slots SlotState.Stale)
            && entries_in self.now.slots.entries (die_slots self.now.geometry) die.0 (b * self.now.geometry.slots)
            self.now.geometry.slots SlotState.Reserved == 0)
            (λ b. entries_in self.now.slots.entries (die_slots self.now.geometry) die.0 (b * self.now.geometry.slots)
            self.now.geometry.slots SlotState.Stale) result }
    {
        let blocks = self.geometry.blocks as usize;
        let size = (self.geometry.slots + 1) as usize * blocks;
        let first = die.0 as usize * (self.geometry.slots + 1) as usize * blocks;
        match self.finder.block_from(first) {
            Some(index) if index < first + size => Some(((index - first) % blocks) as u32),
            _ => None,
        }
    }
}
