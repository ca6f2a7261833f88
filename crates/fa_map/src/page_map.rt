//! The page map in tables.
ghost use Rattle.std.specs.Prelude.{◌≡◌, ℕ, ◌+◌, ◌*◌, ◌-◌, ◌<◌, ◌≤◌, true, if◌then◌else◌, option_map, IfOk, IfSome};
ghost use Rattle.fa_map.specs.Chains.{target};
ghost use Rattle.fa_map.specs.Shown.{IsShown};

use crate::change::{Change, MapShown, note};
use crate::entries::{Entry, Link};
use crate::tables::{Found, Tables};
use crate::tallies::{less_one, state_of};
use fa_ghost::History;
use fa_machine::{Block, Version};
use fa_map_calls::{BlockCounts, Map, SlotState};
use fa_types::{Die, Geometry, Page, Seq, Slot};
use std::alloc::{AllocError, Allocator, Global};

/// The page map of an array. A slot takes 16 bytes and little more than two bits, and a page 32 bytes and little more than two
/// bits: a row for each, where a page's says where its first two copies are and whether it has a third. So one look at its row
/// finds all copies of a page that has two or fewer. No call but [`PageMap::new`] takes memory. `drop_die` takes time for each slot
/// of the die, and `block_erased` for each of the block. An erased slot is found in a look or two at a set of slots, and the
/// stalest block in one at a set of blocks. `copies_of` and `renew` take a step for each copy of the page, `first_copy` and
/// `next_copy` one step, and `next_with` a look or two at a set. The other calls take at most a step for each die and, of each, for
/// each copy of the page on a die below it.
#[derive(Drop)]
pub struct PageMap<A: Allocator = Global> {
    geometry: Geometry,
    /// Which dies are live, by their numbers.
    live: Vec<bool, A>,
    live_dies: u32,
    tables: Tables<A>,
    last_looks: u32,
    history: History<MapShown>,
    ghost sound: { IsShown history.shown geometry live.items live_dies tables.pages.versions tables.slots.entries },
    ghost same: { tables.geometry ≡ geometry },
    ghost few: { last_looks ≤ geometry.blocks + geometry.slots + 1 },
}

impl<A: Allocator + Copy> PageMap<A> {
    ghost use Rattle.fa_map_calls.specs.Changes.{new_map};
    ghost use Rattle.fa_map.specs.PageView.{page_view, looks_of};

    /// A map of dies none of which is live, and of pages none of which was written. The error is out of
    /// memory.
    pub fn new(alloc: A, geometry: Geometry) -> Result<PageMap<A>, AllocError>
        ensures view { IfOk result (λ map. page_view map ≡ new_map geometry) }
        ensures looks { IfOk result (λ map. looks_of map ≡ 0) }
    {
        let live = vec![in alloc; false; geometry.dies as usize]?;
        let tables = Tables::new(alloc, geometry)?;
        Ok(PageMap {
            geometry,
            live,
            live_dies: 0,
            tables,
            last_looks: 0,
            history: History::begin(&geometry),
        })
    }
}

impl<A: Allocator> PageMap<A> {
    ghost use Rattle.fa_machine.specs.Collecting.{move_place};
    ghost use Rattle.fa_machine.specs.State.{is_live};
    ghost use Rattle.fa_map_calls.specs.Changes.{taken, writers_slot};
    ghost use Rattle.std.specs.FinMap.{get};
    ghost use Rattle.fa_map.specs.PageView.{page_view, looks_of};
    ghost use Rattle.fa_map.specs.Shown.{is_number};

    /// How many states, counts and sets of slots the last `take_slot` or `take_slot_outside` read; 0 before the first.
    pub fn last_looks(&self) -> u32
        ensures looks { result ≡ looks_of self.now }
        ensures few { result ≤ (page_view self.now).geometry.blocks + (page_view self.now).geometry.slots + 1 }
    {
        self.last_looks
    }

    /// The slot of the live die is reserved, if there is one.
    fn reserve(&mut self, die: Die, slot: Option<u32>, looks: u32) -> Option<Slot>
        requires die { is_live (page_view self.old) die.0 ≡ true }
        requires slot { IfSome slot (λ slot. slot < (page_view self.old).geometry.blocks * (page_view self.old).geometry.slots) }
        requires looks { looks ≤ (page_view self.old).geometry.blocks + (page_view self.old).geometry.slots + 1 }
        ensures slot { option_map (λ slot. slot.0) result ≡ slot }
        ensures taken { page_view self.new ≡ taken die.0 slot (page_view self.old) }
    {
        self.last_looks = looks;
        match slot {
            None => None,
            Some(slot) => {
                let slot = Slot(slot);
                self.tables.put(die, slot, Entry::Reserved);
                note(&mut self.history, Change::Take { die, slot });
                Some(slot)
            }
        }
    }

    /// The slot that a writer takes on the die, and how many entries and counts were read.
    fn found_for_writers(&self, die: Die) -> Found
        requires { die.0 < (page_view self.now).geometry.dies }
        ensures slot { result.slot ≡ writers_slot (page_view self.now) die.0 }
        ensures looks { result.looks ≤ (page_view self.now).geometry.blocks + (page_view self.now).geometry.slots + 1 }
    {
        if self.room(die) == 0 {
            return Found {
                slot: None,
                looks: 1,
            };
        }
        let found = self.tables.lowest_erased(die, None);
        Found {
            slot: found.slot,
            looks: found.looks + 1,
        }
    }

    /// The lowest erased slot of the die outside the block, and how many entries and counts were read.
    fn found_outside(&self, die: Die, block: Block) -> Found
        requires { die.0 < (page_view self.now).geometry.dies }
        ensures slot { result.slot ≡ move_place (page_view self.now) die.0 block.0 }
        ensures looks { result.looks ≤ (page_view self.now).geometry.blocks + (page_view self.now).geometry.slots + 1 }
    {
        self.tables.lowest_erased(die, Some(block.0))
    }

    /// Whether this write is the page's last.
    fn is_last(&self, page: Page, version: Version) -> bool
        requires { page.0 < (page_view self.now).geometry.pages }
        ensures { result ≡ is_number version (get (page_view self.now).versions page.0) }
    {
        match self.tables.version(page.0 as u32) {
            Some(last) => last.seq.0 == version.seq.0,
            None => false,
        }
    }
}

/// The copy that a link leads to.
fn copy_at(link: Link) -> Option<(Die, Slot)>
    ensures { option_map (λ copy. (copy.0.0, copy.1.0)) result ≡ target link }
{
    match link.die {
        Some(die) => Some((Die(die), Slot(link.slot))),
        None => None,
    }
}

/// The slot that was found.
fn slot_of(found: Found) -> Option<Slot>
    ensures { option_map (λ slot. slot.0) result ≡ found.slot }
{
    match found.slot {
        Some(slot) => Some(Slot(slot)),
        None => None,
    }
}

impl<A: Allocator> Map for PageMap<A> {
    ghost use Rattle.fa_map.specs.PageView.{page_view};

    ghost view = { page_view };

    ghost whole = { λ map. map.sound.plain.whole };

    fn geometry(&self) -> Geometry {
        self.geometry
    }

    fn is_live(&self, die: Die) -> bool {
        let index = die.0 as usize;
        index < self.live.len() && self.live[index]
    }

    fn live_dies(&self) -> u32 {
        self.live_dies
    }

    fn version(&self, page: Page) -> Option<Version> {
        self.tables.version(page.0 as u32)
    }

    fn seq(&self, page: Page) -> Option<Seq> {
        match self.tables.version(page.0 as u32) {
            Some(version) => Some(version.seq),
            None => None,
        }
    }

    fn copy_on(&self, page: Page, die: Die) -> Option<Slot> {
        match self.tables.copy_on(page.0 as u32, die.0) {
            Some(slot) => Some(Slot(slot)),
            None => None,
        }
    }

    fn copies_of(&self, page: Page) -> u32 {
        self.tables.copies_of(page.0 as u32)
    }

    fn first_copy(&self, page: Page) -> Option<(Die, Slot)> {
        copy_at(self.tables.first(page.0 as u32))
    }

    fn next_copy(&self, page: Page, die: Die, slot: Slot) -> Option<(Die, Slot)> {
        copy_at(self.tables.next(page.0 as u32, die, slot))
    }

    fn next_with(&self, count: u32, from: Page) -> Option<Page> {
        match self.tables.next_with(count, from.0 as usize) {
            Some(page) => Some(Page(page as u64)),
            None => None,
        }
    }

    fn state(&self, die: Die, slot: Slot) -> SlotState {
        state_of(self.tables.entry(die, slot))
    }

    fn copy_in(&self, die: Die, slot: Slot) -> Option<(Page, Version)> {
        match self.tables.entry(die, slot) {
            Entry::Current { page } => match self.tables.version(page) {
                Some(version) => Some((Page(page as u64), version)),
                None => None,
            },
            _ => None,
        }
    }

    fn counts(&self, die: Die, block: Block) -> BlockCounts {
        self.tables.counts(die, block.0)
    }

    fn free(&self, die: Die) -> u32 {
        self.tables.erased(die)
    }

    fn room(&self, die: Die) -> u32 {
        self.free(die).saturating_sub(self.geometry.slots)
    }

    fn writers_slot(&self, die: Die) -> Option<Slot> {
        slot_of(self.found_for_writers(die))
    }

    fn slot_for_move(&self, die: Die, block: Block) -> Option<Slot> {
        slot_of(self.found_outside(die, block))
    }

    fn stalest_block(&self, die: Die) -> Option<Block> {
        match self.tables.stalest(die) {
            Some(block) => Some(Block(block)),
            None => None,
        }
    }

    fn reserve_slot(&mut self, die: Die, slot: Slot) {
        self.tables.put(die, slot, Entry::Reserved);
        note(&mut self.history, Change::Take { die, slot });
    }

    fn take_slot(&mut self, die: Die) -> Option<Slot> {
        let found = self.found_for_writers(die);
        self.reserve(die, found.slot, found.looks)
    }

    fn take_slot_outside(&mut self, die: Die, block: Block) -> Option<Slot> {
        let found = self.found_outside(die, block);
        self.reserve(die, found.slot, found.looks)
    }

    fn make_current(&mut self, page: Page, version: Version, die: Die, slot: Slot) {
        let number = page.0 as u32;
        let is_last = self.is_last(page, version);
        self.tables.renew(number, is_last);
        self.tables.add_copy(number, die, slot);
        self.tables.set_version(number, version);
        note(
            &mut self.history,
            Change::MakeCurrent {
                page,
                version,
                die,
                slot,
            },
        );
    }

    fn renew(&mut self, page: Page, version: Version) {
        let number = page.0 as u32;
        self.tables.retire(number);
        self.tables.set_version(number, version);
        note(&mut self.history, Change::Renew { page, version });
    }

    fn hold(&mut self, page: Page, version: Version, die: Die, slot: Slot) {
        self.tables.add_copy(page.0 as u32, die, slot);
        note(
            &mut self.history,
            Change::Hold {
                page,
                version,
                die,
                slot,
            },
        );
    }

    fn make_stale(&mut self, die: Die, slot: Slot) {
        self.tables.put(die, slot, Entry::Stale);
        note(&mut self.history, Change::MakeStale { die, slot });
    }

    fn bring_in(&mut self, die: Die) {
        self.live[die.0 as usize] = true;
        self.live_dies += 1;
        note(&mut self.history, Change::BringIn { die });
    }

    fn drop_die(&mut self, die: Die) {
        let index = die.0 as usize;
        self.live_dies = less_one(self.live_dies, self.live[index]);
        self.live[index] = false;
        self.tables.erase_die(die);
        note(&mut self.history, Change::DropDie { die });
    }

    fn block_erased(&mut self, die: Die, block: Block) {
        self.tables.erase_block(die, block.0);
        note(&mut self.history, Change::EraseBlock { die, block });
    }
}
