//! The page map as plain lists, for tests.
ghost use Rattle.std.specs.Prelude.{◌≡◌, ℕ, ◌*◌, ◌-◌, ◌<◌, ◌≤◌, ◌==◌, ◌&&◌, find, true, if◌then◌else◌, option_map, IfOk, IfSome, Some};
ghost use Rattle.fa_map_calls.specs.Plain.{IsPlain, die_slots};

use crate::plain_slots::{
    count_erased, count_states, erase_all, erase_unreserved, find_copy, find_erased,
    find_erased_outside, outdate, retire,
};
use fa_ghost::History;
use fa_machine::{Block, Used, Version};
use fa_map::{Change, MapShown, less_one, note};
use fa_map_calls::{BlockCounts, Map, SlotState};
use fa_types::{Die, Geometry, Page, Seq, Slot};
use std::alloc::{AllocError, Allocator, Global};

/// A page map that keeps the state of each slot in one list, and searches it. It takes as much time as
/// there are slots, and is meant for tests.
#[derive(Drop)]
pub struct PlainMap<A: Allocator = Global> {
    geometry: Geometry,
    /// Which dies are live, by their numbers.
    live: Vec<bool, A>,
    live_dies: u32,
    /// The last write of each page.
    versions: Vec<Option<Version>, A>,
    /// The state of each slot, die by die.
    used: Vec<Option<Used>, A>,
    history: History<MapShown>,
    ghost sound: { IsPlain history.shown geometry live.items live_dies versions.items used.items },
}

impl<A: Allocator + Copy> PlainMap<A> {
    ghost use Rattle.fa_map_calls.specs.Changes.{new_map};
    ghost use Rattle.fa_plain_map.specs.PlainView.{plain_view};

    /// A map of dies none of which is live, and of pages none of which was written. The error is out of
    /// memory.
    pub fn new(alloc: A, geometry: Geometry) -> Result<PlainMap<A>, AllocError>
        ensures { IfOk result (λ map. plain_view map ≡ new_map geometry) }
    {
        let live = vec![in alloc; false; geometry.dies as usize]?;
        let versions = vec![in alloc; None; geometry.pages as usize]?;
        let used = vec![in alloc; None; geometry.dies as usize * slots_of_die(geometry) as usize]?;
        Ok(PlainMap {
            geometry,
            live,
            live_dies: 0,
            versions,
            used,
            history: History::begin(&geometry),
        })
    }
}

impl<A: Allocator> PlainMap<A> {
    ghost use Rattle.fa_machine.specs.Collecting.{count_in, move_place};
    ghost use Rattle.fa_machine.specs.Copies.{copy_on, is_reserved_slot, is_stale_slot};
    ghost use Rattle.fa_machine.specs.Maps.{below};
    ghost use Rattle.fa_machine.specs.State.{is_live};
    ghost use Rattle.fa_map_calls.specs.Changes.{taken, writers_slot};
    ghost use Rattle.fa_map_calls.specs.Slots.{first_holder};
    ghost use Rattle.fa_plain_map.specs.PlainView.{plain_view};

    /// The lowest erased slot of the die, where a writer may take one.
    fn slot_for_writers(&self, die: Die) -> Option<u32>
        requires { die.0 < (plain_view self.now).geometry.dies }
        ensures { result ≡ writers_slot (plain_view self.now) die.0 }
    {
        if self.room(die) == 0 {
            return None;
        }
        let first = first_slot(self.geometry, die);
        find_erased(&self.used, first, slots_of_die(self.geometry))
    }

    /// The lowest erased slot of the die outside the block.
    fn slot_outside(&self, die: Die, block: Block) -> Option<u32>
        requires { die.0 < (plain_view self.now).geometry.dies }
        ensures { result ≡ move_place (plain_view self.now) die.0 block.0 }
    {
        let first = first_slot(self.geometry, die);
        let count = slots_of_die(self.geometry);
        find_erased_outside(&self.used, first, count, self.geometry.slots, block.0)
    }

    /// The first of the page's current copies on a die from one on.
    fn copy_from(&self, page: Page, first: u32) -> Option<(Die, Slot)>
        requires { page.0 < (plain_view self.now).geometry.pages }
        ensures die { option_map (λ copy. copy.0.0) result ≡ first_holder (plain_view self.now) page.0 first }
        ensures slot { IfSome result (λ copy. copy_on (plain_view self.now) page.0 copy.0.0 ≡ Some copy.1.0) }
    {
        for number in first..self.geometry.dies {
            let die = Die(number as u8);
            if let Some(slot) = self.copy_on(page, die) {
                return Some((die, slot));
            }
        }
        None
    }

    /// The lowest block of the die with so many stale slots and no reserved one.
    fn block_with(&self, die: Die, stale: u32) -> Option<u32>
        requires { die.0 < (plain_view self.now).geometry.dies }
        ensures { result ≡ find (λ b. count_in (plain_view self.now) die.0 b is_reserved_slot == 0
            && count_in (plain_view self.now) die.0 b is_stale_slot == stale) (below (plain_view self.now).geometry.blocks) }
    {
        for block in 0..self.geometry.blocks {
            if is_stale_with(self.counts(die, Block(block)), stale) {
                return Some(block);
            }
        }
        None
    }

    /// The slot of the live die is reserved, if there is one.
    fn reserve(&mut self, die: Die, slot: Option<u32>) -> Option<Slot>
        requires die { is_live (plain_view self.old) die.0 ≡ true }
        requires slot { IfSome slot (λ slot. slot < (plain_view self.old).geometry.blocks * (plain_view self.old).geometry.slots) }
        ensures slot { option_map (λ slot. slot.0) result ≡ slot }
        ensures taken { plain_view self.new ≡ taken die.0 slot (plain_view self.old) }
    {
        match slot {
            None => None,
            Some(slot) => {
                self.used[first_slot(self.geometry, die) + slot as usize] = Some(Used::Reserved);
                note(
                    &mut self.history,
                    Change::Take {
                        die,
                        slot: Slot(slot),
                    },
                );
                Some(Slot(slot))
            }
        }
    }
}

/// Whether so many slots are stale and none is reserved.
fn is_stale_with(counts: BlockCounts, stale: u32) -> bool
    ensures { result ≡ (counts.reserved == 0 && counts.stale == stale) }
{
    counts.reserved == 0 && counts.stale == stale
}

/// How many slots a die has.
fn slots_of_die(geometry: Geometry) -> u32
    ensures { result ≡ die_slots geometry }
{
    geometry.blocks * geometry.slots
}

/// Where the slots of a die begin in the list of all slots.
fn first_slot(geometry: Geometry, die: Die) -> usize
    ensures { result ≡ die.0 * die_slots geometry }
{
    die.0 as usize * slots_of_die(geometry) as usize
}

/// The slot of this number.
fn as_slot(number: Option<u32>) -> Option<Slot>
    ensures { option_map (λ slot. slot.0) result ≡ number }
{
    match number {
        Some(slot) => Some(Slot(slot)),
        None => None,
    }
}

impl<A: Allocator> Map for PlainMap<A> {
    ghost use Rattle.fa_plain_map.specs.PlainView.{plain_view};

    ghost view = { plain_view };

    ghost whole = { λ map. map.sound.whole };

    fn geometry(&self) -> Geometry {
        self.geometry
    }

    fn is_live(&self, die: Die) -> bool {
        let index = die.0 as usize;
        index < self.live.len() && self.live[index]
    }

    fn live_dies(&self) -> u32 {
        self.live_dies
    }

    fn version(&self, page: Page) -> Option<Version> {
        self.versions[page.0 as usize]
    }

    fn seq(&self, page: Page) -> Option<Seq> {
        match self.versions[page.0 as usize] {
            Some(version) => Some(version.seq),
            None => None,
        }
    }

    fn copy_on(&self, page: Page, die: Die) -> Option<Slot> {
        let first = first_slot(self.geometry, die);
        match find_copy(&self.used, first, slots_of_die(self.geometry), page) {
            Some(slot) => Some(Slot(slot)),
            None => None,
        }
    }

    fn copies_of(&self, page: Page) -> u32 {
        let mut copies = 0;
        for die in 0..self.geometry.dies {
            if self.copy_on(page, Die(die as u8)).is_some() {
                copies += 1;
            }
        }
        copies
    }

    fn first_copy(&self, page: Page) -> Option<(Die, Slot)> {
        self.copy_from(page, 0)
    }

    fn next_copy(&self, page: Page, die: Die, _slot: Slot) -> Option<(Die, Slot)> {
        self.copy_from(page, die.0 as u32 + 1)
    }

    fn next_with(&self, count: u32, from: Page) -> Option<Page> {
        for number in from.0..self.geometry.pages {
            if self.copies_of(Page(number)) == count {
                return Some(Page(number));
            }
        }
        None
    }

    fn state(&self, die: Die, slot: Slot) -> SlotState {
        match self.used[first_slot(self.geometry, die) + slot.0 as usize] {
            None => SlotState::Erased,
            Some(Used::Reserved) => SlotState::Reserved,
            Some(Used::Held { .. }) => SlotState::Current,
            Some(Used::Stale) => SlotState::Stale,
        }
    }

    fn copy_in(&self, die: Die, slot: Slot) -> Option<(Page, Version)> {
        match self.used[first_slot(self.geometry, die) + slot.0 as usize] {
            Some(Used::Held { page, version }) => Some((page, version)),
            _ => None,
        }
    }

    fn counts(&self, die: Die, block: Block) -> BlockCounts {
        let slots = self.geometry.slots;
        let first = first_slot(self.geometry, die) + block.0 as usize * slots as usize;
        count_states(&self.used, first, slots)
    }

    fn free(&self, die: Die) -> u32 {
        let first = first_slot(self.geometry, die);
        count_erased(&self.used, first, slots_of_die(self.geometry))
    }

    fn room(&self, die: Die) -> u32 {
        self.free(die).saturating_sub(self.geometry.slots)
    }

    fn writers_slot(&self, die: Die) -> Option<Slot> {
        as_slot(self.slot_for_writers(die))
    }

    fn slot_for_move(&self, die: Die, block: Block) -> Option<Slot> {
        as_slot(self.slot_outside(die, block))
    }

    fn stalest_block(&self, die: Die) -> Option<Block> {
        for other in 0..self.geometry.slots {
            if let Some(block) = self.block_with(die, self.geometry.slots - other) {
                return Some(Block(block));
            }
        }
        None
    }

    fn reserve_slot(&mut self, die: Die, slot: Slot) {
        self.used[first_slot(self.geometry, die) + slot.0 as usize] = Some(Used::Reserved);
        note(&mut self.history, Change::Take { die, slot });
    }

    fn take_slot(&mut self, die: Die) -> Option<Slot> {
        let slot = self.slot_for_writers(die);
        self.reserve(die, slot)
    }

    fn take_slot_outside(&mut self, die: Die, block: Block) -> Option<Slot> {
        let slot = self.slot_outside(die, block);
        self.reserve(die, slot)
    }

    fn make_current(&mut self, page: Page, version: Version, die: Die, slot: Slot) {
        outdate(&mut self.used, page, version);
        self.used[first_slot(self.geometry, die) + slot.0 as usize] = Some(Used::Held {
            page,
            version,
        });
        self.versions[page.0 as usize] = Some(version);
        note(
            &mut self.history,
            Change::MakeCurrent {
                page,
                version,
                die,
                slot,
            },
        );
    }

    fn renew(&mut self, page: Page, version: Version) {
        retire(&mut self.used, page);
        self.versions[page.0 as usize] = Some(version);
        note(&mut self.history, Change::Renew { page, version });
    }

    fn hold(&mut self, page: Page, version: Version, die: Die, slot: Slot) {
        self.used[first_slot(self.geometry, die) + slot.0 as usize] = Some(Used::Held {
            page,
            version,
        });
        note(
            &mut self.history,
            Change::Hold {
                page,
                version,
                die,
                slot,
            },
        );
    }

    fn make_stale(&mut self, die: Die, slot: Slot) {
        self.used[first_slot(self.geometry, die) + slot.0 as usize] = Some(Used::Stale);
        note(&mut self.history, Change::MakeStale { die, slot });
    }

    fn bring_in(&mut self, die: Die) {
        self.live[die.0 as usize] = true;
        self.live_dies += 1;
        note(&mut self.history, Change::BringIn { die });
    }

    fn drop_die(&mut self, die: Die) {
        let index = die.0 as usize;
        self.live_dies = less_one(self.live_dies, self.live[index]);
        self.live[index] = false;
        let first = first_slot(self.geometry, die);
        erase_all(&mut self.used, first, slots_of_die(self.geometry) as usize);
        note(&mut self.history, Change::DropDie { die });
    }

    fn block_erased(&mut self, die: Die, block: Block) {
        let slots = self.geometry.slots as usize;
        let first = first_slot(self.geometry, die) + block.0 as usize * slots;
        erase_unreserved(&mut self.used, first, slots);
        note(&mut self.history, Change::EraseBlock { die, block });
    }
}
