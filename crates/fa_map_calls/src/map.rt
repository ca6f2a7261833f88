//! The trait of a page map.
ghost use Rattle.std.specs.Prelude.{◌≡◌, ℕ, ◌+◌, ◌-◌, ◌*◌, ◌<◌, ◌≤◌, ◌==◌, Bool, true, false, length, find, option_map, IfSome, Some};
ghost use Rattle.std.specs.List.{range_with_len};
ghost use Rattle.std.specs.FinMap.{get, len};
ghost use Rattle.fa_machine.specs.Collecting.{count_in, move_place};
ghost use Rattle.fa_machine.specs.Copies.{copy_on, holders, is_stale_slot};
ghost use Rattle.fa_machine.specs.Placement.{free, room};
ghost use Rattle.fa_machine.specs.State.{MapState, is_live, used_at};
ghost use Rattle.fa_map_calls.specs.Changes.{with_used, writers_slot, taken, made_current, renewed, brought_in, dropped, without_block};
ghost use Rattle.fa_map_calls.specs.Changes.{MayHold, MayKeep};
ghost use Rattle.fa_map_calls.specs.Blocks.{IsGreatest, is_clean_block};
ghost use Rattle.fa_map_calls.specs.Slots.{IsPageMap, AreCounts, state_of, copy_in, first_holder};

use crate::slots::{BlockCounts, SlotState};
use fa_machine::{Block, Used, Version};
use fa_types::{Die, Geometry, Page, Seq, Slot};

/// Which dies are live, the number of each page that was ever written, and the state of each slot of
/// the live dies. Pages, dies, slots and blocks are those of the geometry. No call takes memory.
pub trait Map {
    /// The page map's part of the array's state.
    ghost view: { Self → MapState };

    /// The geometry, which no call changes.
    fn geometry(&self) -> Geometry
        ensures { result ≡ (view self.now).geometry };

    /// Whether the die is live.
    fn is_live(&self, die: Die) -> bool
        ensures { result ≡ is_live (view self.now) die.0 };

    /// How many dies are live.
    fn live_dies(&self) -> u32
        ensures { result ≡ len (view self.now).live };

    /// The last write of the page; none where it was never written.
    fn version(&self, page: Page) -> Option<Version>
        requires { page.0 < (view self.now).geometry.pages }
        ensures { result ≡ get (view self.now).versions page.0 };

    /// The number of the last write of the page; none where it was never written.
    fn seq(&self, page: Page) -> Option<Seq>
        requires { page.0 < (view self.now).geometry.pages }
        ensures { result ≡ option_map (λ version. version.seq) (get (view self.now).versions page.0) };

    /// The slot of the current copy of the page on the die.
    fn copy_on(&self, page: Page, die: Die) -> Option<Slot>
        requires page { page.0 < (view self.now).geometry.pages }
        requires die { die.0 < (view self.now).geometry.dies }
        ensures { option_map (λ slot. slot.0) result ≡ copy_on (view self.now) page.0 die.0 };

    /// How many live dies hold a current copy of the page.
    fn copies_of(&self, page: Page) -> u32
        requires { page.0 < (view self.now).geometry.pages }
        ensures { result ≡ length (holders (view self.now) page.0) };

    /// The first of the page's current copies, the dies rising: the die and its slot. None where no die holds one.
    fn first_copy(&self, page: Page) -> Option<(Die, Slot)>
        requires { page.0 < (view self.now).geometry.pages }
        ensures die { option_map (λ copy. copy.0.0) result ≡ first_holder (view self.now) page.0 0 }
        ensures slot { IfSome result (λ copy. copy_on (view self.now) page.0 copy.0.0 ≡ Some copy.1.0) };

    /// The page's current copy that comes after this one, the dies rising. None where no die above holds one.
    fn next_copy(&self, page: Page, die: Die, slot: Slot) -> Option<(Die, Slot)>
        requires page { page.0 < (view self.now).geometry.pages }
        requires copy { copy_on (view self.now) page.0 die.0 ≡ Some slot.0 }
        ensures die { option_map (λ copy. copy.0.0) result ≡ first_holder (view self.now) page.0 (die.0 + 1) }
        ensures slot { IfSome result (λ copy. copy_on (view self.now) page.0 copy.0.0 ≡ Some copy.1.0) };

    /// The lowest page from one on that exactly this many live dies hold, 1 or 2.
    fn next_with(&self, count: u32, from: Page) -> Option<Page>
        requires { (1 ≤ count) × (count ≤ 2) }
        ensures { option_map (λ page. page.0) result ≡ find (λ page. length (holders (view self.now) page) == count)
            (range_with_len from.0 ((view self.now).geometry.pages - from.0)) };

    /// The state of the slot.
    fn state(&self, die: Die, slot: Slot) -> SlotState
        requires die { die.0 < (view self.now).geometry.dies }
        requires slot { slot.0 < (view self.now).geometry.blocks * (view self.now).geometry.slots }
        ensures { result ≡ state_of (used_at (view self.now) die.0 slot.0) };

    /// The page that the slot holds a current copy of, and the write of it.
    fn copy_in(&self, die: Die, slot: Slot) -> Option<(Page, Version)>
        requires die { die.0 < (view self.now).geometry.dies }
        requires slot { slot.0 < (view self.now).geometry.blocks * (view self.now).geometry.slots }
        ensures { result ≡ copy_in (used_at (view self.now) die.0 slot.0) };

    /// How many slots of the block are in each state.
    fn counts(&self, die: Die, block: Block) -> BlockCounts
        requires die { die.0 < (view self.now).geometry.dies }
        requires block { block.0 < (view self.now).geometry.blocks }
        ensures { AreCounts (view self.now) die.0 block.0 result };

    /// How many slots of the die are erased.
    fn free(&self, die: Die) -> u32
        requires { die.0 < (view self.now).geometry.dies }
        ensures { result ≡ free (view self.now) die.0 };

    /// How many of them writers may take: all but a block's worth, which is the collector's.
    fn room(&self, die: Die) -> u32
        requires { die.0 < (view self.now).geometry.dies }
        ensures { result ≡ room (view self.now) die.0 };

    /// The slot that a writer takes on the die: the lowest that is erased. None where the die has no room.
    fn writers_slot(&self, die: Die) -> Option<Slot>
        requires { die.0 < (view self.now).geometry.dies }
        ensures { option_map (λ slot. slot.0) result ≡ writers_slot (view self.now) die.0 };

    /// The lowest erased slot of the die outside the block, to which the collector moves one of the block.
    /// None where no slot outside the block is erased.
    fn slot_for_move(&self, die: Die, block: Block) -> Option<Slot>
        requires die { die.0 < (view self.now).geometry.dies }
        requires block { block.0 < (view self.now).geometry.blocks }
        ensures { option_map (λ slot. slot.0) result ≡ move_place (view self.now) die.0 block.0 };

    /// The block of the die with most stale slots, of those with a stale slot and none that is reserved; the lowest on ties.
    fn stalest_block(&self, die: Die) -> Option<Block>
        requires { die.0 < (view self.now).geometry.dies }
        ensures { IsGreatest (view self.now).geometry.blocks (is_clean_block (view self.now) die.0)
            (λ block. count_in (view self.now) die.0 block is_stale_slot) (option_map (λ block. block.0) result) };

    /// The slot of the live die is reserved, whatever its state was.
    fn reserve_slot(&mut self, die: Die, slot: Slot)
        requires die { is_live (view self.old) die.0 ≡ true }
        requires slot { slot.0 < (view self.old).geometry.blocks * (view self.old).geometry.slots }
        ensures { view self.new ≡ with_used die.0 slot.0 Used.Reserved (view self.old) };

    /// The lowest erased slot of the live die for a writer, which is reserved now. None where the die
    /// has no room.
    fn take_slot(&mut self, die: Die) -> Option<Slot>
        requires { is_live (view self.old) die.0 ≡ true }
        ensures slot { option_map (λ slot. slot.0) result ≡ writers_slot (view self.old) die.0 }
        ensures taken { view self.new ≡ taken die.0 (writers_slot (view self.old) die.0) (view self.old) };

    /// The lowest erased slot of the live die outside the block, for the collector. It is reserved now.
    /// None where no slot outside the block is erased.
    fn take_slot_outside(&mut self, die: Die, block: Block) -> Option<Slot>
        requires die { is_live (view self.old) die.0 ≡ true }
        requires block { block.0 < (view self.old).geometry.blocks }
        ensures slot { option_map (λ slot. slot.0) result ≡ move_place (view self.old) die.0 block.0 }
        ensures taken { view self.new ≡ taken die.0 (move_place (view self.old) die.0 block.0) (view self.old) };

    /// The slot holds a current copy of this write of the page, which is its last. Copies of its other
    /// writes are stale.
    fn make_current(&mut self, page: Page, version: Version, die: Die, slot: Slot)
        requires { MayHold (view self.old) page version die.0 slot.0 }
        ensures { view self.new ≡ made_current page version die.0 slot.0 (view self.old) };

    /// This write is the page's last now, and each copy that the page had is stale.
    fn renew(&mut self, page: Page, version: Version)
        requires { page.0 < (view self.old).geometry.pages }
        ensures { view self.new ≡ renewed page.0 version (view self.old) };

    /// The slot holds a current copy of the page's last write, which is this one.
    fn hold(&mut self, page: Page, version: Version, die: Die, slot: Slot)
        requires { MayKeep (view self.old) page version die.0 slot.0 }
        ensures { view self.new ≡ with_used die.0 slot.0 (Used.Held page version) (view self.old) };

    /// The slot of the live die is stale, whatever its state was.
    fn make_stale(&mut self, die: Die, slot: Slot)
        requires die { is_live (view self.old) die.0 ≡ true }
        requires slot { slot.0 < (view self.old).geometry.blocks * (view self.old).geometry.slots }
        ensures { view self.new ≡ with_used die.0 slot.0 Used.Stale (view self.old) };

    /// The die is live, and all of its slots are erased.
    fn bring_in(&mut self, die: Die)
        requires die { die.0 < (view self.old).geometry.dies }
        requires out { is_live (view self.old) die.0 ≡ false }
        ensures { view self.new ≡ brought_in die.0 (view self.old) };

    /// The die is not live, and its slots hold nothing that is known.
    fn drop_die(&mut self, die: Die)
        requires { die.0 < (view self.old).geometry.dies }
        ensures { view self.new ≡ dropped die.0 (view self.old) };

    /// The slots of the block are erased, save those that are reserved.
    fn block_erased(&mut self, die: Die, block: Block)
        requires die { is_live (view self.old) die.0 ≡ true }
        requires block { block.0 < (view self.old).geometry.blocks }
        ensures { view self.new ≡ without_block die.0 block.0 (view self.old) };

    /// What is true of every page map.
    ghost whole: { (map : Self) → IsPageMap (view map) };
}
