//! Sets by which slots and blocks are found without a look at the others.
ghost use Rattle.std.specs.Prelude.{◌≡◌, ℕ, ◌+◌, ◌*◌, ◌-◌, ◌<◌, ◌≤◌, ◌==◌, find, false, true, if◌then◌else◌, IfOk};
ghost use Rattle.fa_map.specs.Found.{has_rank, is_clean as rule_clean, rank_index as rule_index};
ghost use Rattle.fa_map_calls.specs.Plain.{die_slots};
ghost use Rattle.fa_set.specs.Members.{bound_of, is_in};
ghost use Rattle.std.specs.FinMap.{contains_key};
ghost use Rattle.std.specs.List.{range_with_len};

use crate::few_copies::set_member;
use fa_map_calls::BlockCounts;
use fa_set::NumberSet;
use fa_types::{Die, Geometry};
use std::alloc::{AllocError, Allocator, Global};
use std::marker::Model;

/// The erased slots, and the blocks that have stale slots and no reserved one, in the order of how many slots are not stale.
#[derive(Drop)]
pub struct Finder<A: Allocator = Global> {
    /// The erased slots of all dies, die by die.
    erased: NumberSet<A>,
    /// The blocks, die by die, on each die by how many slots are not stale, and of as many the lower first.
    clean: NumberSet<A>,
}

impl<A: Allocator> Model for Finder<A> {
    ghost use Rattle.fa_map.specs.Sets.{Sets, sets_code};
    ghost use Rattle.fa_set.specs.Members.{bound_of, members};

    ghost Value = { Sets };

    ghost coded = { sets_code };

    ghost view = { λ finder. record {
      slots_bound = bound_of finder.erased;
      slots = members finder.erased;
      blocks_bound = bound_of finder.clean;
      blocks = members finder.clean;
    } };
}

/// Whether a block with these slots has a stale slot and none that is reserved.
fn is_clean(counts: BlockCounts) -> bool
    ensures { result ≡ rule_clean counts }
{
    counts.stale > 0 && counts.reserved == 0
}

/// Where a block of which so many slots are not stale stands among the blocks.
fn rank_index(geometry: Geometry, die: Die, rank: u32, block: u32) -> usize
    requires die { die.0 < geometry.dies }
    requires rank { rank ≤ geometry.slots }
    requires block { block < geometry.blocks }
    ensures index { result ≡ rule_index geometry die.0 rank block }
    ensures fits { result < geometry.dies * (geometry.slots + 1) * geometry.blocks }
{
    let row = die.0 as usize * (geometry.slots + 1) as usize + rank as usize;
    row * geometry.blocks as usize + block as usize
}

/// All numbers below a bound. The error is out of memory.
fn all_below<A: Allocator + Copy>(alloc: A, bound: usize) -> Result<NumberSet<A>, AllocError>
    ensures bound { IfOk result (λ set. bound_of set ≡ bound) }
    ensures all { IfOk result (λ set. (k : ℕ) → k < bound → is_in set k ≡ true) }
{
    let mut set = NumberSet::new(alloc, bound)?;
    for number in 0..bound {
        set.insert(number);
    }
    Ok(set)
}

impl<A: Allocator + Copy> Finder<A> {
    /// All slots are erased, and no block has stale ones. The error is out of memory.
    pub fn new(alloc: A, geometry: Geometry) -> Result<Finder<A>, AllocError>
        ensures slots { IfOk result (λ finder. finder.slots_bound ≡ geometry.dies * die_slots geometry) }
        ensures blocks { IfOk result (λ finder. finder.blocks_bound ≡ geometry.dies * (geometry.slots + 1) * geometry.blocks) }
        ensures all { IfOk result (λ finder. (k : ℕ) → k < geometry.dies * die_slots geometry → contains_key finder.slots k ≡ true) }
        ensures none { IfOk result (λ finder. (k : ℕ) → contains_key finder.blocks k ≡ false) }
    {
        let dies = geometry.dies as usize;
        let slots = dies * (geometry.blocks * geometry.slots) as usize;
        let rows = dies * (geometry.slots + 1) as usize;
        let erased = all_below(alloc, slots)?;
        let clean = NumberSet::new(alloc, rows * geometry.blocks as usize)?;
        Ok(Finder { erased, clean })
    }
}

impl<A: Allocator> Finder<A> {
    /// The least index of an erased slot from one on.
    pub fn slot_from(&self, index: usize) -> Option<usize>
        ensures { result ≡ find (contains_key self.now.slots) (range_with_len index (self.now.slots_bound - index)) }
    {
        self.erased.lowest_from(index)
    }

    /// Whether the slot at this index is erased.
    pub fn has_slot(&self, index: usize) -> bool
        ensures { result ≡ contains_key self.now.slots index }
    {
        self.erased.contains(index)
    }

    /// The least index of a block from one on.
    pub fn block_from(&self, index: usize) -> Option<usize>
        ensures { result ≡ find (contains_key self.now.blocks) (range_with_len index (self.now.blocks_bound - index)) }
    {
        self.clean.lowest_from(index)
    }

    /// The slot at this index was erased or not, and is erased or not from now on. No set is touched where that stays.
    pub fn put_slot(&mut self, index: usize, from: bool, to: bool)
        requires bound { index < self.old.slots_bound }
        requires was { contains_key self.old.slots index ≡ from }
        ensures bound { self.new.slots_bound ≡ self.old.slots_bound }
        ensures slots { (k : ℕ) → contains_key self.new.slots k ≡ (if k == index then to else contains_key self.old.slots k) }
        ensures blocks { self.new.blocks ≡ self.old.blocks }
        ensures blocks_bound { self.new.blocks_bound ≡ self.old.blocks_bound }
    {
        if from != to {
            set_member(&mut self.erased, index, to);
        }
    }

    /// The counts of a block were these, and are others now.
    pub fn put_block(
        &mut self,
        geometry: Geometry,
        die: Die,
        block: u32,
        from: BlockCounts,
        to: BlockCounts,
    )
        requires bound { self.old.blocks_bound ≡ geometry.dies * (geometry.slots + 1) * geometry.blocks }
        requires die { die.0 < geometry.dies }
        requires block { block < geometry.blocks }
        requires few { from.stale ≤ geometry.slots }
        requires few_now { to.stale ≤ geometry.slots }
        requires was { (rank : ℕ) → rank ≤ geometry.slots
            → contains_key self.old.blocks (rule_index geometry die.0 rank block) ≡ has_rank geometry.slots from rank }
        ensures bound { self.new.blocks_bound ≡ self.old.blocks_bound }
        ensures slots { self.new.slots ≡ self.old.slots }
        ensures slots_bound { self.new.slots_bound ≡ self.old.slots_bound }
        ensures here { (rank : ℕ) → rank ≤ geometry.slots
            → contains_key self.new.blocks (rule_index geometry die.0 rank block) ≡ has_rank geometry.slots to rank }
        ensures others { (d rank b : ℕ) → rank ≤ geometry.slots → b < geometry.blocks → (d ≡ die.0 → b ≡ block → ⊥)
            → contains_key self.new.blocks (rule_index geometry d rank b) ≡ contains_key self.old.blocks (rule_index geometry d rank b) }
    {
        take_rank(&mut self.clean, geometry, die, block, from);
        add_rank(&mut self.clean, geometry, die, block, to);
    }
}

/// The block, which had these counts, is none of the blocks.
fn take_rank<A: Allocator>(
    blocks: &mut NumberSet<A>,
    geometry: Geometry,
    die: Die,
    block: u32,
    counts: BlockCounts,
)
    requires bound { bound_of blocks.old ≡ geometry.dies * (geometry.slots + 1) * geometry.blocks }
    requires die { die.0 < geometry.dies }
    requires block { block < geometry.blocks }
    requires few { counts.stale ≤ geometry.slots }
    requires was { (rank : ℕ) → rank ≤ geometry.slots
        → is_in blocks.old (rule_index geometry die.0 rank block) ≡ has_rank geometry.slots counts rank }
    ensures bound { bound_of blocks.new ≡ bound_of blocks.old }
    ensures here { (rank : ℕ) → rank ≤ geometry.slots → is_in blocks.new (rule_index geometry die.0 rank block) ≡ false }
    ensures others { (d rank b : ℕ) → rank ≤ geometry.slots → b < geometry.blocks → (d ≡ die.0 → b ≡ block → ⊥)
        → is_in blocks.new (rule_index geometry d rank b) ≡ is_in blocks.old (rule_index geometry d rank b) }
{
    if is_clean(counts) {
        let index = rank_index(geometry, die, geometry.slots - counts.stale, block);
        blocks.remove(index);
    }
}

/// The block, which has these counts and is none of the blocks, is one where it is to be.
fn add_rank<A: Allocator>(
    blocks: &mut NumberSet<A>,
    geometry: Geometry,
    die: Die,
    block: u32,
    counts: BlockCounts,
)
    requires bound { bound_of blocks.old ≡ geometry.dies * (geometry.slots + 1) * geometry.blocks }
    requires die { die.0 < geometry.dies }
    requires block { block < geometry.blocks }
    requires few { counts.stale ≤ geometry.slots }
    requires was { (rank : ℕ) → rank ≤ geometry.slots → is_in blocks.old (rule_index geometry die.0 rank block) ≡ false }
    ensures bound { bound_of blocks.new ≡ bound_of blocks.old }
    ensures here { (rank : ℕ) → rank ≤ geometry.slots
        → is_in blocks.new (rule_index geometry die.0 rank block) ≡ has_rank geometry.slots counts rank }
    ensures others { (d rank b : ℕ) → rank ≤ geometry.slots → b < geometry.blocks → (d ≡ die.0 → b ≡ block → ⊥)
        → is_in blocks.new (rule_index geometry d rank b) ≡ is_in blocks.old (rule_index geometry d rank b) }
{
    if is_clean(counts) {
        let index = rank_index(geometry, die, geometry.slots - counts.stale, block);
        blocks.insert(index);
    }
}
