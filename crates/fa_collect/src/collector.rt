//! The victim of a die, and the steps on it.
ghost use Rattle.std.specs.Prelude.{◌≡◌, ◌-◌, ◌<◌, ◌==◌, ◌&&◌, nat_le, nat_lt, option_map};
ghost use Rattle.fa_machine.specs.Collecting.{victim as rule_victim, next_step as rule_step, step_on as rule_step_on};
ghost use Rattle.fa_machine.specs.Looks.{wants_window as rule_window};

use fa_machine::{Block, CollectorStep};
use fa_map_calls::{BlockCounts, Map, SlotState};
use fa_types::{Die, Slot};

/// The block that the collector of a die empties: of the blocks with a stale slot, no reserved slot and no more current slots
/// than there are erased slots outside of it, the one with most stale slots, the lowest on ties. It is the block with most stale
/// slots that has no reserved one, or there is none: where that block has too many current slots, each of the others has.
pub fn victim<M: Map>(map: &M, die: Die) -> Option<Block>
    requires { die.0 < (M.view map.now).geometry.dies }
    ensures { option_map (λ block. block.0) result ≡ rule_victim (M.view map.now) die.0 }
{
    match map.stalest_block(die) {
        Some(block) => {
            if may_be_emptied(map.counts(die, block), map.free(die)) {
                Some(block)
            } else {
                None
            }
        }
        None => None,
    }
}

/// Whether a block with these slots may be emptied, on a die with `free` erased slots: it has a stale slot, none that is
/// reserved, and no more current ones than there are erased slots outside of it.
fn may_be_emptied(counts: BlockCounts, free: u32) -> bool
    ensures { result ≡ (nat_lt 0 counts.stale && counts.reserved == 0 && nat_le counts.current (free - counts.erased)) }
{
    counts.stale > 0 && counts.reserved == 0 && counts.current <= free.saturating_sub(counts.erased)
}

/// The next step of a die's collector: to move the lowest current slot of its victim, and where none is left to erase it.
/// Nothing where it has no victim.
pub fn next_step<M: Map>(map: &M, die: Die) -> CollectorStep
    requires { die.0 < (M.view map.now).geometry.dies }
    ensures { result ≡ rule_step (M.view map.now) die.0 }
{
    match victim(map, die) {
        Some(block) => step_on(map, die, block),
        None => CollectorStep::Nothing,
    }
}

/// The next step on a block: to move its lowest current slot, and where none is left to erase it.
fn step_on<M: Map>(map: &M, die: Die, block: Block) -> CollectorStep
    requires die { die.0 < (M.view map.now).geometry.dies }
    requires block { block.0 < (M.view map.now).geometry.blocks }
    ensures { result ≡ rule_step_on (M.view map.now) die.0 block.0 }
{
    let slots = map.geometry().slots;
    let first = block.0 * slots;
    for slot in first..first + slots {
        if let SlotState::Current = map.state(die, Slot(slot)) {
            return CollectorStep::MoveSlot(Slot(slot));
        }
    }
    CollectorStep::EraseBlock(block)
}

/// Whether a die wants a window: it is live, has less room than a block, and has a victim.
pub fn wants_window<M: Map>(map: &M, die: Die) -> bool
    requires { die.0 < (M.view map.now).geometry.dies }
    ensures { result ≡ rule_window (M.view map.now) die.0 }
{
    map.is_live(die) && map.room(die) < map.geometry().slots && victim(map, die).is_some()
}
