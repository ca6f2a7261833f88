//! Programs for reserved slots.
ghost use Rattle.std.specs.Prelude.{◌≡◌, ◌+◌, ◌<◌, ◌≤◌, ◌++◌, drop, length, map, take, OnErr, OnOk};
ghost use Rattle.std.specs.List.{All};
ghost use Rattle.fa_machine.specs.Writing.{program_at};
ghost use Rattle.fa_core_tables.specs.Waits.{dies_of, room_of, waiting_of};

use fa_core_tables::{QueuedProgram, Waiting};
use fa_machine::{Target, Version};
use fa_tag::Payload;
use fa_types::Page;
use std::alloc::{AllocError, Allocator};

/// Room for three more programs on the die of each slot. The error is out of memory.
pub fn make_rooms<A: Allocator>(
    waiting: &mut Waiting<A>,
    slots: &[Target],
) -> Result<(), AllocError>
    requires { All (λ slot. slot.die.0 < dies_of waiting.old) slots.now }
    ensures dies { dies_of waiting.new ≡ dies_of waiting.old }
    ensures waiting { waiting_of waiting.new ≡ waiting_of waiting.old }
    ensures room { OnOk result (All (λ slot. 3 ≤ room_of waiting.new slot.die.0) slots.now) }
{
    for index in 0..slots.len() {
        waiting.make_room(slots[index].die, 3)?;
    }
    Ok(())
}

/// A program for the slot at an index, if there is one, behind all others.
pub fn queue_one<A: Allocator>(
    waiting: &mut Waiting<A>,
    slots: &[Target],
    index: usize,
    page: Page,
    version: Version,
    payload: Payload<A>,
)
    requires few { index < 3 }
    requires room { All (λ slot. 3 ≤ room_of waiting.old slot.die.0 + index) slots.now }
    ensures dies { dies_of waiting.new ≡ dies_of waiting.old }
    ensures waiting { waiting_of waiting.new
        ≡ waiting_of waiting.old ++ map (program_at page.0 version payload) (take 1 (drop index slots.now)) }
    ensures room { All (λ slot. 3 ≤ room_of waiting.new slot.die.0 + (index + 1)) slots.now }
{
    if index < slots.len() {
        let slot = slots[index];
        waiting.push(QueuedProgram {
            die: slot.die,
            slot: slot.slot,
            page,
            version,
            payload,
        });
    }
}

/// A program for each slot, behind all others, which share the payload. The error is out of memory, and queues none.
pub fn queue<A: Allocator>(
    waiting: &mut Waiting<A>,
    slots: &[Target],
    page: Page,
    version: Version,
    payload: &Payload<A>,
) -> Result<(), AllocError>
    requires dies { All (λ slot. slot.die.0 < dies_of waiting.old) slots.now }
    requires few { length slots.now ≤ 3 }
    ensures dies { dies_of waiting.new ≡ dies_of waiting.old }
    ensures queued { OnOk result (waiting_of waiting.new
        ≡ waiting_of waiting.old ++ map (program_at page.0 version payload.now) slots.now) }
    ensures refused { OnErr result (waiting_of waiting.new ≡ waiting_of waiting.old) }
{
    let first = payload.share()?;
    let second = payload.share()?;
    let third = payload.share()?;
    make_rooms(waiting, slots)?;
    queue_one(waiting, slots, 0, page, version, first);
    queue_one(waiting, slots, 1, page, version, second);
    queue_one(waiting, slots, 2, page, version, third);
    Ok(())
}
