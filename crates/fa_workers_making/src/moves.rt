//! Moves between their two calls: slots that were read, and are opened side by side.
ghost use Rattle.std.specs.Prelude.{◌≡◌, ◌+◌, length};
ghost use Rattle.fa_core_outcome.specs.Handed.{handed_of};
ghost use Rattle.fa_tag.specs.SlotGrammar.{IsOpened, payload_of};
ghost use Rattle.fa_workers_making.specs.Beginning.{EndsMove};

use crate::bench::{Bench, MadeJob, Task};
use crate::job_memory::JobMemory;
use crate::order::Order;
use fa_core_outcome::Outcome;
use fa_image::Image;
use fa_jobs::Gate;
use fa_tag::{Opened, PayloadDigest, open_begun, open_four_begun};
use fa_types::Die;
use std::alloc::{Allocator, Global};
use std::marker::Model;
use std::sync::Wait;

/// Bytes of a slot, what they are, and the digest of their payload begun.
#[derive(Drop)]
struct OpenedSlot<A: Allocator = Global> {
    scratch: Vec<u8, A>,
    opened: Opened,
    digest: PayloadDigest,
}

impl<A: Allocator> Model for OpenedSlot<A> {
    ghost use Rattle.std.specs.Prelude.{◌≡◌, List, ℕ};
    ghost use Rattle.fa_tag.specs.SlotGrammar.{IsOpened, payload_of};

    ghost Value = { List ℕ };

    ghost view = { λ slot. slot.scratch.items };

    ghost invariant = { λ slot. IsOpened slot.scratch.items slot.opened × (slot.digest ≡ payload_of slot.scratch.items) };
}

/// A move whose slot was read and opened.
#[derive(Drop)]
pub struct OpenedMove<A: Allocator = Global> {
    order: Order<A>,
    slot: OpenedSlot<A>,
    buffer: Vec<u8, A>,
}

impl<A: Allocator> OpenedMove<A> {
    /// The die.
    pub(crate) fn die(&self) -> Die {
        self.order.die()
    }

    /// Makes the second call of the move on the die's image, if that is one for the array. Otherwise the image refuses the job.
    pub(crate) fn end<I: Image, G: Gate>(self, image: &mut I, gate: &G) -> MadeJob<A>
        ensures die { result.die ≡ self.order.die }
        ensures ends { (I.view image.old).geometry ≡ self.order.geometry → length self.slot ≡ self.order.geometry.page_bytes + 64
            → EndsMove I.made self.order.geometry self.order.array self.order.die.0 (handed_of self.order.job) result.outcome
            self.slot image.old image.new }
    {
        let OpenedMove {
            order,
            slot,
            buffer,
        } = self;
        let OpenedSlot {
            mut scratch,
            opened,
            digest,
        } = slot;
        let outcome = order.end_move(image, opened, &digest, &mut scratch, gate);
        made(&order, outcome, scratch, buffer)
    }

    /// How the move ends on a die that has no image for it.
    pub(crate) fn refused(self) -> MadeJob<A>
        ensures { result.die ≡ self.order.die }
    {
        let OpenedMove {
            order,
            slot,
            buffer,
        } = self;
        let OpenedSlot { scratch, .. } = slot;
        made(&order, order.refused(), scratch, buffer)
    }
}

/// A job that ended so in this memory.
fn made<A: Allocator>(
    order: &Order<A>,
    outcome: Outcome,
    scratch: Vec<u8, A>,
    buffer: Vec<u8, A>,
) -> MadeJob<A>
    ensures die { result.die ≡ order.now.die }
    ensures outcome { result.outcome ≡ outcome }
{
    MadeJob {
        die: order.die(),
        outcome,
        memory: JobMemory { scratch, buffer },
    }
}

/// A move with what its slot was opened as, and the digest of its payload begun.
fn opened_move<A: Allocator>(task: Task<A>, begun: (Opened, PayloadDigest)) -> OpenedMove<A>
    requires { IsOpened task.memory.scratch.items begun.0 × (begun.1 ≡ payload_of task.memory.scratch.items) }
    ensures order { result.order ≡ task.order }
    ensures slot { result.slot ≡ task.memory.scratch.items }
{
    let Task { order, memory } = task;
    let JobMemory { scratch, buffer } = memory;
    let (opened, digest) = begun;
    OpenedMove {
        order,
        slot: OpenedSlot {
            scratch,
            opened,
            digest,
        },
        buffer,
    }
}

/// Opens the slot that was read for a move.
pub fn open_alone<A: Allocator>(task: Task<A>) -> OpenedMove<A>
    ensures order { result.order ≡ task.order }
    ensures slot { result.slot ≡ task.memory.scratch.items }
{
    let begun = open_begun(task.memory.scratch.as_slice());
    opened_move(task, begun)
}

/// Opens the slots that were read for these moves, four side by side, and lays each move at the place of its die.
pub(crate) fn open_moves<R: Wait, A: Allocator>(
    rt: &R,
    bench: &Bench<A>,
    moves: &mut Vec<Task<A>, A>,
) {
    for _ in 0..moves.len() {
        let Some(first) = moves.pop() else {
            return;
        };
        let Some(second) = moves.pop() else {
            bench.lay_opened(rt, open_alone(first));
            return;
        };
        let Some(third) = moves.pop() else {
            open_two(rt, bench, first, second);
            return;
        };
        let Some(fourth) = moves.pop() else {
            open_three(rt, bench, first, second, third);
            return;
        };
        open_four(rt, bench, first, second, third, fourth);
    }
}

/// Opens the slots of two moves side by side, and lays each move at the place of its die.
fn open_two<R: Wait, A: Allocator>(rt: &R, bench: &Bench<A>, first: Task<A>, second: Task<A>) {
    let slot = first.memory.scratch.as_slice();
    let (one, two, _, _) = begin_four_slots(slot, second.memory.scratch.as_slice(), slot, slot);
    bench.lay_opened(rt, opened_move(first, one));
    bench.lay_opened(rt, opened_move(second, two));
}

/// The same of three.
fn open_three<R: Wait, A: Allocator>(
    rt: &R,
    bench: &Bench<A>,
    first: Task<A>,
    second: Task<A>,
    third: Task<A>,
) {
    let slot = first.memory.scratch.as_slice();
    let (one, two, three, _) = begin_four_slots(
        slot,
        second.memory.scratch.as_slice(),
        third.memory.scratch.as_slice(),
        slot,
    );
    bench.lay_opened(rt, opened_move(first, one));
    bench.lay_opened(rt, opened_move(second, two));
    bench.lay_opened(rt, opened_move(third, three));
}

/// The same of four.
fn open_four<R: Wait, A: Allocator>(
    rt: &R,
    bench: &Bench<A>,
    first: Task<A>,
    second: Task<A>,
    third: Task<A>,
    fourth: Task<A>,
) {
    let (one, two, three, four) = begin_four_slots(
        first.memory.scratch.as_slice(),
        second.memory.scratch.as_slice(),
        third.memory.scratch.as_slice(),
        fourth.memory.scratch.as_slice(),
    );
    bench.lay_opened(rt, opened_move(first, one));
    bench.lay_opened(rt, opened_move(second, two));
    bench.lay_opened(rt, opened_move(third, three));
    bench.lay_opened(rt, opened_move(fourth, four));
}

/// Opens four slots, side by side where they have one length, and begins the digests of their payloads.
fn begin_four_slots(
    first: &[u8],
    second: &[u8],
    third: &[u8],
    fourth: &[u8],
) -> (
    (Opened, PayloadDigest),
    (Opened, PayloadDigest),
    (Opened, PayloadDigest),
    (Opened, PayloadDigest),
)
    ensures first { IsOpened first.now result.0.0 × (result.0.1 ≡ payload_of first.now) }
    ensures second { IsOpened second.now result.1.0 × (result.1.1 ≡ payload_of second.now) }
    ensures third { IsOpened third.now result.2.0 × (result.2.1 ≡ payload_of third.now) }
    ensures fourth { IsOpened fourth.now result.3.0 × (result.3.1 ≡ payload_of fourth.now) }
{
    open_four_begun(&[first, second, third, fourth])
}
