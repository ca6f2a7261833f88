//! Slots that reads gave, opened side by side.
ghost use Rattle.std.specs.Prelude.{◌≡◌, ◌<◌, ◌≤◌, IfSome, slice_index_or, length, take};
ghost use Rattle.fa_tag.specs.SlotGrammar.{IsOpened};
ghost use Rattle.fa_tag.specs.declared.tag.Opened.{Opened};
ghost use Rattle.fa_workers_making.specs.Begun.{AreOpenedAt, OpensMade, OpensRead, OpensReads, bytes_at};

use crate::bench::MadeJob;
use crate::job_memory::JobMemory;
use fa_core_outcome::Outcome;
use fa_jobs::hand_over;
use fa_tag::{Opened, open, open_all};
use std::alloc::Allocator;

/// How many jobs somebody takes at most in one hold of the array's lock.
pub const MAX_JOBS: usize = 8;

/// How many slots are hashed side by side where there are no more jobs.
const FEW_JOBS: usize = 4;

/// From how many reads on they are hashed side by side, among more than four jobs: eight side by side take about the time of three one by
/// one.
const FEW_READS: usize = 4;

/// The same among four jobs and fewer: four side by side take less than the time of two one by one.
const FEWER_READS: usize = 2;

/// Opens what reads gave, and hands out the payloads. A read whose slot is not opened yet stands as one of a bad slot. Where several jobs
/// are reads their slots are hashed side by side.
pub fn open_reads<A: Allocator>(made: &mut [MadeJob<A>])
    ensures { OpensReads made.old made.new }
{
    let together = opened_together(made);
    for index in 0..made.len() {
        open_made(&mut made[index], together.as_ref(), index);
    }
}

/// What stands in all memories, as slots, where several jobs are reads.
fn opened_together<A: Allocator>(made: &[MadeJob<A>]) -> Option<[Opened; MAX_JOBS]>
    ensures { IfSome result (λ all. AreOpenedAt made.now all) }
{
    let reads = made
        .iter()
        .filter(|job| matches!(job.outcome, Outcome::Read(_)))
        .count();
    let fewest = if made.len() <= FEW_JOBS {
        FEWER_READS
    } else {
        FEW_READS
    };
    if reads < fewest {
        None
    } else {
        Some(open_slots(made))
    }
}

/// Opens what one job gave, if it is a read.
fn open_made<A: Allocator>(
    job: &mut MadeJob<A>,
    together: Option<&[Opened; MAX_JOBS]>,
    index: usize,
)
    requires { IfSome together (λ all. (d : Opened) → index < 8 → IsOpened job.old.memory.scratch.items (slice_index_or all.now index d)) }
    ensures { OpensMade job.old job.new }
{
    job.outcome = open_read(&mut job.memory, job.outcome, together, index);
}

/// Opens what one read gave, and hands out its payload, where the memory has room for it. It is opened already where all were together.
pub fn open_read<A: Allocator>(
    memory: &mut JobMemory<A>,
    outcome: Outcome,
    together: Option<&[Opened; MAX_JOBS]>,
    index: usize,
) -> Outcome
    requires { IfSome together (λ all. (d : Opened) → index < 8 → IsOpened memory.old.scratch.items (slice_index_or all.now index d)) }
    ensures { OpensRead memory.old outcome memory.new result }
{
    match outcome {
        Outcome::Read(_) => {
            let opened = opened_at(together, index, memory.scratch.as_slice());
            hand_out(memory);
            Outcome::Read(opened)
        }
        other => other,
    }
}

/// What these bytes are as a slot, which was opened already where all were together.
fn opened_at(together: Option<&[Opened; MAX_JOBS]>, index: usize, bytes: &[u8]) -> Opened
    requires { IfSome together (λ all. (d : Opened) → index < 8 → IsOpened bytes.now (slice_index_or all.now index d)) }
    ensures { IsOpened bytes.now result }
{
    match together {
        Some(all) if index < MAX_JOBS => all[index],
        _ => open(bytes),
    }
}

/// What stands in all memories, as slots, hashed side by side.
fn open_slots<A: Allocator>(made: &[MadeJob<A>]) -> [Opened; MAX_JOBS]
    ensures { AreOpenedAt made.now result }
{
    if made.len() <= FEW_JOBS {
        return open_four_slots(made);
    }
    let mut opened = [Opened::Bad; MAX_JOBS];
    open_all(
        &[
            slot_in(made, 0),
            slot_in(made, 1),
            slot_in(made, 2),
            slot_in(made, 3),
            slot_in(made, 4),
            slot_in(made, 5),
            slot_in(made, 6),
            slot_in(made, 7),
        ],
        &mut opened,
    );
    opened
}

/// The same of four memories and fewer. What stands in the first one stands for the others too.
fn open_four_slots<A: Allocator>(made: &[MadeJob<A>]) -> [Opened; MAX_JOBS]
    requires { length made.now ≤ 4 }
    ensures { AreOpenedAt made.now result }
{
    let mut opened = [Opened::Bad; FEW_JOBS];
    open_all(
        &[
            slot_in(made, 0),
            slot_in(made, 1),
            slot_in(made, 2),
            slot_in(made, 3),
        ],
        &mut opened,
    );
    let [first, second, third, fourth] = opened;
    [first, second, third, fourth, first, first, first, first]
}

/// What stands for a slot in the memory of this place, or in the first one, where there are fewer: slots of one length alone are hashed
/// side by side.
fn slot_in<A: Allocator>(made: &[MadeJob<A>], place: usize) -> &[u8]
    ensures { result.now ≡ bytes_at made.now place }
{
    if made.len() == 0 {
        return &[];
    }
    if place >= made.len() {
        return made[0].memory.scratch.as_slice();
    }
    made[place].memory.scratch.as_slice()
}

/// The payload of the slot that was read goes to where a read hands it out.
fn hand_out<A: Allocator>(memory: &mut JobMemory<A>)
    ensures { length memory.old.buffer.items ≤ length memory.old.scratch.items
        → memory.new.buffer.items ≡ take (length memory.old.buffer.items) memory.old.scratch.items }
{
    if memory.buffer.len() <= memory.scratch.len() {
        hand_over(&mut memory.scratch, &mut memory.buffer);
    }
}
