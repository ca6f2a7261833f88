//! Jobs that lie on the bench, made one after the other, and moves between their two calls.
use crate::bench::{Bench, MadeJob, Task};
use crate::image_table::ImageTable;
use crate::moves::open_moves;
use crate::order::Begun;
use fa_image::Image;
use fa_jobs::Gate;
use fa_types::Die;
use std::alloc::Allocator;
use std::sync::Wait;

/// Begins the jobs of these dies that lie on the bench, one after the other. Whether one is a move whose slot was read.
pub fn begin_jobs<R: Wait, I: Image + Drop, A: Allocator, G: Gate>(
    rt: &R,
    image_table: &ImageTable<I, A>,
    dies: &[Die],
    gate: &G,
) -> bool {
    let mut has_move = false;
    for die in dies {
        if begin_job(rt, image_table, *die, gate) {
            has_move = true;
        }
    }
    has_move
}

/// Makes the first call of a die's job that lies on the bench, if nobody has begun it, and all of one that neither reads nor moves a page,
/// and lays back how far it has come. Whether it is a move whose slot was read.
fn begin_job<R: Wait, I: Image + Drop, A: Allocator, G: Gate>(
    rt: &R,
    image_table: &ImageTable<I, A>,
    die: Die,
    gate: &G,
) -> bool {
    let bench = image_table.bench();
    let Some(Task { order, mut memory }) = bench.lift_task(rt, die) else {
        return false;
    };
    match image_table.begin(rt, &order, &mut memory, gate) {
        Begun::Over(outcome) => {
            bench.lay_made(
                rt,
                MadeJob {
                    die,
                    outcome,
                    memory,
                },
            );
            false
        }
        Begun::SlotRead => {
            bench.lay_read(rt, Task { order, memory });
            true
        }
    }
}

/// Goes on with the moves of these dies that lie on the bench and whose slots were read: opens them side by side, and makes their second
/// calls. They lie on the bench between two calls.
pub fn go_on_with_moves<R: Wait, I: Image + Drop, A: Allocator, G: Gate>(
    rt: &R,
    image_table: &ImageTable<I, A>,
    dies: &[Die],
    moves: &mut Vec<Task<A>, A>,
    gate: &G,
) {
    let bench = image_table.bench();
    lift_moves(rt, bench, dies, moves);
    open_moves(rt, bench, moves);
    end_moves(rt, image_table, dies, gate);
}

/// Takes the moves of these dies that lie on the bench and whose slots were read, as long as there is memory for one more.
fn lift_moves<R: Wait, A: Allocator>(
    rt: &R,
    bench: &Bench<A>,
    dies: &[Die],
    moves: &mut Vec<Task<A>, A>,
) {
    for die in dies {
        if moves.len() >= moves.capacity() {
            return;
        }
        if let Some(task) = bench.lift_read(rt, *die) {
            let _ = moves.push(task);
        }
    }
}

/// Makes the second calls of the moves of these dies that lie on the bench, one after the other, and lays back how they have ended.
fn end_moves<R: Wait, I: Image + Drop, A: Allocator, G: Gate>(
    rt: &R,
    image_table: &ImageTable<I, A>,
    dies: &[Die],
    gate: &G,
) {
    let bench = image_table.bench();
    for die in dies {
        if let Some(opened) = bench.lift_opened(rt, *die) {
            bench.lay_made(rt, image_table.end_move(rt, opened, gate));
        }
    }
}
