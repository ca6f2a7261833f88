//! Those who work for the dies of the array.
use crate::counting_gate::CountingGate;
use fa_core_calls::Events;
use fa_image::Image;
use fa_prog_clients::Networked;
use fa_prog_counts::Counts;
use fa_shared::Shared;
use fa_shared_lock::Seat;
use fa_types::Die;
use fa_workers::{Helper, HelperMemory, collector_worker, die_worker, rebuild_worker};
use fa_workers_making::{ImageTable, JobMemory};
use std::alloc::{AllocError, Global};
use std::sync::ledger::Ledger;

/// What the worker of a die has of its own.
#[derive(Drop)]
pub(crate) struct DieTask<L: Ledger> {
    die: Die,
    seat: Seat<L>,
    memory: JobMemory,
}

/// The task of a die's worker. The error is out of memory, or of seats.
pub(crate) fn die_task<R: Networked, L: Ledger, E: Events<Global>>(
    rt: &R,
    shared: &Shared<L, E>,
    die: Die,
    page_bytes: u32,
) -> Result<DieTask<L>, AllocError> {
    let memory = JobMemory::new(rt.alloc(), page_bytes)?;
    let seat = shared.seat(rt).ok_or(AllocError)?;
    Ok(DieTask { die, seat, memory })
}

/// Works for a die until the array is to end, and hands the seat back. The calls of its image are counted.
pub(crate) fn work_die<R: Networked, L: Ledger, E: Events<Global>, I: Image + Drop>(
    rt: &R,
    shared: &Shared<L, E>,
    image_table: &ImageTable<I>,
    counts: &Counts,
    task: DieTask<L>,
    window_rounds: u64,
) -> Seat<L> {
    let DieTask {
        die,
        mut seat,
        memory,
    } = task;
    die_worker(
        rt,
        rt.alloc(),
        shared,
        &mut seat,
        die,
        image_table,
        memory,
        window_rounds,
        &CountingGate { counts },
    );
    seat
}

/// What the collector has of its own.
#[derive(Drop)]
pub(crate) struct CollectTask<L: Ledger> {
    seat: Seat<L>,
    // Memory for the jobs that it makes of dies that collect.
    memory: HelperMemory,
}

/// The task of the collector. The error is out of memory, or of seats.
pub(crate) fn collect_task<R: Networked, L: Ledger, E: Events<Global>>(
    rt: &R,
    shared: &Shared<L, E>,
) -> Result<CollectTask<L>, AllocError> {
    let memory = HelperMemory::new(rt.alloc())?;
    let seat = shared.seat(rt).ok_or(AllocError)?;
    Ok(CollectTask { seat, memory })
}

/// Collects until the array is to end, and hands the seat back. The calls of images are counted.
pub(crate) fn collect<R: Networked, L: Ledger, E: Events<Global>, I: Image + Drop>(
    rt: &R,
    shared: &Shared<L, E>,
    image_table: &ImageTable<I>,
    counts: &Counts,
    task: CollectTask<L>,
    window_rounds: u64,
) -> Seat<L> {
    let CollectTask { mut seat, memory } = task;
    let gate = CountingGate { counts };
    let helper = Helper::new(rt, rt.alloc(), shared, image_table, &gate, memory);
    let mut hands = helper.collecting();
    collector_worker(rt, rt.alloc(), shared, &mut seat, window_rounds, &mut hands);
    seat
}

/// Rebuilds until the array is to end, and hands the seat back.
pub(crate) fn rebuild<R: Networked, L: Ledger, E: Events<Global>>(
    rt: &R,
    shared: &Shared<L, E>,
    mut seat: Seat<L>,
) -> Seat<L> {
    rebuild_worker(rt, rt.alloc(), shared, &mut seat);
    seat
}
