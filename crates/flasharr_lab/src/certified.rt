//! Plans that the array made or would make, with what the checker says of them.
ghost use Rattle.std.specs.Prelude.{◌-◌, ◌^◌, ◌≤◌};
ghost use Rattle.fa_batch_terms.specs.Batch.{IsSound};
ghost use Rattle.fa_core.specs.Array.{IsWhole};

use crate::seen::copy_seen;
use fa_batch::Batch;
use fa_batch_terms::Place;
use fa_cert::{Verdict, check};
use fa_closed::Closed;
use fa_core::{Array, Planned};
use fa_machine::BatchId;
use fa_map_calls::Map;
use fa_plan::plan;
use fa_types::{Die, Page, Rounds};
use flasharr_lab_parts::{Heap, Tools};
use flasharr_lab_words::{MAX_DIES, Output, show_places, show_shortage};
use std::alloc::{AllocError, Allocator};

/// Until this round batches are planned.
const LAST_ROUND: u64 = (1 << 56) - (1 << 24);

/// Tells the rounds of a batch's plan, the verdict on it, its places, and its shortage.
pub(crate) fn show_planned<M: Map, A: Allocator + Copy>(
    array: &Array<M, A>,
    heap: A,
    batch: BatchId,
    planned: &Planned<A>,
    output: &mut Output,
)
    requires { IsWhole M.view array.now }
{
    output.pair("rounds", planned.rounds);
    show_check(array, heap, batch, planned, output);
    show_places(planned.plan.places.as_slice(), output);
    show_shortage(planned.shortage.as_slice(), output);
}

/// Tells the verdict on a batch's plan, if the batch is open: against the rounds that are closed without its own bookings.
fn show_check<M: Map, A: Allocator + Copy>(
    array: &Array<M, A>,
    heap: A,
    batch: BatchId,
    planned: &Planned<A>,
    output: &mut Output,
)
    requires { IsWhole M.view array.now }
{
    if array.batch_open(batch) {
        match array.closed_without(heap, batch) {
            Ok(closed) => show_against(array, heap, &closed, planned, output),
            Err(_) => output.fail(),
        }
    }
}

/// Tells the verdict on a plan against closed rounds.
fn show_against<M: Map, A: Allocator + Copy>(
    array: &Array<M, A>,
    heap: A,
    closed: &Closed<A>,
    planned: &Planned<A>,
    output: &mut Output,
) {
    match held_places(array, heap, planned.plan.places.as_slice()) {
        Ok(batch) => show_verdict(heap, &batch, closed, planned, output),
        Err(_) => output.fail(),
    }
}

/// What the checker says of a plan for a batch.
fn show_verdict<A: Allocator + Copy>(
    heap: A,
    batch: &Batch<A>,
    closed: &Closed<A>,
    planned: &Planned<A>,
    output: &mut Output,
) {
    if batch.is_sound() {
        match check(heap, batch, closed, &planned.plan, &planned.shortage) {
            Ok(Verdict::Least(rounds)) => output.pair("least", rounds),
            Ok(Verdict::Refused(refusal)) => output.refusal(&refusal),
            Err(_) => output.fail(),
        }
    } else {
        output.word("unsound");
    }
}

/// Plans pages as the array holds them, and admits nothing.
pub(crate) fn plan_pages<'a, M: Map>(
    array: &Array<M, &'a Heap>,
    tools: &mut Tools<'a>,
    numbers: &[u64],
) {
    let heap = tools.heap();
    match array.closed(heap) {
        Ok(closed) => plan_against(array, heap, &closed, tools, numbers),
        Err(_) => tools.output.fail(),
    }
}

/// Plans pages as the array holds them against closed rounds.
fn plan_against<M: Map, A: Allocator + Copy>(
    array: &Array<M, A>,
    heap: A,
    closed: &Closed<A>,
    tools: &mut Tools<'_>,
    numbers: &[u64],
) {
    match held_pages(array, heap, numbers) {
        Ok(batch) => plan_held(heap, &batch, closed, tools),
        Err(_) => tools.output.fail(),
    }
}

/// Plans pages against closed rounds, if they are a batch.
fn plan_held<R: Rounds, A: Allocator + Copy>(
    heap: A,
    batch: &Batch<A>,
    rounds: &R,
    tools: &mut Tools<'_>,
) {
    if batch.is_sound() && rounds.now().0 <= LAST_ROUND {
        plan_batch(heap, batch, rounds, tools);
    } else {
        tools.output.word("unsound");
    }
}

/// Plans a batch against closed rounds.
fn plan_batch<R: Rounds, A: Allocator + Copy>(
    heap: A,
    batch: &Batch<A>,
    rounds: &R,
    tools: &mut Tools<'_>,
)
    requires sound { IsSound batch.now }
    requires early { R.current rounds.now ≤ 2 ^ 56 - 2 ^ 24 }
{
    let start = tools.meter.start();
    let planned = plan(heap, batch, rounds);
    tools.meter.stop(start);
    show_plan_rounds(&planned, &mut tools.output);
}

/// Tells how many rounds a plan has.
fn show_plan_rounds<A: Allocator>(planned: &Result<Planned<A>, AllocError>, output: &mut Output) {
    match planned {
        Ok(planned) => output.pair("rounds", planned.rounds),
        Err(error) => output.refusal(error),
    }
}

/// The pages of a plan, each with the dies that hold it. The error is out of memory.
fn held_places<M: Map, A: Allocator + Copy>(
    array: &Array<M, A>,
    heap: A,
    places: &[Place],
) -> Result<Batch<A>, AllocError> {
    let mut batch = Batch::new(heap);
    for place in places {
        hold(array, heap, place.page, &mut batch)?;
    }
    Ok(batch)
}

/// The pages of these numbers, each with the dies that hold it. The error is out of memory.
fn held_pages<M: Map, A: Allocator + Copy>(
    array: &Array<M, A>,
    heap: A,
    numbers: &[u64],
) -> Result<Batch<A>, AllocError> {
    let mut batch = Batch::new(heap);
    for number in numbers {
        hold(array, heap, Page(*number), &mut batch)?;
    }
    Ok(batch)
}

/// Puts a page into a batch, with the dies that hold it. The error is out of memory.
fn hold<M: Map, A: Allocator + Copy>(
    array: &Array<M, A>,
    heap: A,
    page: Page,
    batch: &mut Batch<A>,
) -> Result<(), AllocError> {
    let dies = holders(array, heap, page)?;
    batch.push(page, dies.as_slice())
}

/// The dies that hold a page. The error is out of memory.
fn holders<M: Map, A: Allocator + Copy>(
    array: &Array<M, A>,
    heap: A,
    page: Page,
) -> Result<Vec<Die, A>, AllocError> {
    let mut dies = Vec::new(heap);
    for die in 0..MAX_DIES {
        let die = Die(die as u8);
        if copy_seen(array, page, die).is_some() {
            dies.push(die)?;
        }
    }
    Ok(dies)
}
