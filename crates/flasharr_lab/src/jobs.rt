//! The jobs of an array's dies: they are taken and ended.
ghost use Rattle.fa_core.specs.Array.{IsWhole};

use crate::making::step;
use fa_core::{Array, Outcome};
use fa_image::Image;
use fa_map_calls::Map;
use fa_mount::MountedArray;
use fa_types::Die;
use flasharr_lab_lines::{
    Desk, Flying, Lent, done_of, is_done, job_of_take, keep_buffer, keep_job, make_calls,
    outcome_of, show_outcome, show_short, take_of,
};
use flasharr_lab_parts::{Heap, Tools};
use flasharr_lab_words::{Ending, MAX_DIES, die_of, number_at};

/// A die takes its next job, and it is told.
pub(crate) fn take<'a, M: Map>(
    array: &mut Array<M, &'a Heap>,
    tools: &mut Tools<'a>,
    desk: &mut Desk<'a>,
    die: Die,
)
    requires { IsWhole M.view array.old }
    ensures { IsWhole M.view array.new }
{
    let heap = tools.heap();
    let geometry = array.geometry();
    let number = array.array_id();
    let answer = step(array, &mut tools.meter, take_of(die, &heap));
    show_short(&answer, &mut tools.output);
    keep_job(
        tools,
        desk,
        job_of_take(die, geometry, number, answer),
        geometry.page_bytes,
    );
}

/// Ends the job of a die as a line says, and tells the answer.
pub(crate) fn end_by_word<'a, M: Map>(
    array: &mut Array<M, &'a Heap>,
    tools: &mut Tools<'a>,
    desk: &mut Desk<'a>,
    ending: Ending,
    numbers: &[u64],
)
    requires { IsWhole M.view array.old }
    ensures { IsWhole M.view array.new }
{
    let heap = tools.heap();
    let die = die_of(number_at(numbers, 0));
    let outcome = outcome_of(die, desk.records.flight(die), ending);
    let page_bytes = array.geometry().page_bytes;
    match desk.lent.page(heap, number_at(numbers, 1), page_bytes) {
        Ok(page) => {
            if end(array, tools, &mut desk.lent, die, outcome, page) {
                tools.output.word("done");
                let _ = desk.jobs.land(die);
            } else {
                tools.output.word("stranger");
            }
        }
        Err(_) => tools.output.fail(),
    }
}

/// Ends the job that a die has taken by what its calls came to, and tells that. Whether there was one.
pub(crate) fn run_job_of<'a, M: Map + Drop, I: Image>(
    mounted: &mut MountedArray<M, &'a Heap>,
    images: &mut [I],
    tools: &mut Tools<'a>,
    desk: &mut Desk<'a>,
    die: Die,
) -> bool
    requires { IsWhole M.view mounted.old.array }
    ensures { IsWhole M.view mounted.new.array }
{
    match desk.jobs.land(die) {
        Some(flying) => {
            let place = mounted.image_of(die);
            run_landed(
                &mut mounted.array,
                place,
                images,
                tools,
                &mut desk.lent,
                flying,
            );
            true
        }
        None => {
            tools.output.word("no job");
            false
        }
    }
}

/// Makes the calls of a job where they were not made yet, and ends it, and tells that.
fn run_landed<'a, M: Map, I: Image>(
    array: &mut Array<M, &'a Heap>,
    place: Option<usize>,
    images: &mut [I],
    tools: &mut Tools<'a>,
    lent: &mut Lent<'a>,
    flying: Flying<'a>,
)
    requires { IsWhole M.view array.old }
    ensures { IsWhole M.view array.new }
{
    let mut flying = flying;
    make_calls(&mut flying, place, images, lent, &mut tools.meter);
    tools.output.word("done");
    show_outcome(&flying, &mut tools.output);
    let Flying {
        taken,
        buffer,
        outcome,
    } = flying;
    let outcome = outcome.unwrap_or(Outcome::Wrong);
    if !end(array, tools, lent, taken.die(), outcome, buffer) {
        tools.output.word("stranger");
    }
}

/// Ends a die's job so, and keeps the buffer that comes back. Whether the array had that job.
fn end<'a, M: Map>(
    array: &mut Array<M, &'a Heap>,
    tools: &mut Tools<'a>,
    lent: &mut Lent<'a>,
    die: Die,
    outcome: Outcome,
    buffer: Vec<u8, &'a Heap>,
) -> bool
    requires { IsWhole M.view array.old }
    ensures { IsWhole M.view array.new }
{
    let heap = tools.heap();
    let answer = step(
        array,
        &mut tools.meter,
        done_of(die, outcome, buffer, &heap),
    );
    let is_done = is_done(&answer);
    keep_buffer(answer, tools, lent);
    is_done
}

/// Each die that has a job takes it, makes its calls and ends it. How many were taken.
pub(crate) fn work_all<'a, M: Map + Drop, I: Image>(
    mounted: &mut MountedArray<M, &'a Heap>,
    images: &mut [I],
    tools: &mut Tools<'a>,
    desk: &mut Desk<'a>,
) -> u64
    requires { IsWhole M.view mounted.old.array }
    ensures { IsWhole M.view mounted.new.array }
{
    let mut count = 0u64;
    for die in 0..MAX_DIES {
        let die = Die(die as u8);
        count = count.saturating_add(work_one(mounted, images, tools, desk, die));
    }
    count
}

/// A die that has a job takes it, makes its calls and ends it, and nothing of that is told. How many jobs it was.
fn work_one<'a, M: Map + Drop, I: Image>(
    mounted: &mut MountedArray<M, &'a Heap>,
    images: &mut [I],
    tools: &mut Tools<'a>,
    desk: &mut Desk<'a>,
    die: Die,
) -> u64
    requires { IsWhole M.view mounted.old.array }
    ensures { IsWhole M.view mounted.new.array }
{
    if !mounted.array.is_die(die) || !mounted.array.has_job(die) {
        return 0;
    }
    take(&mut mounted.array, tools, desk, die);
    let is_run = run_job_of(mounted, images, tools, desk, die);
    tools.output.begin();
    u64::from(is_run)
}
