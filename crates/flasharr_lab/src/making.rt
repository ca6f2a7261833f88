//! An event that is made.
ghost use Rattle.fa_core.specs.Array.{IsWhole, number_of, state_of};
ghost use Rattle.fa_core_calls.specs.Calls.{FitsAnswer};

use crate::answers::show_answer;
use crate::jobs::{end_by_word, take};
use fa_core::{Answer, Array, Call};
use fa_map_calls::Map;
use flasharr_lab_lines::{Desk, Lent, Records, call_of};
use flasharr_lab_parts::{Heap, Meter, Tools};
use flasharr_lab_words::{Event, die_of, number_at};

/// Who makes all events.
const SEAT: u32 = 0;

/// Makes an event, and tells its answer.
pub(crate) fn run_event<'a, M: Map>(
    array: &mut Array<M, &'a Heap>,
    tools: &mut Tools<'a>,
    desk: &mut Desk<'a>,
    event: Event,
    numbers: &[u64],
)
    requires { IsWhole M.view array.old }
    ensures { IsWhole M.view array.new }
{
    match event {
        Event::Take => take(array, tools, desk, die_of(number_at(numbers, 0))),
        Event::Done(ending) => end_by_word(array, tools, desk, ending, numbers),
        _ => lend_and_make(array, tools, desk, event, numbers),
    }
}

/// Makes an event that is no job's, and tells its answer.
fn lend_and_make<'a, M: Map>(
    array: &mut Array<M, &'a Heap>,
    tools: &mut Tools<'a>,
    desk: &mut Desk<'a>,
    event: Event,
    numbers: &[u64],
)
    requires { IsWhole M.view array.old }
    ensures { IsWhole M.view array.new }
{
    let heap = tools.heap();
    let page_bytes = array.geometry().page_bytes;
    match desk.lent.lend(heap, event, numbers, page_bytes) {
        Ok(()) => make_event(array, tools, &mut desk.records, &desk.lent, event, numbers),
        Err(_) => tools.output.fail(),
    }
}

/// Makes an event with what it is lent, and tells its answer. What the answer hands out is given back to the array where its line is timed,
/// as by who asks for the like again.
fn make_event<'a, M: Map>(
    array: &mut Array<M, &'a Heap>,
    tools: &mut Tools<'a>,
    records: &mut Records,
    lent: &Lent<'a>,
    event: Event,
    numbers: &[u64],
)
    requires { IsWhole M.view array.old }
    ensures { IsWhole M.view array.new }
{
    let answer = answer_of(
        array,
        &mut tools.meter,
        call_of(event, numbers, records, lent),
    );
    if records.keep(&answer).is_err() {
        tools.output.fail();
    }
    let batch = records.batch(number_at(numbers, 0));
    show_answer(
        array,
        tools.meter.heap,
        batch,
        &answer,
        records.last_batch(),
        &mut tools.output,
    );
    if tools.meter.is_timing() {
        give_back(array, answer);
    }
}

/// The answer to an event. Stranger where it was lent nothing that it needs.
fn answer_of<'a, M: Map>(
    array: &mut Array<M, &'a Heap>,
    meter: &mut Meter<'a>,
    call: Option<Call<'_, &'a Heap>>,
) -> Answer<&'a Heap>
    requires { IsWhole M.view array.old }
    ensures { IsWhole M.view array.new }
{
    match call {
        Some(call) => step(array, meter, call),
        None => Answer::Stranger(None),
    }
}

/// One event, which is timed.
pub(crate) fn step<'a, M: Map>(
    array: &mut Array<M, &'a Heap>,
    meter: &mut Meter<'a>,
    call: Call<'_, &'a Heap>,
) -> Answer<&'a Heap>
    requires { IsWhole M.view array.old }
    ensures whole { IsWhole M.view array.new }
    ensures fits { FitsAnswer (state_of M.view array.old).page_map.geometry (number_of array.old) call.entry result }
{
    let start = meter.start();
    let answer = array.step(meter.heap, SEAT, call);
    meter.stop(start);
    answer
}

/// Gives a plan or buffers back to the array.
fn give_back<'a, M: Map>(array: &mut Array<M, &'a Heap>, answer: Answer<&'a Heap>)
    requires { IsWhole M.view array.old }
    ensures { IsWhole M.view array.new }
{
    match answer {
        Answer::Admit(Ok(admitted)) => array.give_back_plan(admitted.planned),
        Answer::Replan(Ok(planned)) => array.give_back_plan(planned),
        Answer::EndBatch(pages) => array.give_back(pages),
        _ => {}
    }
}
