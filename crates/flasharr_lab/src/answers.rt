//! What events are answered, in words.
ghost use Rattle.fa_core.specs.Array.{IsWhole};

use crate::certified::show_planned;
use fa_core::{Answer, Array};
use fa_machine::BatchId;
use fa_map_calls::Map;
use flasharr_lab_lines::show_short;
use flasharr_lab_words::{Output, show_admit_refused};
use std::alloc::Allocator;

/// Tells the answer of an event, of which this is the batch where it is a Replan. The last batch that was admitted has this number.
pub(crate) fn show_answer<M: Map, A: Allocator + Copy>(
    array: &Array<M, A>,
    heap: A,
    batch: BatchId,
    answer: &Answer<A>,
    last_batch: u64,
    output: &mut Output,
)
    requires { IsWhole M.view array.now }
{
    match answer {
        Answer::Admit(Ok(admitted)) => {
            output.pair("batch", last_batch);
            show_planned(array, heap, admitted.batch, &admitted.planned, output);
        }
        Answer::Replan(Ok(planned)) => show_planned(array, heap, batch, planned, output),
        Answer::Admit(Err(refused)) => show_admit_refused(*refused, output),
        Answer::Replan(Err(refused)) => show_admit_refused(*refused, output),
        _ => show_short(answer, output),
    }
}
