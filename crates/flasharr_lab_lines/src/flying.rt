//! The jobs that dies have taken: they are kept, made and told.
ghost use Rattle.std.specs.Prelude.{◌≡◌};
ghost use Rattle.fa_core_calls.specs.Calls.{FitsAnswer};

use crate::desk::Desk;
use crate::endings::{good_outcome, slot_read};
use crate::lent::Lent;
use crate::taken::{Taken, taken_of};
use fa_core_calls::{Answer, Call};
use fa_core_outcome::Outcome;
use fa_image::Image;
use fa_tag::Opened;
use fa_types::{Die, Geometry};
use flasharr_lab_parts::{Heap, Meter, Tools};
use flasharr_lab_words::{Output, call_word, show_content};
use std::alloc::{AllocError, Allocator, Global};

/// A job that a die has taken, with a page's bytes, and what its calls came to once they were made.
#[derive(Drop)]
pub struct Flying<'a> {
    pub taken: Taken<'a>,
    pub buffer: Vec<u8, &'a Heap>,
    pub outcome: Option<Outcome>,
}

/// The jobs that dies have taken and not ended.
#[derive(Drop)]
pub struct Jobs<'a> {
    flying: Vec<Flying<'a>>,
}

impl<'a> Jobs<'a> {
    pub(crate) fn new(alloc: Global) -> Jobs<'a> {
        Jobs {
            flying: Vec::new(alloc),
        }
    }

    /// No die has taken a job.
    pub(crate) fn forget(&mut self) {
        self.flying.clear();
    }

    /// The job that a die has taken, which is not kept here any more.
    pub fn land(&mut self, die: Die) -> Option<Flying<'a>> {
        let index = self.index_of(die);
        if index < self.flying.len() {
            Some(self.flying.remove(index))
        } else {
            None
        }
    }

    /// The job that a die has taken.
    fn flying_of(&mut self, die: Die) -> Option<&mut Flying<'a>> {
        let index = self.index_of(die);
        self.flying.get_mut(index)
    }

    /// The index of the job that a die has taken. Where there is none, how many there are.
    fn index_of(&self, die: Die) -> usize {
        let mut found = self.flying.len();
        for (index, flying) in self.flying.iter().enumerate() {
            if flying.taken.die() == die {
                found = index;
            }
        }
        found
    }

    /// A die has taken this job, in place of any before. The error is out of memory.
    fn start(&mut self, flying: Flying<'a>) -> Result<(), AllocError> {
        let _ = self.land(flying.taken.die());
        self.flying.push(flying)?;
        Ok(())
    }
}

/// Keeps a job that a die has taken, if it took one.
pub fn keep_job<'a>(
    tools: &mut Tools<'a>,
    desk: &mut Desk<'a>,
    taken: Option<Taken<'a>>,
    page_bytes: u32,
) {
    if let Some(taken) = taken {
        desk.records.keep_flight(taken.die(), taken.flight());
        if begin_job(tools.heap(), desk, taken, page_bytes).is_err() {
            tools.output.fail();
        }
    }
}

/// Keeps a job with a buffer of its own. The error is out of memory.
fn begin_job<'a>(
    heap: &'a Heap,
    desk: &mut Desk<'a>,
    taken: Taken<'a>,
    page_bytes: u32,
) -> Result<(), AllocError> {
    let buffer = desk.lent.buffer(heap, page_bytes)?;
    desk.jobs.start(Flying {
        taken,
        buffer,
        outcome: None,
    })
}

/// The Take of a die, which lives as long as any borrow of the heap.
pub fn take_of<A: Allocator>(die: Die, _heap: &A) -> Call<'_, A>
    ensures { result ≡ Call.Take die }
{
    Call::Take(die)
}

/// The job that a Take handed out, if one was.
pub fn job_of_take<'a>(
    die: Die,
    geometry: Geometry,
    number: [u8; 16],
    answer: Answer<&'a Heap>,
) -> Option<Taken<'a>>
    requires { FitsAnswer geometry number (Call.Take die) answer }
{
    match answer {
        Answer::Take(Some(job)) => Some(taken_of(die, geometry, number, job)),
        _ => None,
    }
}

/// Makes the calls of the job that a die has taken on the image at a place, and tells what came of them.
pub fn make_job<'a, I: Image>(
    place: Option<usize>,
    images: &mut [I],
    tools: &mut Tools<'a>,
    desk: &mut Desk<'a>,
    die: Die,
) {
    match desk.jobs.flying_of(die) {
        Some(flying) => {
            make_calls(flying, place, images, &mut desk.lent, &mut tools.meter);
            tools.output.word("made");
            show_outcome(flying, &mut tools.output);
        }
        None => tools.output.word("no job"),
    }
}

/// Makes the calls of a job where they were not made yet.
pub fn make_calls<'a, I: Image>(
    flying: &mut Flying<'a>,
    place: Option<usize>,
    images: &mut [I],
    lent: &mut Lent<'a>,
    meter: &mut Meter<'a>,
) {
    if flying.outcome.is_none() {
        if let Some(scratch) = lent.scratch(meter.heap, flying.buffer.len()) {
            let start = meter.start();
            let outcome = outcome_of_calls(
                &flying.taken,
                place,
                images,
                scratch,
                &mut flying.buffer,
            );
            meter.stop(start);
            flying.outcome = Some(outcome);
        }
    }
}

/// How a job ended of which the calls are made now on the image at a place. Of an array without images each ends well.
fn outcome_of_calls<'a, I: Image>(
    taken: &Taken<'a>,
    place: Option<usize>,
    images: &mut [I],
    scratch: &mut Vec<u8, &'a Heap>,
    buffer: &mut Vec<u8, &'a Heap>,
) -> Outcome {
    if images.is_empty() {
        return good_outcome(taken.die(), taken.flight());
    }
    match images.get_mut(place.unwrap_or(usize::MAX)) {
        Some(image) => taken.run(image, scratch, buffer),
        None => Outcome::Wrong,
    }
}

/// Whether a Done was made.
pub fn is_done<A: Allocator>(answer: &Answer<A>) -> bool {
    matches!(answer, Answer::Done(_))
}

/// The buffer that the answer to a Done gives back.
fn buffer_back<'a>(answer: Answer<&'a Heap>) -> Option<Vec<u8, &'a Heap>> {
    match answer {
        Answer::Done(buffer) | Answer::Stranger(Some(buffer)) => Some(buffer),
        _ => None,
    }
}

/// Keeps the buffer that the answer to a Done gives back.
pub fn keep_buffer<'a>(answer: Answer<&'a Heap>, tools: &mut Tools<'a>, lent: &mut Lent<'a>) {
    if let Some(buffer) = buffer_back(answer) {
        if lent.keep(buffer).is_err() {
            tools.output.fail();
        }
    }
}

/// The Done of a die, which lives as long as any borrow of the heap.
pub fn done_of<A: Allocator>(
    die: Die,
    outcome: Outcome,
    buffer: Vec<u8, A>,
    _heap: &A,
) -> Call<'_, A> {
    Call::Done(die, outcome, buffer)
}

/// Tells how the calls of a job ended. What a read gave is in the buffer.
pub fn show_outcome(flying: &Flying<'_>, output: &mut Output) {
    match flying.outcome {
        Some(Outcome::Read(Opened::Good(tag))) => {
            let asked = slot_read(flying.taken.die(), Some(flying.taken.flight()), 0);
            let word = if asked == Opened::Good(tag) {
                "data"
            } else {
                "other"
            };
            show_content(word, flying.buffer.as_slice(), output);
        }
        Some(outcome) => show_ended(outcome, output),
        None => output.word("nothing"),
    }
}

/// Tells how calls ended that gave no good slot.
fn show_ended(outcome: Outcome, output: &mut Output) {
    match outcome {
        Outcome::Read(Opened::Erased) => output.word("erased"),
        Outcome::Read(_) => output.word("bad"),
        Outcome::Wrong => output.word("wrong"),
        Outcome::Fault(fault) => {
            output.word("fault");
            output.word(call_word(fault));
        }
        _ => output.word("ok"),
    }
}
