//! The command `plan`.
ghost use Rattle.std.specs.Prelude.{◌≡◌, ◌⊎◌, IfOk, IfErr, string_bytes};
ghost use Rattle.fa_io.specs.Streams.{between};
ghost use Rattle.fa_prog_host.specs.Printing.{TellsNoMemory};
ghost use Rattle.fa_prog_text.specs.Plan.{IsPlanFault, IsPlanText, RunsPlan, TellsPlan};

use crate::input::read_input;
use crate::output::refuse_input;
use crate::verify::{Judged, told};
use fa_batch_terms::Unsound;
use fa_prog_host::printing::{DONE, FAULTY, print, refuse_for_memory};
use fa_texts::{TextError, read_batch};
use std::alloc::{AllocError, Allocator};
use std::io::{Read, Write};

/// Why there is no plan.
enum PlanFault {
    /// This line is the first that is wrong.
    Line(u64),
    /// The batch is not sound.
    Unsound(Unsound),
    /// Memory was refused.
    NoMemory,
}

impl From<AllocError> for PlanFault {
    ghost use Rattle.std.specs.Prelude.{◌≡◌};
    ghost use Rattle.fa_prog_text.specs.declared.plan.PlanFault.TheVariants.{NoMemory};

    ghost from_gives = { λ _ e. e ≡ NoMemory };

    fn from(_error: AllocError) -> PlanFault {
        PlanFault::NoMemory
    }
}

/// The command `plan`: reads a batch text and prints the text of a plan that no plan beats, with what
/// shows it, or else the first line that is wrong, or what makes the batch unsound.
pub fn run_plan<R: Read, W: Write, A: Allocator + Copy>(
    alloc: A,
    input: &mut R,
    output: &mut W,
) -> u8
    ensures { let streams = between (R.remaining input.old) (R.remaining input.new) (W.contents output.old) (W.contents output.new) in
        RunsPlan streams result }
{
    match read_input(alloc, input) {
        Ok(text) => tell_plan(alloc, &text, output),
        Err(kind) => refuse_input(output, kind, b"plan: cannot read\n"),
    }
}

/// Prints what comes of a text.
fn tell_plan<W: Write, A: Allocator + Copy>(alloc: A, text: &[u8], output: &mut W) -> u8
    ensures { TellsPlan text.now (W.contents output.old) (W.contents output.new) result
        ⊎ TellsNoMemory (W.contents output.old) (W.contents output.new) result }
{
    let judged = match plan_text(alloc, text) {
        Ok(out) => return print(output, DONE, out.as_bytes()),
        Err(PlanFault::Line(line)) => Judged::Line(line),
        Err(PlanFault::Unsound(unsound)) => Judged::Unsound(unsound),
        Err(PlanFault::NoMemory) => return refuse_for_memory(output),
    };
    match told(alloc, &judged) {
        Ok(line) => print(output, FAULTY, line.as_bytes()),
        Err(AllocError) => refuse_for_memory(output),
    }
}

/// The text of the plan of the batch that a text says, which ends with its last line.
fn plan_text<A: Allocator + Copy>(alloc: A, text: &[u8]) -> Result<String<A>, PlanFault>
    ensures text { IfOk result (λ out. IsPlanText text.now (string_bytes out)) }
    ensures fault { IfErr result (IsPlanFault text.now) }
{
    let found = match read_batch(alloc, text) {
        Ok(found) => found,
        Err(TextError::Line(line)) => return Err(PlanFault::Line(line)),
        Err(TextError::NoMemory) => return Err(PlanFault::NoMemory),
    };
    if !found.rest.is_empty() {
        return Err(PlanFault::Line(found.line));
    }
    if let Some(unsound) = found.batch.unsound() {
        return Err(PlanFault::Unsound(unsound));
    }
    let planned = fa_plan::plan(alloc, &found.batch, &found.closed)?;
    let out = fa_texts::print(alloc, &planned.plan, &planned.shortage)?;
    Ok(out)
}
