//! Batches of texts that are planned, and the checks of their plans.
ghost use Rattle.std.specs.Prelude.{◌-◌, ◌^◌, ◌≤◌};
ghost use Rattle.fa_batch_terms.specs.Batch.{IsSound};

use fa_batch::Batch;
use fa_cert::{Verdict, check};
use fa_plan::{Planned, plan};
use fa_texts::read_batch;
use fa_types::Rounds;
use flasharr_lab_parts::Tools;
use flasharr_lab_words::Output;
use std::alloc::{AllocError, Global};

/// Plans the batch of a text, whose lines are parted by `/`, and checks the plan, and tells what came of it. Either the plan is timed or
/// the check.
pub(crate) fn plan_text(text: &str, tools: &mut Tools<'_>, is_check_timed: bool) {
    match lines_of(tools.alloc, text) {
        Ok(lines) => plan_lines(lines.as_slice(), tools, is_check_timed),
        Err(_) => tools.output.fail(),
    }
}

/// The lines of a text. The error is out of memory.
fn lines_of(alloc: Global, text: &str) -> Result<Vec<u8>, AllocError> {
    let mut lines = Vec::from_slice(alloc, text.as_bytes())?;
    for byte in lines.iter_mut() {
        if *byte == b'/' {
            *byte = b'\n';
        }
    }
    Ok(lines)
}

/// Plans the batch of these lines.
fn plan_lines(lines: &[u8], tools: &mut Tools<'_>, is_check_timed: bool) {
    match read_batch(tools.alloc, lines) {
        Ok(found) => plan_found(&found.batch, &found.closed, tools, is_check_timed),
        Err(_) => tools.output.word("no batch"),
    }
}

/// Plans a batch against closed rounds, if it is sound.
fn plan_found<R: Rounds>(batch: &Batch, rounds: &R, tools: &mut Tools<'_>, is_check_timed: bool)
    requires { R.current rounds.now ≤ 2 ^ 56 - 2 ^ 24 }
{
    if !batch.is_sound() {
        tools.output.word("unsound");
    } else if is_check_timed {
        check_timed(batch, rounds, tools);
    } else {
        plan_timed(batch, rounds, tools);
    }
}

/// Plans a batch, of which the plan is timed.
fn plan_timed<R: Rounds>(batch: &Batch, rounds: &R, tools: &mut Tools<'_>)
    requires sound { IsSound batch.now }
    requires early { R.current rounds.now ≤ 2 ^ 56 - 2 ^ 24 }
{
    let start = tools.meter.start();
    let planned = plan(tools.alloc, batch, rounds);
    tools.meter.stop(start);
    match planned {
        Ok(planned) => {
            let verdict = check(tools.alloc, batch, rounds, &planned.plan, &planned.shortage);
            show_checked(&planned, verdict, &mut tools.output);
        }
        Err(_) => tools.output.fail(),
    }
}

/// Plans a batch, of which the check of the plan is timed.
fn check_timed<R: Rounds>(batch: &Batch, rounds: &R, tools: &mut Tools<'_>)
    requires sound { IsSound batch.now }
    requires early { R.current rounds.now ≤ 2 ^ 56 - 2 ^ 24 }
{
    match plan(tools.alloc, batch, rounds) {
        Ok(planned) => {
            let start = tools.meter.start();
            let verdict = check(tools.alloc, batch, rounds, &planned.plan, &planned.shortage);
            tools.meter.stop(start);
            show_checked(&planned, verdict, &mut tools.output);
        }
        Err(_) => tools.output.fail(),
    }
}

/// Tells the verdict on a plan, and the searches and looks that it took.
fn show_checked(planned: &Planned, verdict: Result<Verdict, AllocError>, output: &mut Output) {
    match verdict {
        Ok(verdict) => {
            output.shown(&verdict);
            output.pair("searches", planned.searches);
            output.pair("looks", planned.looks);
        }
        Err(_) => output.fail(),
    }
}
