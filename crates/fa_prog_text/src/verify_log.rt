//! The command `verify --log`: each plan of a file of plans is checked.
ghost use Rattle.std.specs.Prelude.{◌≡◌, IfOk, string_bytes};
ghost use Rattle.std.specs.declared.io.ErrorKind.{ErrorKind};
ghost use Rattle.fa_prog_text.specs.VerifyLog.{AddsUp, GivesUpOnFile, TellsLog, checked_status, checked_text};

use crate::logged_plans::{Ended, LoggedPlans};
use crate::verify::{Judged, judge, told};
use fa_cert::Verdict;
use fa_prog_host::printing::{DONE, FAULTY, REFUSED, print, refuse_for_memory};
use fa_prog_host::{Host, complain_of_call, tell};
use std::alloc::{AllocError, Allocator};
use std::fs::File;
use std::io::{self, Eprint, ErrorKind, Read, Write};

/// What was counted of the plans of a file.
#[derive(Clone, Copy)]
pub(crate) struct Tally {
    /// How many plans there are.
    plans: u64,
    /// How many are accepted as least.
    least: u64,
    /// How many are refused.
    refused: u64,
    /// The rounds of the accepted ones together.
    rounds: u64,
}

/// What a file of plans comes to.
#[derive(Clone, Copy)]
pub(crate) enum Checked {
    /// This line is the first that is in no logged plan.
    Line(u64),
    /// Its plans come to this.
    Tally(Tally),
}

/// The command `verify --log`: checks each plan of the file of this path, and prints how many are least and how many
/// are refused, or else the first line that is in no logged plan. Which ones are refused, and that the file ends within
/// one, is told on standard error.
pub fn run_verify_log<H: Host, W: Write, A: Allocator + Copy>(
    rt: &H,
    alloc: A,
    path: &str,
    output: &mut W,
) -> u8
    ensures { TellsLog (W.contents output.old) (W.contents output.new) result }
{
    match checked_file(rt, alloc, path) {
        Ok(checked) => print_checked(alloc, checked, output),
        Err(refused) => {
            complain_of_call(rt, path, &refused, "give the path of a file of plans");
            refuse_file(refused.kind(), output)
        }
    }
}

/// What the file of this path comes to.
fn checked_file<H: Host, A: Allocator + Copy>(rt: &H, alloc: A, path: &str) -> io::Result<Checked>
    ensures { IfOk result AddsUp }
{
    let file = File::open(rt, path)?;
    let mut plans = LoggedPlans::new(alloc, file)?;
    check_plans(rt, alloc, path, &mut plans)
}

/// What these plans come to, of the file of this path. What is refused is told.
fn check_plans<E: Eprint, R: Read + Drop, A: Allocator + Copy>(
    rt: &E,
    alloc: A,
    path: &str,
    plans: &mut LoggedPlans<R, A>,
) -> io::Result<Checked>
    ensures { IfOk result AddsUp }
{
    let mut tally = Tally {
        plans: 0,
        least: 0,
        refused: 0,
        rounds: 0,
    };
    for number in 1..u64::MAX {
        let before = plans.lines();
        let ended = plans.read_next()?;
        if matches!(ended, Ended::Nothing) {
            break;
        }
        let judged = judge(alloc, plans.text())?;
        match (ended, &judged) {
            (Ended::Short, Judged::Line(line)) if before.saturating_add(*line) > plans.lines() => {
                tell_unended(rt, path, before.saturating_add(1));
                break;
            }
            (_, Judged::Line(line)) => return Ok(Checked::Line(before.saturating_add(*line))),
            (_, Judged::Verdict(Verdict::Least(rounds))) => {
                tally.plans += 1;
                tally.least += 1;
                tally.rounds = tally.rounds.saturating_add(*rounds);
            }
            (_, _) => {
                tell_refused(rt, alloc, path, (number, before.saturating_add(1)), &judged)?;
                tally.plans += 1;
                tally.refused += 1;
            }
        }
    }
    Ok(Checked::Tally(tally))
}

/// Tells which plan is refused: its number, the line at which it begins, and why.
fn tell_refused<E: Eprint, A: Allocator + Copy>(
    rt: &E,
    alloc: A,
    path: &str,
    (number, line): (u64, u64),
    judged: &Judged,
) -> Result<(), AllocError> {
    let words = told(alloc, judged)?;
    let words = words.trim_end();
    tell(
        rt,
        format_args!("{path}: plan {number} at line {line}: {words}"),
    );
    Ok(())
}

/// Tells that the file ends within a plan.
fn tell_unended<E: Eprint>(rt: &E, path: &str, line: u64) {
    tell(
        rt,
        format_args!("{path}: the file ends within the plan at line {line}, which is not counted"),
    );
}

/// Prints what a file comes to.
fn print_checked<W: Write, A: Allocator + Copy>(alloc: A, checked: Checked, output: &mut W) -> u8
    requires { AddsUp checked }
    ensures { TellsLog (W.contents output.old) (W.contents output.new) result }
{
    match checked_line(alloc, checked) {
        Ok(line) => print(output, status_of(checked), line.as_bytes()),
        Err(AllocError) => refuse_for_memory(output),
    }
}

/// The line that is printed.
#[tactic(auto, unfolding(crate::specs::VerifyLog::checked_text))]
fn checked_line<A: Allocator + Copy>(alloc: A, checked: Checked) -> Result<String<A>, AllocError>
    ensures { IfOk result (λ line. string_bytes line ≡ checked_text checked) }
{
    match checked {
        Checked::Line(line) => told(alloc, &Judged::Line(line)),
        Checked::Tally(tally) => tally_line(alloc, tally),
    }
}

/// The line that is printed of what was counted.
#[tactic(auto, unfolding(crate::specs::VerifyLog::checked_text))]
fn tally_line<A: Allocator + Copy>(alloc: A, tally: Tally) -> Result<String<A>, AllocError>
    ensures { IfOk result (λ line. string_bytes line ≡ checked_text (Checked.Tally tally)) }
{
    let plans = tally.plans;
    let least = tally.least;
    let refused = tally.refused;
    let rounds = tally.rounds;
    format!(in alloc; "plans {plans} least {least} refused {refused} rounds {rounds}\n")
}

/// The status with which a run ends that prints this.
fn status_of(checked: Checked) -> u8
    ensures { result ≡ checked_status checked }
{
    match checked {
        Checked::Line(_) => FAULTY,
        Checked::Tally(tally) if tally.refused == 0 => DONE,
        Checked::Tally(_) => REFUSED,
    }
}

/// Prints why a file of plans was not read to its end, by the kind of the error.
fn refuse_file<W: Write>(kind: ErrorKind, output: &mut W) -> u8
    ensures { GivesUpOnFile kind (W.contents output.old) (W.contents output.new) result }
{
    match kind {
        ErrorKind::OutOfMemory => refuse_for_memory(output),
        _ => print(output, FAULTY, b"plans: cannot read\n"),
    }
}
