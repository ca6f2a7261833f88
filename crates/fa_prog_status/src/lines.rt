//! The same in lines, for a terminal.
use crate::document::ADVICE;
use crate::pages::PageStatus;
use crate::parts::push_parts;
use crate::rates::{Rates, Sample};
use crate::status::{DieStatus, FaultStatus, StateCounts, Status};
use fa_prog_host::printing::push_number;
use std::alloc::{AllocError, Global};

/// How many faults are told, the newest ones.
const TOLD_FAULTS: usize = 8;

/// The lines of an array. The error is out of memory.
pub fn lines_text(
    global: Global,
    status: &Status<'_>,
    pages: &PageStatus,
    rates: &Rates,
) -> Result<String, AllocError> {
    let mut out = String::new(global);
    push_lines(&mut out, status, pages, rates.newest())?;
    Ok(out)
}

/// Adds the lines of an array that had this last second.
fn push_lines(
    out: &mut String,
    status: &Status<'_>,
    pages: &PageStatus,
    last: Sample,
) -> Result<(), AllocError> {
    push_dies(out, status)?;
    push_pages(out, pages)?;
    push_plans(out, status)?;
    push_load(out, status, last)?;
    for die in &status.dies {
        push_die(out, die)?;
    }
    for range in &pages.lost {
        push_pairs(out, "lost", &[("from", range.first), ("to", range.last)])?;
    }
    let told = status.faults.len().saturating_sub(TOLD_FAULTS);
    for fault in status.faults.get(told..).unwrap_or(&[]) {
        push_fault(out, fault)?;
    }
    Ok(())
}

/// Adds how many dies stand how, the epoch and the round.
fn push_dies(out: &mut String, status: &Status<'_>) -> Result<(), AllocError> {
    let counts = StateCounts::of(status.dies.as_slice());
    let dies = [
        ("dies", status.dies.len() as u64),
        ("live", counts.live),
        ("out", counts.out),
        ("spare", counts.spare),
        ("missing", counts.missing),
        ("behind", counts.behind),
    ];
    push_pairs(out, "", &dies)?;
    push_pairs(out, "", &[("epoch", status.epoch), ("round", status.round)])
}

/// Adds how many pages there are of each sort, and the copies that are still to be made.
fn push_pages(out: &mut String, pages: &PageStatus) -> Result<(), AllocError> {
    let counts = pages.counts;
    let written = [
        ("written", counts.written),
        ("thin", counts.thin),
        ("lost", counts.lost),
    ];
    push_pairs(out, "", &written)?;
    let left = counts.wanted.saturating_sub(counts.made);
    push_pairs(out, "copies", &[("made", counts.made), ("to make", left)])
}

/// Adds what the plans of batches came to.
fn push_plans(out: &mut String, status: &Status<'_>) -> Result<(), AllocError> {
    let plans = status.plans;
    let numbers = [
        ("batches", plans.batches),
        ("pages", plans.pages),
        ("rounds", plans.rounds),
        ("naive", plans.naive_rounds),
    ];
    push_pairs(out, "plans", &numbers)?;
    push_pairs(out, "plan file", &status.plan_file.numbers())
}

/// Adds how many clients there are, and what they asked for in the last second.
fn push_load(out: &mut String, status: &Status<'_>, last: Sample) -> Result<(), AllocError> {
    push_pairs(out, "", &[("clients", status.clients)])?;
    let load = [
        ("reads", last.reads),
        ("writes", last.writes),
        ("bytes read", last.read_bytes),
        ("bytes written", last.written_bytes),
    ];
    push_pairs(out, "last second", &load)
}

/// Adds a die.
fn push_die(out: &mut String, die: &DieStatus<'_>) -> Result<(), AllocError> {
    push_after(out, "die", u64::from(die.die.0))?;
    out.push(' ')?;
    out.push_str(die.state.name())?;
    if die.is_behind {
        out.push_str(" behind")?;
    }
    if let Some(slots) = die.slots {
        push_all_after(out, &slots.numbers())?;
    }
    if let Some(milliseconds) = die.slow {
        push_all_after(out, &[("call for milliseconds", milliseconds)])?;
    }
    if let Some(path) = die.path {
        out.push(' ')?;
        out.push_str(path)?;
    }
    out.push('\n')
}

/// Adds a fault: which die went out when and why, and what is to be done.
fn push_fault(out: &mut String, fault: &FaultStatus) -> Result<(), AllocError> {
    let numbers = [("cause", u64::from(fault.cause)), ("round", fault.round)];
    push_after(out, "fault die", u64::from(fault.die.0))?;
    push_all_after(out, &numbers)?;
    push_parts(out, &[": ", &fault.words, "; ", ADVICE, "\n"])
}

/// Adds a line: a word, if there is one, and numbers behind their names.
fn push_pairs(out: &mut String, word: &str, pairs: &[(&str, u64)]) -> Result<(), AllocError> {
    out.push_str(word)?;
    for (name, number) in pairs {
        if !out.is_empty() && !out.ends_with('\n') {
            out.push(' ')?;
        }
        push_after(out, name, *number)?;
    }
    out.push('\n')
}

/// Adds numbers behind their names, with a space before each.
fn push_all_after(out: &mut String, pairs: &[(&str, u64)]) -> Result<(), AllocError> {
    for (name, number) in pairs {
        out.push(' ')?;
        push_after(out, name, *number)?;
    }
    Ok(())
}

/// Adds a number behind its name.
fn push_after(out: &mut String, name: &str, number: u64) -> Result<(), AllocError> {
    out.push_str(name)?;
    out.push(' ')?;
    push_number(out, number)
}
