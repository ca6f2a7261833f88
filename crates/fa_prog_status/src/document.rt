//! What `/status.json` tells.
use crate::pages::PageStatus;
use crate::rates::{Rates, Sample};
use crate::status::{DieState, DieStatus, FaultStatus, StateCounts, Status};
use fa_prog_counts::{COMMANDS, ERRORS};
use serde::{Described, Serialize, Serializer};
use std::alloc::{AllocError, Global};

/// What is to be done where a die went out.
pub(crate) const ADVICE: &str = "replace it";

/// The document of an array. It borrows what it tells.
#[derive(Drop)]
struct Document<'a> {
    status: &'a Status<'a>,
    pages: &'a PageStatus,
    /// What was asked for in each of the last seconds.
    seconds: &'a [Sample],
}

/// The document of an array, on a line of its own. The error is out of memory.
pub fn document_text(
    global: Global,
    status: &Status<'_>,
    pages: &PageStatus,
    rates: &Rates,
) -> Result<String, AllocError> {
    let document = Document {
        status,
        pages,
        seconds: rates.seconds(),
    };
    let Ok(mut text) = serde_json::to_string(global, &document) else {
        return Err(AllocError);
    };
    text.push('\n')?;
    Ok(text)
}

impl Described for Document<'_> {}

impl Serialize for Document<'_> {
    fn serialize<S: Serializer>(&self, out: &mut S) -> Result<(), S::Error> {
        out.begin_map(None)?;
        let counts = StateCounts::of(self.status.dies.as_slice());
        put_dies(out, self.status, counts, self.pages)?;
        put_faulty(out, self.status, counts, self.pages)?;
        put_lost(out, self.pages)?;
        put_plans(out, self.status)?;
        put_requests(out, self.status)?;
        put_faults(out, self.status.faults.as_slice())?;
        put_seconds(out, self.seconds)?;
        out.end_map()
    }
}

/// Numbers behind their names, as members of the object around them.
fn put_numbers<S: Serializer>(out: &mut S, numbers: &[(&str, u64)]) -> Result<(), S::Error> {
    for (name, number) in numbers {
        out.key(name)?;
        out.u64(*number)?;
    }
    Ok(())
}

/// An object of numbers behind their names.
fn put_object<S: Serializer>(out: &mut S, numbers: &[(&str, u64)]) -> Result<(), S::Error> {
    out.begin_map(Some(numbers.len()))?;
    put_numbers(out, numbers)?;
    out.end_map()
}

/// A member that is a number, or null.
fn put_option<S: Serializer>(out: &mut S, name: &str, number: Option<u64>) -> Result<(), S::Error> {
    out.key(name)?;
    match number {
        Some(number) => out.u64(number),
        None => out.unit(),
    }
}

/// A member that is a text.
fn put_text<S: Serializer>(out: &mut S, name: &str, text: &str) -> Result<(), S::Error> {
    out.key(name)?;
    out.str(text)
}

/// A member that is true or false.
fn put_flag<S: Serializer>(out: &mut S, name: &str, flag: bool) -> Result<(), S::Error> {
    out.key(name)?;
    out.bool(flag)
}

/// A member that is a list begins.
fn begin_list<S: Serializer>(out: &mut S, name: &str, count: usize) -> Result<(), S::Error> {
    out.key(name)?;
    out.begin_seq(Some(count))
}

/// How many dies there are, how many of them are in use and spares, the epoch, the pages that were written, and the table of the dies.
fn put_dies<S: Serializer>(
    out: &mut S,
    status: &Status<'_>,
    counts: StateCounts,
    pages: &PageStatus,
) -> Result<(), S::Error> {
    let dies = [
        ("dies", status.dies.len() as u64),
        ("live", counts.live),
        ("spare", counts.spare),
        ("epoch", status.epoch),
    ];
    put_numbers(out, &dies)?;
    put_flag(out, "clean", false)?;
    let written = [
        ("written", pages.counts.written),
        ("thin", pages.counts.thin),
    ];
    put_numbers(out, &written)?;
    begin_list(out, "table", status.dies.len())?;
    for die in &status.dies {
        put_die(out, die, status.epoch)?;
    }
    out.end_seq()
}

/// The row of a die, of an array of this epoch.
fn put_die<S: Serializer>(out: &mut S, die: &DieStatus<'_>, epoch: u64) -> Result<(), S::Error> {
    out.begin_map(None)?;
    put_numbers(out, &[("die", u64::from(die.die.0))])?;
    out.key("path")?;
    match die.path {
        Some(path) => out.str(path)?,
        None => out.unit()?,
    }
    put_text(out, "state", die.state.name())?;
    put_header(out, die, epoch)?;
    put_slots(out, die)?;
    put_flag(out, "behind", die.is_behind)?;
    let [reads, programs, moves, erases, headers, syncs] = die.calls;
    let calls = [
        ("reads", reads),
        ("programs", programs),
        ("moves", moves),
        ("erases", erases),
        ("headers", headers),
        ("syncs", syncs),
    ];
    put_numbers(out, &calls)?;
    put_option(out, "slow_milliseconds", die.slow)?;
    out.end_map()
}

/// What a die's header tells. It is known alone of one that was written in this epoch.
fn put_header<S: Serializer>(out: &mut S, die: &DieStatus<'_>, epoch: u64) -> Result<(), S::Error> {
    if matches!(die.state, DieState::Live) && !die.is_behind {
        put_numbers(out, &[("epoch", epoch)])?;
        put_flag(out, "clean", false)
    } else {
        put_option(out, "epoch", None)?;
        put_option(out, "clean", None)
    }
}

/// How many slots of a die are in each state, where they are counted.
fn put_slots<S: Serializer>(out: &mut S, die: &DieStatus<'_>) -> Result<(), S::Error> {
    match die.slots {
        Some(slots) => put_numbers(out, &slots.numbers()),
        None => {
            put_option(out, "erased", None)?;
            put_option(out, "current", None)?;
            put_option(out, "stale", None)
        }
    }
}

/// How many dies are out, have no image or a header of another epoch, the round, and how many pages are lost.
fn put_faulty<S: Serializer>(
    out: &mut S,
    status: &Status<'_>,
    counts: StateCounts,
    pages: &PageStatus,
) -> Result<(), S::Error> {
    let faulty = [
        ("out", counts.out),
        ("missing", counts.missing),
        ("behind", counts.behind),
        ("round", status.round),
        ("lost", pages.counts.lost),
    ];
    put_numbers(out, &faulty)
}

/// Which pages are lost, and how many copies there could be and are.
fn put_lost<S: Serializer>(out: &mut S, pages: &PageStatus) -> Result<(), S::Error> {
    begin_list(out, "lost_ranges", pages.lost.len())?;
    for range in &pages.lost {
        put_object(out, &[("first", range.first), ("last", range.last)])?;
    }
    out.end_seq()?;
    put_flag(out, "lost_more", pages.has_more)?;
    out.key("copies")?;
    let copies = [("wanted", pages.counts.wanted), ("made", pages.counts.made)];
    put_object(out, &copies)
}

/// What the plans of batches came to, and what became of those that were to be written into a file.
fn put_plans<S: Serializer>(out: &mut S, status: &Status<'_>) -> Result<(), S::Error> {
    out.key("plans")?;
    out.begin_map(None)?;
    let plans = status.plans;
    let numbers = [
        ("batches", plans.batches),
        ("pages", plans.pages),
        ("rounds", plans.rounds),
        ("naive_rounds", plans.naive_rounds),
    ];
    put_numbers(out, &numbers)?;
    out.key("file")?;
    put_object(out, &status.plan_file.numbers())?;
    out.end_map()
}

/// The clients, their requests by command, and the errors, with how many requests were answered with each.
fn put_requests<S: Serializer>(out: &mut S, status: &Status<'_>) -> Result<(), S::Error> {
    let clients = [
        ("clients", status.clients),
        ("clients_total", status.totals.clients),
    ];
    put_numbers(out, &clients)?;
    begin_list(out, "requests", COMMANDS.len())?;
    for command in COMMANDS {
        let found = status.totals.of(command);
        out.begin_map(None)?;
        put_text(out, "command", command.name())?;
        let counts = [
            ("requests", found.requests),
            ("bytes", found.bytes),
            ("nanoseconds", found.nanoseconds),
        ];
        put_numbers(out, &counts)?;
        out.end_map()?;
    }
    out.end_seq()?;
    begin_list(out, "errors", ERRORS.len())?;
    for place in 0..ERRORS.len() {
        let error = u64::from(ERRORS[place]);
        let requests = status.totals.errors[place];
        put_object(out, &[("error", error), ("requests", requests)])?;
    }
    out.end_seq()
}

/// The faults that took dies out.
fn put_faults<S: Serializer>(out: &mut S, faults: &[FaultStatus]) -> Result<(), S::Error> {
    begin_list(out, "faults", faults.len())?;
    for fault in faults {
        put_fault(out, fault)?;
    }
    out.end_seq()
}

/// The row of a fault.
fn put_fault<S: Serializer>(out: &mut S, fault: &FaultStatus) -> Result<(), S::Error> {
    out.begin_map(None)?;
    let numbers = [
        ("die", u64::from(fault.die.0)),
        ("cause", u64::from(fault.cause)),
    ];
    put_numbers(out, &numbers)?;
    put_text(out, "words", &fault.words)?;
    put_numbers(out, &[("round", fault.round)])?;
    put_text(out, "advice", ADVICE)?;
    out.end_map()
}

/// What was asked for in each of the last seconds.
fn put_seconds<S: Serializer>(out: &mut S, seconds: &[Sample]) -> Result<(), S::Error> {
    begin_list(out, "seconds", seconds.len())?;
    for sample in seconds {
        let numbers = [
            ("reads", sample.reads),
            ("writes", sample.writes),
            ("read_bytes", sample.read_bytes),
            ("written_bytes", sample.written_bytes),
        ];
        put_object(out, &numbers)?;
    }
    out.end_seq()
}
