//! What `/metrics` tells, as Prometheus reads it.
ghost use Rattle.std.specs.Prelude.{◌≡◌, ◌++◌, [], OnOk, string_bytes};
ghost use Rattle.fa_prog_status.specs.Telling.{braces, head_lines, sample_line, word_label};

use crate::pages::PageStatus;
use crate::parts::{push_line, push_parts};
use crate::status::{StateCounts, Status};
use fa_prog_counts::{BUCKETS, CALLS, COMMANDS, Command, ERRORS, RequestTotals, bound_of};
use fa_prog_host::printing::push_number;
use fa_types::Die;
use std::alloc::{AllocError, Global};

/// How many nanoseconds a second has.
const NANOSECONDS: u64 = 1_000_000_000;

/// The metrics of an array. The error is out of memory.
pub fn metrics_text(
    global: Global,
    status: &Status<'_>,
    pages: &PageStatus,
) -> Result<String, AllocError> {
    let mut out = String::new(global);
    push_metrics(&mut out, status, pages)?;
    Ok(out)
}

/// Adds the metrics of an array.
fn push_metrics(
    out: &mut String,
    status: &Status<'_>,
    pages: &PageStatus,
) -> Result<(), AllocError> {
    push_array(out, status)?;
    push_plan_file(out, status)?;
    push_dies(out, status)?;
    push_pages(out, pages)?;
    push_slots(out, status)?;
    push_calls(out, status)?;
    push_errors(out, status)?;
    push_requests(out, status)?;
    push_latencies(out, status)
}

/// Adds the epoch, the rounds, the clients, and what the plans of batches came to.
fn push_array(out: &mut String, status: &Status<'_>) -> Result<(), AllocError> {
    let plans = status.plans;
    let metrics = [
        (
            "flasharr_epoch",
            "gauge",
            "How often the live dies have changed.",
            status.epoch,
        ),
        (
            "flasharr_rounds_total",
            "counter",
            "Rounds that have passed since the start.",
            status.round.saturating_sub(1),
        ),
        (
            "flasharr_clients",
            "gauge",
            "Clients that are served.",
            status.clients,
        ),
        (
            "flasharr_clients_total",
            "counter",
            "Clients that have come.",
            status.totals.clients,
        ),
        (
            "flasharr_planned_batches_total",
            "counter",
            "Batches of reads that were planned.",
            plans.batches,
        ),
        (
            "flasharr_planned_pages_total",
            "counter",
            "Their pages.",
            plans.pages,
        ),
        (
            "flasharr_planned_rounds_total",
            "counter",
            "The rounds that their plans take.",
            plans.rounds,
        ),
        (
            "flasharr_naive_rounds_total",
            "counter",
            "The rounds that they would have taken, had each page been read from its first holder.",
            plans.naive_rounds,
        ),
    ];
    for (name, kind, help, value) in &metrics {
        push_one(out, name, kind, help, *value)?;
    }
    Ok(())
}

/// Adds what became of the plans that were to be written into a file.
fn push_plan_file(out: &mut String, status: &Status<'_>) -> Result<(), AllocError> {
    let name = "flasharr_plan_file_total";
    let help = "Plans that were to be written into a file, by what became of them.";
    push_head(out, name, "counter", help)?;
    push_by_words(out, name, "end", &status.plan_file.numbers())
}

/// Adds how many dies stand how.
fn push_dies(out: &mut String, status: &Status<'_>) -> Result<(), AllocError> {
    let counts = StateCounts::of(status.dies.as_slice());
    let dies = [
        ("live", counts.live),
        ("out", counts.out),
        ("spare", counts.spare),
        ("missing", counts.missing),
        ("behind", counts.behind),
    ];
    let help = "Dies by how they stand; one that is behind is live too.";
    push_states(out, "flasharr_dies", help, &dies)
}

/// Adds how many pages and copies there are of each sort.
fn push_pages(out: &mut String, pages: &PageStatus) -> Result<(), AllocError> {
    let counts = pages.counts;
    let written = [
        ("written", counts.written),
        ("thin", counts.thin),
        ("lost", counts.lost),
    ];
    let help = "Pages that were written, that have too few copies, and that have none.";
    push_states(out, "flasharr_pages", help, &written)?;
    let copies = [("wanted", counts.wanted), ("made", counts.made)];
    let help = "Copies that the pages could have that are not lost, and those that they have.";
    push_states(out, "flasharr_copies", help, &copies)
}

/// Adds how many slots of each die are in each state.
fn push_slots(out: &mut String, status: &Status<'_>) -> Result<(), AllocError> {
    let name = "flasharr_slots";
    let help = "Slots of the live dies and the spares, by state.";
    push_head(out, name, "gauge", help)?;
    for die in &status.dies {
        if let Some(slots) = die.slots {
            push_by_die(out, name, die.die, "state", &slots.numbers())?;
        }
    }
    Ok(())
}

/// Adds the calls of each die's image.
fn push_calls(out: &mut String, status: &Status<'_>) -> Result<(), AllocError> {
    let name = "flasharr_image_calls_total";
    let help = "Calls of the dies' images that have ended.";
    push_head(out, name, "counter", help)?;
    for die in &status.dies {
        push_by_die(out, name, die.die, "call", &named(die.calls))?;
    }
    let name = "flasharr_image_call_seconds";
    let help =
        "For how long the call of an image has lasted that is under way, where that is more than a second.";
    push_head(out, name, "gauge", help)?;
    for die in &status.dies {
        if let Some(milliseconds) = die.slow {
            push_slow(out, name, die.die, milliseconds)?;
        }
    }
    Ok(())
}

/// The calls of an image, each behind its name.
fn named(calls: [u64; 6]) -> [(&'static str, u64); 6] {
    let mut named = [("", 0); 6];
    for place in 0..6 {
        named[place] = (CALLS[place], calls[place]);
    }
    named
}

/// Adds for how long a call of an image has lasted.
fn push_slow(out: &mut String, name: &str, die: Die, milliseconds: u64) -> Result<(), AllocError> {
    push_numbered(out, name, "die", u64::from(die.0))?;
    out.push_str("\"} ")?;
    push_seconds(out, milliseconds.saturating_mul(1_000_000))?;
    out.push('\n')
}

/// Adds the errors that requests were answered with.
fn push_errors(out: &mut String, status: &Status<'_>) -> Result<(), AllocError> {
    let name = "flasharr_errors_total";
    let help = "Requests that were answered with an error, by its number.";
    push_head(out, name, "counter", help)?;
    for place in 0..ERRORS.len() {
        push_numbered(out, name, "error", u64::from(ERRORS[place]))?;
        push_line(out, &["\"} "], status.totals.errors[place])?;
    }
    Ok(())
}

/// Adds how many requests there were, and their bytes.
fn push_requests(out: &mut String, status: &Status<'_>) -> Result<(), AllocError> {
    let name = "flasharr_requests_total";
    let help = "Requests that the store was asked for, by command.";
    push_head(out, name, "counter", help)?;
    for command in COMMANDS {
        let found = status.totals.of(command);
        push_by_word(out, name, "command", command.name(), found.requests)?;
    }
    let name = "flasharr_request_bytes_total";
    push_head(out, name, "counter", "The bytes of their ranges.")?;
    for command in COMMANDS {
        let found = status.totals.of(command);
        push_by_word(out, name, "command", command.name(), found.bytes)?;
    }
    Ok(())
}

/// Adds how long requests took.
fn push_latencies(out: &mut String, status: &Status<'_>) -> Result<(), AllocError> {
    let help = "How long the store took for a request.";
    push_head(out, "flasharr_request_seconds", "histogram", help)?;
    for command in COMMANDS {
        push_histogram(out, command, status.totals.of(command))?;
    }
    Ok(())
}

/// Adds how long the requests of a command took: in each bucket those that took no longer than its bound.
fn push_histogram(
    out: &mut String,
    command: Command,
    found: &RequestTotals,
) -> Result<(), AllocError> {
    let name = command.name();
    let mut count = 0u64;
    for place in 0..BUCKETS {
        count = count.saturating_add(found.buckets[place]);
        push_bucket(out, name, place, count)?;
    }
    let sum = "flasharr_request_seconds_sum{command=\"";
    push_parts(out, &[sum, name, "\"} "])?;
    push_seconds(out, found.nanoseconds)?;
    out.push('\n')?;
    push_by_word(
        out,
        "flasharr_request_seconds_count",
        "command",
        name,
        count,
    )
}

/// Adds a bucket of the requests of a command.
fn push_bucket(
    out: &mut String,
    command: &str,
    place: usize,
    count: u64,
) -> Result<(), AllocError> {
    let name = "flasharr_request_seconds_bucket{command=\"";
    push_parts(out, &[name, command, "\",le=\""])?;
    if place < BUCKETS - 1 {
        push_seconds(out, bound_of(place))?;
    } else {
        out.push_str("+Inf")?;
    }
    push_line(out, &["\"} "], count)
}

/// Adds a gauge with a sample for each state.
fn push_states(
    out: &mut String,
    name: &str,
    help: &str,
    samples: &[(&str, u64)],
) -> Result<(), AllocError> {
    push_head(out, name, "gauge", help)?;
    push_by_words(out, name, "state", samples)
}

/// Adds a metric with one sample.
fn push_one(
    out: &mut String,
    name: &str,
    kind: &str,
    help: &str,
    value: u64,
) -> Result<(), AllocError>
    ensures { OnOk result (string_bytes out.new ≡ string_bytes out.old ++ head_lines name.now kind.now help.now ++ sample_line name.now [] value) }
{
    push_head(out, name, kind, help)?;
    push_line(out, &[name, " "], value)
}

/// Adds samples with a label.
fn push_by_words(
    out: &mut String,
    name: &str,
    label: &str,
    samples: &[(&str, u64)],
) -> Result<(), AllocError> {
    for (word, value) in samples {
        push_by_word(out, name, label, word, *value)?;
    }
    Ok(())
}

/// Adds a sample with a label.
fn push_by_word(
    out: &mut String,
    name: &str,
    label: &str,
    word: &str,
    value: u64,
) -> Result<(), AllocError>
    ensures { OnOk result (string_bytes out.new
        ≡ string_bytes out.old ++ sample_line name.now (braces (word_label label.now word.now)) value) }
{
    push_line(out, &[name, "{", label, "=\"", word, "\"} "], value)
}

/// Adds samples of a die with a label besides.
fn push_by_die(
    out: &mut String,
    name: &str,
    die: Die,
    label: &str,
    samples: &[(&str, u64)],
) -> Result<(), AllocError> {
    for (word, value) in samples {
        push_numbered(out, name, "die", u64::from(die.0))?;
        push_line(out, &["\",", label, "=\"", word, "\"} "], *value)?;
    }
    Ok(())
}

/// Begins a sample with a label that is a number.
fn push_numbered(out: &mut String, name: &str, label: &str, number: u64) -> Result<(), AllocError> {
    push_parts(out, &[name, "{", label, "=\""])?;
    push_number(out, number)
}

/// Adds what stands before the samples of a metric.
fn push_head(out: &mut String, name: &str, kind: &str, help: &str) -> Result<(), AllocError>
    ensures { OnOk result (string_bytes out.new ≡ string_bytes out.old ++ head_lines name.now kind.now help.now) }
{
    push_parts(
        out,
        &[
            "# HELP ",
            name,
            " ",
            help,
            "\n# TYPE ",
            name,
            " ",
            kind,
            "\n",
        ],
    )
}

/// Adds nanoseconds as seconds, with nine digits behind the point.
fn push_seconds(out: &mut String, nanoseconds: u64) -> Result<(), AllocError> {
    push_number(out, nanoseconds / NANOSECONDS)?;
    out.push('.')?;
    let mut unit = NANOSECONDS / 10;
    for _ in 0..9 {
        push_number(out, nanoseconds / unit.max(1) % 10)?;
        unit /= 10;
    }
    Ok(())
}
