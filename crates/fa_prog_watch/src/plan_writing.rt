//! Who writes the file of plans.
use crate::watched::{PLANS_A_HOLD, Watched};
use fa_plan::{PlanEntry, PlanNote};
use fa_prog_clients::Networked;
use fa_prog_counts::PlanFileCounts;
use fa_prog_host::PlanFile;
use fa_texts::{has_batch_text, print_logged_plan};
use std::alloc::{AllocError, Global};
use std::thread;
use std::time::Duration;

/// The most rounds of a plan that has a text.
const MAX_ROUNDS: u64 = 1_000_000;

/// How long it is between two looks for plans, where there was none, in milliseconds.
const LOOK_MILLISECONDS: u64 = 20;

/// What plans are printed in.
#[derive(Drop)]
struct Pages {
    /// One plan.
    entry: String,
    /// Those that are written by one call.
    all: String,
}

/// Writes the plans that wait into their file until the array is to end and none waits any more. Each is checked before, and one that the
/// check refuses is not written. It blocks its thread.
pub fn write_plans<R: Networked, W: Watched>(
    rt: &R,
    watched: &W,
    counts: &PlanFileCounts,
    file: PlanFile,
) {
    let mut file = file;
    let mut used = Vec::new(rt.alloc());
    let mut pages = Pages {
        entry: String::new(rt.alloc()),
        all: String::new(rt.alloc()),
    };
    for _ in rt.forever() {
        let is_last = watched.is_stopping();
        let taken = change(rt, watched, &mut used);
        if !taken.is_empty() {
            let written = print(rt.alloc(), counts, &mut pages, taken, &mut used);
            write(rt, counts, &mut file, pages.all.as_bytes(), written);
        } else if is_last {
            return;
        } else {
            thread::sleep(rt, Duration::from_millis(LOOK_MILLISECONDS));
        }
    }
}

/// Gives used plans back, and takes some of those that wait.
fn change<R: Networked, W: Watched>(
    rt: &R,
    watched: &W,
    used: &mut Vec<PlanNote>,
) -> Vec<PlanNote> {
    let mut taken = Vec::new(rt.alloc());
    if taken.reserve(PLANS_A_HOLD).is_ok() {
        watched.change_plans(used, &mut taken);
    }
    taken
}

/// Writes the text of so many plans.
fn write<R: Networked>(
    rt: &R,
    counts: &PlanFileCounts,
    file: &mut PlanFile,
    text: &[u8],
    written: u64,
) {
    if file.add(rt, text) {
        counts.note_written(written);
    } else {
        counts.note_failed(written);
    }
}

/// Prints these plans, as far as each is accepted and fits, and answers how many they are. The others are counted. Those that are used come
/// to the used ones.
fn print(
    global: Global,
    counts: &PlanFileCounts,
    pages: &mut Pages,
    taken: Vec<PlanNote>,
    used: &mut Vec<PlanNote>,
) -> u64 {
    pages.all.clear();
    let mut printed = 0u64;
    for note in taken {
        match note.checked(global) {
            Ok(Some(entry)) => {
                if !fits(&entry) {
                    counts.note_unfit();
                } else if add(global, pages, &entry).is_ok() {
                    printed = printed.saturating_add(1);
                } else {
                    counts.note_failed(1);
                }
                let _ = used.push(entry.into_note());
            }
            Ok(None) => counts.note_unfit(),
            Err(_) => counts.note_failed(1),
        }
    }
    printed
}

/// Adds the logged plan of an entry. The error is out of memory, and then nothing is added.
fn add(global: Global, pages: &mut Pages, entry: &PlanEntry) -> Result<(), AllocError> {
    pages.entry.clear();
    print_logged_plan(
        global,
        &mut pages.entry,
        &entry.batch,
        entry.runs.as_slice(),
        &entry.plan,
        &entry.shortage,
    )?;
    pages.all.push_str(&pages.entry)
}

/// Whether an entry fits the limits of texts.
fn fits(entry: &PlanEntry) -> bool {
    entry.plan.rounds <= MAX_ROUNDS && has_batch_text(&entry.batch, entry.runs.as_slice())
}
