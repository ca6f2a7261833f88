//! What is told of the array while it is served.
use crate::losses::Losses;
use crate::slow_calls::SlowCalls;
use crate::watched::{PAGES_A_HOLD, Sight, Watched};
use fa_prog_clients::Networked;
use fa_prog_counts::Counts;
use fa_prog_host::tell;
use fa_prog_status::FaultStatus;
use fa_types::Die;
use log::kv::Source;
use log::span::Spans;
use log::{Log, Metadata, Record, warn};
use std::fmt::Display;
use std::io::Eprint;
use std::thread;
use std::time::Duration;

/// How long it is between two looks at the array, in milliseconds.
const LOOK_MILLISECONDS: u64 = 200;

/// Tells on standard error which dies went out and came in, when all pages have their copies again, that the array is running full, and
/// that a call of an image lasts long, until the array is to end. Pages that were lost as a die went out it has in their file. The sight is
/// how it stood before anybody worked for it, and the paths are those of the dies' images, by the dies' numbers.
pub fn watch<R: Networked, W: Watched>(
    rt: &R,
    watched: &W,
    losses: &Losses<'_>,
    counts: &Counts,
    paths: &[&str],
    copies: u32,
    seen: Sight,
) {
    let mut seen = Sight {
        is_full: false,
        ..seen
    };
    let mut is_healing = seen.is_thin;
    let mut told = 0usize;
    let mut slow_calls = SlowCalls::NONE;
    for _ in rt.forever() {
        let is_last = watched.is_stopping();
        slow_calls.look(rt, counts, paths);
        losses.keep(rt, watched);
        // Faults are asked for first, so that an array is not seen as healed of one that came behind the sight.
        let told_before = told;
        told = tell_faults(rt, watched, paths, told);
        let sight = watched.sight(copies);
        let has_comers = tell_comers(rt, paths, &seen, &sight);
        is_healing = is_healing || sight.is_thin || told > told_before || has_comers;
        if is_healing && sight.is_healed {
            tell_healed(rt, count_lost(watched));
            is_healing = false;
        }
        if sight.is_full && !seen.is_full {
            tell(
                rt,
                "the array is running full: trim what is not needed, or replace dies that are out",
            );
        }
        seen = sight;
        if is_last {
            break;
        }
        thread::sleep(rt, Duration::from_millis(LOOK_MILLISECONDS));
    }
}

/// Tells that all pages have their copies again, but for so many.
fn tell_healed<R: Networked>(rt: &R, lost: u64) {
    if lost == 0 {
        tell(rt, "all pages have their copies again");
    } else {
        tell(
            rt,
            format_args!(
                "{lost} pages are lost, and all others have their copies again: write or trim them"
            ),
        );
    }
}

/// How many pages were written and stand on no live die.
fn count_lost<W: Watched>(watched: &W) -> u64 {
    let mut lost = 0u64;
    for hold in 0..watched.geometry().pages / PAGES_A_HOLD + 1 {
        let found = watched.count_lost(hold.saturating_mul(PAGES_A_HOLD));
        lost = lost.saturating_add(found);
    }
    lost
}

/// Tells of the faults behind those that were told already, and answers how many were told now. Where there is no memory for them they
/// are told later.
fn tell_faults<R: Networked, W: Watched>(
    rt: &R,
    watched: &W,
    paths: &[&str],
    told: usize,
) -> usize {
    let Ok(faults) = watched.faults(rt.alloc()) else {
        return told;
    };
    for fault in faults.get(told..).unwrap_or(&[]) {
        tell_fault(rt, paths, fault);
    }
    faults.len()
}

/// Where faults are logged: on standard error, as all that is told.
#[derive(Drop)]
struct Warnings<'a, R>(&'a R);

impl<R: Eprint> Log for Warnings<'_, R> {
    fn enabled(&self, _metadata: &Metadata<'_>) -> bool {
        true
    }

    fn log<D: Display, K: Source, S: Spans>(&self, record: &Record<'_, D, K, S>) {
        tell(self.0, format_args!("{}", record.args()));
    }

    fn flush(&self) {}

    fn target(&self) -> &str {
        ""
    }
}

/// Warns that a die went out.
fn tell_fault<R: Networked>(rt: &R, paths: &[&str], fault: &FaultStatus) {
    let path = path_of(paths, fault.die);
    let (die, round, cause) = (fault.die.0, fault.round, &fault.words);
    let log = Warnings(rt);
    warn!(log; "{path}: die {die} went out in round {round}: {cause}; replace it");
}

/// Tells of the dies that are live now and were not before. Whether there is one.
fn tell_comers<R: Networked>(rt: &R, paths: &[&str], seen: &Sight, sight: &Sight) -> bool {
    let mut has_comers = false;
    for number in 0..64u8 {
        let place = usize::from(number);
        if sight.live[place] && !seen.live[place] {
            let path = path_of(paths, Die(number));
            tell(
                rt,
                format_args!("{path}: die {number} came in; it is being filled"),
            );
            has_comers = true;
        }
    }
    has_comers
}

/// The path of a die's image.
fn path_of<'a>(paths: &[&'a str], die: Die) -> &'a str {
    match paths.get(usize::from(die.0)) {
        Some(path) => path,
        None => "an image",
    }
}
