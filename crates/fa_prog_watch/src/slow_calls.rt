//! Calls of images that last long.
use fa_prog_clients::Networked;
use fa_prog_counts::{Counts, DieCounts};
use fa_prog_host::tell;
use fa_types::Die;
use std::time::{Duration, Instant};

/// How long a call of an image may last before that is told, in seconds.
const SLOW_SECONDS: u64 = 1;

/// A call of an image that is under way.
#[derive(Clone, Copy)]
struct UnderWay {
    /// Which of the image's calls it is.
    number: u64,
    /// When it was first seen.
    since: Instant,
    /// It was told that it lasts long.
    is_told: bool,
}

/// For each die the call of its image that was under way at the last look.
#[derive(Clone, Copy)]
pub(crate) struct SlowCalls {
    calls: [Option<UnderWay>; 64],
}

impl SlowCalls {
    /// None was seen yet.
    pub(crate) const NONE: SlowCalls = SlowCalls { calls: [None; 64] };

    /// Looks at the calls that are under way. Of one that lasts long it is told for how long, and once on standard error. The paths are
    /// those of the dies' images.
    pub(crate) fn look<R: Networked>(&mut self, rt: &R, counts: &Counts, paths: &[&str]) {
        for number in 0..64u8 {
            let place = usize::from(number);
            if let Some(die) = counts.die(Die(number)) {
                self.calls[place] = look_at(rt, self.calls[place], die, number, paths);
            }
        }
    }
}

/// Looks at the call of one image.
fn look_at<R: Networked>(
    rt: &R,
    seen: Option<UnderWay>,
    counts: &DieCounts,
    die: u8,
    paths: &[&str],
) -> Option<UnderWay> {
    let Some(number) = counts.under_way() else {
        counts.tell_slow(0);
        return None;
    };
    match seen {
        Some(seen) if seen.number == number => Some(look_again(rt, seen, counts, die, paths)),
        _ => {
            counts.tell_slow(0);
            let since = Instant::now(rt).ok()?;
            Some(UnderWay {
                number,
                since,
                is_told: false,
            })
        }
    }
}

/// Looks at a call that was under way before.
fn look_again<R: Networked>(
    rt: &R,
    seen: UnderWay,
    counts: &DieCounts,
    die: u8,
    paths: &[&str],
) -> UnderWay {
    let Ok(lasts) = seen.since.elapsed(rt) else {
        return seen;
    };
    if lasts < Duration::from_secs(SLOW_SECONDS) {
        return seen;
    }
    counts.tell_slow(u64::try_from(lasts.as_millis()).unwrap_or(u64::MAX));
    if !seen.is_told {
        let path = paths.get(usize::from(die)).copied().unwrap_or("an image");
        tell(
            rt,
            format_args!(
                "{path}: die {die}: a call of this image has lasted for more than a second: look at its disk"
            ),
        );
    }
    UnderWay {
        is_told: true,
        ..seen
    }
}
