//! How many requests there were in each of the last seconds.
use fa_prog_counts::{Command, Counts, Totals};
use std::alloc::{AllocError, Global};
use std::time::{Clock, Duration, Instant};

/// How many seconds are kept.
pub const MAX_SECONDS: usize = 300;

/// How long it is between two samples, in seconds.
const SAMPLE_SECONDS: u64 = 1;

/// What was asked for in a second.
#[derive(Clone, Copy)]
pub struct Sample {
    /// READs.
    pub reads: u64,
    /// WRITEs.
    pub writes: u64,
    /// The bytes of the READs.
    pub read_bytes: u64,
    /// The bytes of the WRITEs.
    pub written_bytes: u64,
}

impl Sample {
    /// Nothing.
    pub const NONE: Sample = Sample {
        reads: 0,
        writes: 0,
        read_bytes: 0,
        written_bytes: 0,
    };

    /// What was asked for since the beginning, by totals.
    fn of(totals: &Totals) -> Sample {
        let reads = totals.of(Command::Read);
        let writes = totals.of(Command::Write);
        Sample {
            reads: reads.requests,
            writes: writes.requests,
            read_bytes: reads.bytes,
            written_bytes: writes.bytes,
        }
    }

    /// What is more here than there.
    fn since(self, earlier: Sample) -> Sample {
        Sample {
            reads: self.reads.saturating_sub(earlier.reads),
            writes: self.writes.saturating_sub(earlier.writes),
            read_bytes: self.read_bytes.saturating_sub(earlier.read_bytes),
            written_bytes: self.written_bytes.saturating_sub(earlier.written_bytes),
        }
    }
}

/// What was asked for in each of the last 300 seconds. No call but `new` takes memory.
#[derive(Drop)]
pub struct Rates {
    /// The oldest first. There is memory for 300.
    seconds: Vec<Sample>,
    /// What had been asked for when the last sample was taken.
    last: Sample,
    /// When that was.
    sampled: Option<Instant>,
}

impl Rates {
    /// No second has passed. The error is out of memory.
    pub fn new(global: Global) -> Result<Rates, AllocError> {
        Ok(Rates {
            seconds: Vec::with_capacity(global, MAX_SECONDS)?,
            last: Sample::NONE,
            sampled: None,
        })
    }

    /// Takes the sample of a second that has passed. The first call begins the first second.
    pub fn sample<R: Clock>(&mut self, rt: &R, counts: &Counts) {
        let Ok(now) = Instant::now(rt) else {
            return;
        };
        let second = Duration::from_secs(SAMPLE_SECONDS);
        let Some(sampled) = self.sampled else {
            self.last = Sample::of(&counts.totals());
            self.sampled = Some(now);
            return;
        };
        if now.duration_since(sampled) < second {
            return;
        }
        self.note(Sample::of(&counts.totals()));
        self.sampled = match sampled.checked_add(second) {
            Some(next) if now.duration_since(next) < second => Some(next),
            _ => Some(now),
        };
    }

    /// A second has passed, by whose end so much had been asked for.
    fn note(&mut self, now: Sample) {
        if self.seconds.len() >= MAX_SECONDS {
            self.seconds.remove(0);
        }
        let _ = self.seconds.push(now.since(self.last));
        self.last = now;
    }

    /// The newest second.
    pub fn newest(&self) -> Sample {
        match self.seconds.last() {
            Some(sample) => *sample,
            None => Sample::NONE,
        }
    }

    /// The seconds, the oldest first.
    pub fn seconds(&self) -> &[Sample] {
        self.seconds.as_slice()
    }
}
