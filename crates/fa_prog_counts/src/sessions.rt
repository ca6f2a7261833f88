//! What a session counts of its clients' requests.
ghost use Rattle.std.specs.Prelude.{◌≡◌, Some, slice_get};
ghost use Rattle.fa_prog_counts.specs.Counting.{command_place};

use crate::commands::Command;
use crate::latency::{BUCKETS, bucket_of};
use std::alloc::{AllocError, Global};
use std::sync::atomic::{AtomicU64, Ordering};
use std::time::Duration;

/// The numbers of the errors with which requests are answered.
pub const ERRORS: [u32; 4] = [5, 12, 22, 28];

/// What was counted of the requests of a command.
#[derive(Drop)]
struct RequestCounts {
    requests: AtomicU64,
    bytes: AtomicU64,
    nanoseconds: AtomicU64,
    /// By how long they took.
    buckets: Vec<AtomicU64>,
}

impl RequestCounts {
    /// No request yet. The error is out of memory.
    fn new(global: Global) -> Result<RequestCounts, AllocError> {
        Ok(RequestCounts {
            requests: AtomicU64::new(0),
            bytes: AtomicU64::new(0),
            nanoseconds: AtomicU64::new(0),
            buckets: zeros(global, BUCKETS)?,
        })
    }

    /// One more request, of so many bytes, that took so long.
    fn note(&self, bytes: u64, took: Duration) {
        let nanoseconds = nanoseconds_of(took);
        add(&self.requests, 1);
        add(&self.bytes, bytes);
        add(&self.nanoseconds, nanoseconds);
        if let Some(bucket) = self.buckets.get(bucket_of(nanoseconds)) {
            add(bucket, 1);
        }
    }
}

/// What one session counts. No other thread counts there.
#[derive(Drop)]
pub struct SessionCounts {
    /// By the places of the commands.
    commands: Vec<RequestCounts>,
    /// Requests that were answered with an error, by the places of the errors.
    errors: Vec<AtomicU64>,
    /// Clients that came.
    clients: AtomicU64,
}

impl SessionCounts {
    /// Nothing was counted yet. The error is out of memory.
    pub(crate) fn new(global: Global) -> Result<SessionCounts, AllocError> {
        let mut commands = Vec::with_capacity(global, 5)?;
        for _ in 0..5 {
            commands.push(RequestCounts::new(global)?)?;
        }
        Ok(SessionCounts {
            commands,
            errors: zeros(global, ERRORS.len())?,
            clients: AtomicU64::new(0),
        })
    }

    /// One more request that the store was asked for, of so many bytes, and how long the store took.
    pub fn note_request(&self, command: Command, bytes: u64, took: Duration) {
        if let Some(counts) = self.commands.get(command.place()) {
            counts.note(bytes, took);
        }
    }

    /// One more answer with this error. One of another number is not counted.
    pub fn note_error(&self, number: u32) {
        for place in 0..ERRORS.len() {
            if ERRORS[place] == number {
                if let Some(count) = self.errors.get(place) {
                    add(count, 1);
                }
            }
        }
    }

    /// One more client.
    pub fn note_client(&self) {
        add(&self.clients, 1);
    }

    /// Adds what was counted here to totals.
    pub(crate) fn add_to(&self, totals: &mut Totals) {
        totals.clients = totals.clients.saturating_add(value(&self.clients));
        for place in 0..ERRORS.len() {
            if let Some(count) = self.errors.get(place) {
                totals.errors[place] = totals.errors[place].saturating_add(value(count));
            }
        }
        for place in 0..5 {
            if let Some(counts) = self.commands.get(place) {
                totals.commands[place].add(counts);
            }
        }
    }
}

/// What all sessions counted of the requests of a command.
#[derive(Clone, Copy)]
pub struct RequestTotals {
    /// Requests that the store was asked for.
    pub requests: u64,
    /// The bytes of their ranges.
    pub bytes: u64,
    /// How long the store took for all of them, in nanoseconds.
    pub nanoseconds: u64,
    /// How many took how long, by the buckets.
    pub buckets: [u64; BUCKETS],
}

impl RequestTotals {
    /// Nothing.
    const NONE: RequestTotals = RequestTotals {
        requests: 0,
        bytes: 0,
        nanoseconds: 0,
        buckets: [0; BUCKETS],
    };

    /// Adds what one session counted.
    fn add(&mut self, counts: &RequestCounts) {
        self.requests = self.requests.saturating_add(value(&counts.requests));
        self.bytes = self.bytes.saturating_add(value(&counts.bytes));
        self.nanoseconds = self.nanoseconds.saturating_add(value(&counts.nanoseconds));
        for place in 0..BUCKETS {
            if let Some(count) = counts.buckets.get(place) {
                self.buckets[place] = self.buckets[place].saturating_add(value(count));
            }
        }
    }
}

/// What all sessions counted.
#[derive(Clone, Copy)]
pub struct Totals {
    /// By the places of the commands.
    pub commands: [RequestTotals; 5],
    /// Answers with an error, by the places of the errors.
    pub errors: [u64; 4],
    /// Clients that came.
    pub clients: u64,
}

impl Totals {
    /// Nothing.
    pub(crate) const NONE: Totals = Totals {
        commands: [RequestTotals::NONE; 5],
        errors: [0; 4],
        clients: 0,
    };

    /// What was counted of the requests of a command.
    pub fn of(&self, command: Command) -> &RequestTotals
        ensures { Some result.now ≡ slice_get self.now.commands (command_place command) }
    {
        &self.commands[command.place()]
    }
}

/// Nanoseconds, as many as a count of 64 bits tells.
fn nanoseconds_of(took: Duration) -> u64 {
    match u64::try_from(took.as_nanos()) {
        Ok(nanoseconds) => nanoseconds,
        Err(_) => u64::MAX,
    }
}

/// So many counts, each of nothing. The error is out of memory.
pub(crate) fn zeros(global: Global, count: usize) -> Result<Vec<AtomicU64>, AllocError> {
    let mut counts = Vec::with_capacity(global, count)?;
    for _ in 0..count {
        counts.push(AtomicU64::new(0))?;
    }
    Ok(counts)
}

/// Counts so many more.
pub(crate) fn add(count: &AtomicU64, more: u64) {
    let _ = count.fetch_add(more, Ordering::SeqCst);
}

/// What a count has come to.
pub(crate) fn value(count: &AtomicU64) -> u64 {
    count.load(Ordering::SeqCst)
}
