//! What is kept of an array's answers for later events.
use fa_core_calls::Answer;
use fa_machine::{BatchId, Flight, Flush};
use fa_types::Die;
use flasharr_lab_words::{MAX_DIES, index_of};
use std::alloc::{AllocError, Allocator, Global};

/// What the dies are at, the flushes that were begun, and the batches in the order in which they were admitted.
#[derive(Drop)]
pub struct Records {
    flights: [Option<Flight>; MAX_DIES],
    flushes: Vec<Flush>,
    batches: Vec<BatchId>,
}

impl Records {
    pub(crate) fn new(alloc: Global) -> Records {
        Records {
            flights: [None; MAX_DIES],
            flushes: Vec::new(alloc),
            batches: Vec::new(alloc),
        }
    }

    /// An array is there, of which nothing was asked yet.
    pub(crate) fn begin_anew(&mut self) {
        self.flights = [None; MAX_DIES];
        self.flushes.clear();
        self.batches.clear();
    }

    /// The batch that was admitted as the one of this number, from 0. No batch has the id that stands for one that was not.
    pub fn batch(&self, number: u64) -> BatchId {
        self.batches
            .get(index_of(number))
            .copied()
            .unwrap_or(BatchId(u64::MAX))
    }

    /// The number of the batch that was admitted last.
    pub fn last_batch(&self) -> u64 {
        (self.batches.len() as u64).saturating_sub(1)
    }

    /// The batches, by their numbers.
    pub fn batches(&self) -> &[BatchId] {
        self.batches.as_slice()
    }

    /// The flush of this number. Of one that was not begun, a flush of no die.
    pub(crate) fn flush(&self, number: u64) -> Flush {
        for flush in &self.flushes {
            if flush.number == number {
                return *flush;
            }
        }
        Flush {
            number,
            live: [false; MAX_DIES],
        }
    }

    /// Keeps what an event answered, as far as a later one asks for it. The error is out of memory.
    pub fn keep<A: Allocator>(&mut self, answer: &Answer<A>) -> Result<(), AllocError> {
        match answer {
            Answer::FlushBegin(Ok(flush)) => self.flushes.push(*flush)?,
            Answer::Admit(Ok(admitted)) => self.batches.push(admitted.batch)?,
            _ => {}
        }
        Ok(())
    }

    /// The die has taken this job.
    pub(crate) fn keep_flight(&mut self, die: Die, flight: Flight) {
        if let Some(place) = self.flights.get_mut(die.0 as usize) {
            *place = Some(flight);
        }
    }

    /// What the die is at.
    pub fn flight(&self, die: Die) -> Option<Flight> {
        match self.flights.get(die.0 as usize) {
            Some(flight) => *flight,
            None => None,
        }
    }
}
