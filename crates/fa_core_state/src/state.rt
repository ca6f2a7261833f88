//! The array's state.
use fa_core_batches::Batches;
use fa_core_bookings::Bookings;
use fa_core_tables::{ByDie, Claims, Log, Waiting};
use fa_machine::{Copying, Flight};
use fa_set::NumberSet;
use fa_types::Copies;
use std::alloc::{Allocator, Global};

/// The array's state, over any page map. Each event of the array is a function over it.
#[derive(Drop)]
pub struct State<M, A: Allocator = Global> {
    /// How many copies a page is to have.
    pub copies: Copies,
    /// The live dies, the versions of the pages, and the slots.
    pub page_map: M,
    /// The round, the booked rounds and the windows.
    pub bookings: Bookings<A>,
    /// How often the live dies have changed.
    pub epoch: u64,
    /// Live dies whose header is not one of this epoch.
    pub behind: NumberSet<A>,
    /// Spares that were not brought in yet.
    pub spares: NumberSet<A>,
    /// Dies whose collector's step of this round is done.
    pub stepped: NumberSet<A>,
    /// The last sequence number given.
    pub last: u64,
    /// The programs that wait for their dies.
    pub waiting: Waiting<A>,
    /// The job of each die that has one.
    pub jobs: ByDie<Flight, A>,
    /// The copy under way.
    pub copying: Option<Copying>,
    /// The claims that are open.
    pub claims: Claims<A>,
    /// The batches that are open.
    pub batches: Batches<A>,
    /// How many flushes were begun.
    pub flushes: u64,
    /// For each live die the last flush that asked it for a sync.
    pub asked: ByDie<u64, A>,
    /// For each live die how many flushes had been begun when its last sync that ended was taken.
    pub synced: ByDie<u64, A>,
    /// The history and its base.
    pub log: Log<A>,
}
