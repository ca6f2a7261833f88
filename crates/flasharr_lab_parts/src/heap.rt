//! The heap of arrays: its requests are counted, and some are refused.
use std::alloc::{AllocError, Allocator, Global};
use std::cell::Cell;

/// The heap of an array.
pub type Heap = Counted<Global>;

/// A heap of which no request is refused yet.
pub fn new_heap(alloc: Global) -> Heap {
    Counted {
        inner: alloc,
        gate: Gate {
            is_watched: Cell::new(false),
            made: Cell::new(0),
            refused: Cell::new(0),
            due: Cell::new(0),
            max_bytes: Cell::new(usize::MAX),
            used: Cell::new(0),
        },
    }
}

/// An allocator that refuses some requests and passes the others on.
pub struct Counted<B: Allocator> {
    inner: B,
    gate: Gate,
}

/// Which requests are refused, and how many there were.
#[derive(Drop)]
struct Gate {
    /// Whether requests are counted now, and may be refused.
    is_watched: Cell<bool>,
    made: Cell<u64>,
    refused: Cell<u64>,
    /// The number of the request that is refused, from 1; 0 for none.
    due: Cell<u64>,
    /// A request of more bytes is refused.
    max_bytes: Cell<usize>,
    /// The bytes that were granted and not given back.
    used: Cell<usize>,
}

impl<B: Allocator> Counted<B> {
    /// From now on the request of this number is refused, counted from 1, and none where the number is 0; and so is each request of more
    /// than
    /// `max_bytes` bytes. The counts begin anew.
    pub fn refuse(&self, due: u64, max_bytes: usize) {
        self.gate.made.set(0);
        self.gate.refused.set(0);
        self.gate.due.set(due);
        self.gate.max_bytes.set(max_bytes);
    }

    /// Requests are counted and refused from now on, or not.
    pub fn watch(&self, is_watched: bool) {
        self.gate.is_watched.set(is_watched);
    }

    /// How many requests there were since [`Counted::refuse`].
    pub fn made(&self) -> u64 {
        self.gate.made.get()
    }

    /// How many of these were refused.
    pub fn refused(&self) -> u64 {
        self.gate.refused.get()
    }

    /// The bytes that are in use.
    pub fn used(&self) -> usize {
        self.gate.used.get()
    }
}

impl<B: Allocator> Drop for Counted<B> {
    fn drop(self) {
        let Self { inner: _, gate: _ } = self;
    }
}

/// Counts a request of this size, and tells whether it is refused.
fn refuses(gate: &Gate, bytes: usize) -> bool {
    if gate.is_watched.get() && is_due(gate, bytes) {
        gate.refused.set(gate.refused.get().wrapping_add(1));
        return true;
    }
    gate.used.set(gate.used.get().wrapping_add(bytes));
    false
}

/// Counts a request while requests are watched, and tells whether it is to be refused.
fn is_due(gate: &Gate, bytes: usize) -> bool {
    let made = gate.made.get().wrapping_add(1);
    gate.made.set(made);
    made == gate.due.get() || bytes > gate.max_bytes.get()
}

/// Counts memory of this size that is given back.
fn give_back(gate: &Gate, bytes: usize) {
    gate.used.set(gate.used.get().wrapping_sub(bytes));
}

unsafe impl<B: Allocator> Allocator for Counted<B> {
    ghost dealloc_token = { λ heap ty ptr. B.dealloc_token heap.inner ty ptr };

    fn allocate(&self, size: usize, align: usize) -> Result<*mut u8, AllocError> {
        if refuses(&self.gate, size) {
            return Err(AllocError);
        }
        self.inner.allocate(size, align)
    }

    unsafe fn deallocate(&self, ptr: *mut u8, size: usize, align: usize) {
        give_back(&self.gate, size);
        self.inner.deallocate(ptr, size, align);
    }
}
