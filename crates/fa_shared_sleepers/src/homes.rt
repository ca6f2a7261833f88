//! Dies that a write of a page would go to and that have no room, and whether it is better to wait for them. What is told here is a matter
//! of speed alone, and in no clause.
use fa_core_calls::Looks;
use fa_machine::JobKind;
use fa_types::{Die, Page};

/// How many dies an array has at most.
pub(crate) const MAX_DIES: usize = 64;

/// A set of dies, by their numbers, 0 to 63.
#[derive(Clone, Copy)]
pub struct DieSet {
    bits: u64,
}

impl DieSet {
    /// No die.
    pub const EMPTY: DieSet = DieSet { bits: 0 };

    /// Whether no die is in it.
    pub fn is_empty(self) -> bool {
        self.bits == 0
    }

    /// The die more.
    pub(crate) fn insert(&mut self, die: Die) {
        if die.0 < 64 {
            self.bits |= 1 << die.0;
        }
    }

    /// The lowest die, which is in it no more.
    pub(crate) fn pop(&mut self) -> Option<Die> {
        if self.bits == 0 {
            return None;
        }
        let die = Die(self.bits.trailing_zeros() as u8);
        self.bits &= self.bits - 1;
        Some(die)
    }

    /// Whether the die is in it.
    pub(crate) fn contains(self, die: Die) -> bool {
        die.0 < 64 && (self.bits >> die.0) & 1 == 1
    }
}

/// Whether a die has no room that a write of the page would go to.
pub fn lacks_home<E: Looks>(array: &E, page: Page) -> bool {
    for die in array.first_dies(page).as_slice() {
        if has_no_room(array, *die) {
            return true;
        }
    }
    false
}

/// Whether each of these dies has room, or gets none before long.
pub(crate) fn have_come<E: Looks>(array: &E, dies: DieSet) -> bool {
    let mut dies = dies;
    for _ in 0..MAX_DIES {
        match dies.pop() {
            Some(die) if has_no_room(array, die) && is_collecting(array, die) => return false,
            Some(_) => {}
            None => return true,
        }
    }
    true
}

/// Whether a die of the array has no room.
fn has_no_room<E: Looks>(array: &E, die: Die) -> bool {
    array.is_die(die) && array.room(die) == 0
}

/// Whether the die's collector has rounds, or is at a step.
pub(crate) fn is_collecting<E: Looks>(array: &E, die: Die) -> bool {
    match array.job_kind(die) {
        Some(JobKind::Move | JobKind::Erase) => true,
        _ => array.has_window(die),
    }
}
