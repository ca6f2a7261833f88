//! Room of dies, as it is given to those who wait for it, one after the other. What is told here is a matter of speed alone, and in no
//! clause.
use crate::homes::{DieSet, MAX_DIES, is_collecting};
use fa_core_calls::Looks;
use fa_types::Die;

/// How much room each die has that nobody before was given.
#[derive(Clone, Copy)]
pub(crate) struct Rooms {
    // By the numbers of the dies.
    left: [u32; MAX_DIES],
}

/// All room of each die.
pub(crate) fn rooms_of<E: Looks>(array: &E) -> Rooms {
    let mut left = [0; MAX_DIES];
    for number in 0..array.geometry().dies {
        if let Some(slots) = left.get_mut(number as usize) {
            *slots = array.room(Die(number as u8));
        }
    }
    Rooms { left }
}

/// Whether a die of the array wants a window.
fn wants_window<E: Looks>(array: &E, die: Die) -> bool {
    array.is_die(die) && array.wants_window(die)
}

impl Rooms {
    /// Gives a slot of each of these dies that has one left to whoever waits for all of them. Whether each had one, or gets none before
    /// long. What is given of some is kept from those who come later, so that whoever waits longest gets the others too.
    pub(crate) fn give<E: Looks>(&mut self, array: &E, dies: DieSet) -> bool {
        let mut dies = dies;
        let mut have_come = true;
        for _ in 0..MAX_DIES {
            let Some(die) = dies.pop() else {
                return have_come;
            };
            if !self.give_one(die) && (is_collecting(array, die) || wants_window(array, die)) {
                have_come = false;
            }
        }
        have_come
    }

    /// Gives a slot of the die, if one is left. Whether one was.
    fn give_one(&mut self, die: Die) -> bool {
        match self.left.get_mut(usize::from(die.0)) {
            Some(slots) if *slots > 0 => {
                *slots -= 1;
                true
            }
            _ => false,
        }
    }
}
