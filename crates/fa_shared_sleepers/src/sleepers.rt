//! Who sleeps until the array has changed, and for what.
use crate::homes::{DieSet, have_come, is_collecting};
use crate::rooms::rooms_of;
use fa_core_calls::Looks;
use fa_machine::{BatchId, ClaimId, Flush, FlushState, ReadState};
use fa_types::{Die, Page};
use std::alloc::{AllocError, Allocator, Global};
use std::mem::replace;

/// How many seats may be out at once.
pub const MAX_SEATS: u32 = 256;

/// How many others who help sleep at least where one who helps takes the jobs of all dies, and none of the dies' workers is woken.
const MANY_OTHERS: u32 = 3;

/// What somebody waits for.
#[derive(Clone, Copy)]
pub enum Awaits {
    /// Each page of this batch is answered, or it is torn.
    Batch(BatchId),
    /// What is reserved under this claim is programmed, as far as its dies are live.
    Programs(ClaimId),
    /// This flush has ended.
    Flush(Flush),
    /// This die has a job that nobody is at.
    Job(Die),
    /// A die wants a window of the collector and has none, or, where one was refused it, something has changed; or one that has a window
    /// has a job that nobody is at.
    Window {
        /// A die was refused a window.
        was_refused: bool,
    },
    /// A page that has too few copies may get one more.
    ThinPage,
    /// Each of these dies, of which one had no room, has some, or gets none before long.
    Room(DieSet),
    /// Something that others hold up: a claim, room, or a place in the calendar.
    Change,
}

/// Somebody who sleeps.
#[derive(Clone, Copy)]
struct Sleeper {
    awaits: Awaits,
    // Makes jobs of dies while nothing of that has come.
    helps: bool,
    // Was woken, and is counted as awake.
    is_called: bool,
}

impl Sleeper {
    /// The dies whose room it waits for, if it does.
    fn homes(&self) -> Option<DieSet> {
        match self.awaits {
            Awaits::Room(dies) => Some(dies),
            _ => None,
        }
    }

    /// Whether it waits for room of the die.
    fn waits_for(&self, die: Die) -> bool {
        match self.awaits {
            Awaits::Room(dies) => dies.contains(die),
            _ => false,
        }
    }
}

/// A set of seats.
#[derive(Clone, Copy)]
pub struct SeatSet {
    // Whether a seat is in it, by its number.
    words: [u64; 4],
}

impl SeatSet {
    /// No seat.
    fn new() -> SeatSet {
        SeatSet { words: [0; 4] }
    }

    /// One seat more.
    fn insert(&mut self, seat: u32) {
        if let Some(word) = self.words.get_mut((seat / 64) as usize) {
            *word |= 1 << (seat % 64);
        }
    }

    /// Not this seat any more.
    fn remove(&mut self, seat: u32) {
        if let Some(word) = self.words.get_mut((seat / 64) as usize) {
            *word &= !(1 << (seat % 64));
        }
    }

    /// These seats more.
    fn insert_all(&mut self, seats: SeatSet) {
        for index in 0..4usize {
            self.words[index] |= seats.words[index];
        }
    }

    /// Whether no seat is in it.
    fn is_empty(&self) -> bool {
        self.words == [0; 4]
    }

    /// Whether the seat is in it.
    pub fn contains(&self, seat: u32) -> bool {
        match self.words.get((seat / 64) as usize) {
            Some(word) => (word >> (seat % 64)) & 1 == 1,
            None => false,
        }
    }

    /// The lowest seat, which is in it no more.
    pub fn pop(&mut self) -> Option<u32> {
        for index in 0..4u32 {
            let word = self.words[index as usize];
            if word != 0 {
                self.words[index as usize] = word & (word - 1);
                return Some(64 * index + word.trailing_zeros());
            }
        }
        None
    }
}

/// Who sleeps, by their seats. No call but `new` takes memory.
#[derive(Drop)]
pub struct Sleepers<A: Allocator = Global> {
    // By the numbers of seats, as far as seats were handed out.
    sleepers: Vec<Option<Sleeper>, A>,
    // How many entries may be some.
    seats: u32,
    // Something has changed that others may wait for.
    changed: bool,
    // Somebody makes the jobs of all dies that have a window.
    is_led: bool,
    // Somebody has waited long, and workers are to look at what others have taken of their dies.
    is_held_up: bool,
    // Who waits for room, in the order in which they came.
    line: Vec<u32, A>,
    // Who was woken for room, and has not slept since.
    served: SeatSet,
}

impl<A: Allocator + Copy> Sleepers<A> {
    /// Nobody sleeps. The error is out of memory.
    pub fn new(alloc: A) -> Result<Sleepers<A>, AllocError> {
        let mut sleepers = Vec::with_capacity(alloc, MAX_SEATS as usize)?;
        for _ in 0..MAX_SEATS {
            sleepers.push(None)?;
        }
        let line = Vec::with_capacity(alloc, MAX_SEATS as usize)?;
        Ok(Sleepers {
            sleepers,
            seats: 0,
            changed: false,
            is_led: false,
            is_held_up: false,
            line,
            served: SeatSet::new(),
        })
    }
}

impl<A: Allocator> Sleepers<A> {
    /// Whoever has this seat sleeps until then, and may be woken to make jobs of dies, if that is said.
    pub fn lie_down(&mut self, seat: u32, awaits: Awaits, helps: bool) {
        if let Some(entry) = self.sleepers.get_mut(seat as usize) {
            *entry = Some(Sleeper {
                awaits,
                helps,
                is_called: false,
            });
        }
        self.seats = self.seats.max(seat.saturating_add(1));
        self.served.remove(seat);
        self.stand_in_line(seat, matches!(awaits, Awaits::Room(_)));
    }

    /// Whoever has this seat waits for room, behind all who came before, or does so no more.
    fn stand_in_line(&mut self, seat: u32, waits: bool) {
        let stands = self.line.iter().any(|other| *other == seat);
        if waits && !stands {
            let _ = self.line.push(seat);
        } else if stands && !waits {
            self.line.retain(|other| *other != seat);
        }
    }

    /// Whoever has this seat sleeps no more.
    pub fn get_up(&mut self, seat: u32) {
        if let Some(entry) = self.sleepers.get_mut(seat as usize) {
            *entry = None;
        }
    }

    /// Who has this seat and sleeps.
    fn sleeper(&self, seat: u32) -> Option<&Sleeper> {
        match self.sleepers.get(seat as usize) {
            Some(Some(sleeper)) if !sleeper.is_called => Some(sleeper),
            _ => None,
        }
    }

    /// Whether whoever has this seat was woken, and is not up yet.
    pub fn is_called(&self, seat: u32) -> bool {
        match self.sleepers.get(seat as usize) {
            Some(Some(sleeper)) => sleeper.is_called,
            _ => false,
        }
    }

    /// Whether many help beside one who is awake.
    pub fn do_many_help(&self) -> bool {
        self.helpers() >= MANY_OTHERS
    }

    /// How many sleep who help.
    fn helpers(&self) -> u32 {
        let mut count = 0u32;
        for seat in 0..self.seats {
            match self.sleeper(seat) {
                Some(sleeper) if sleeper.helps => count = count.saturating_add(1),
                _ => {}
            }
        }
        count
    }

    /// How many wait for room of this die, or were woken for that and are not up yet.
    fn waiting_for(&self, die: Die) -> u32 {
        let mut count = 0u32;
        for seat in 0..self.seats {
            match self.sleepers.get(seat as usize) {
                Some(Some(sleeper)) if sleeper.waits_for(die) => count = count.saturating_add(1),
                _ => {}
            }
        }
        count
    }

    /// Something has changed that others may wait for.
    pub fn note_change(&mut self) {
        self.changed = true;
    }

    /// Somebody makes the jobs of all dies that have a window, or nobody does any more.
    pub fn lead(&mut self, is_led: bool) {
        self.is_led = is_led;
    }

    /// Whether somebody makes the jobs of all dies that have a window.
    pub fn is_led(&self) -> bool {
        self.is_led
    }

    /// Somebody has waited long for what others make, whom an image may hold up: nobody makes the jobs of all dies that have a window any
    /// more, and the next for whom it is time are the workers, too, of dies whose jobs others have taken.
    pub fn note_long_wait(&mut self) {
        self.is_led = false;
        self.is_held_up = true;
    }
}

impl<A: Allocator> Sleepers<A> {
    /// Those for whom it is time, as the array is. They are counted as awake. Where dies whose workers sleep have jobs, and somebody who
    /// helps sleeps, one of these is woken in the place of all the workers: it takes the jobs of several dies in one hold. It leaves those
    /// of a die that collects to the die's worker, unless many help. Where somebody makes the jobs of all dies that collect, no worker of
    /// one is woken. Of those who wait for room as many are woken as there is room for. Where somebody has waited long, the workers of dies
    /// are woken whose jobs others have taken.
    pub fn due<E: Looks>(&mut self, array: &E) -> SeatSet
        requires { E.whole array.now }
    {
        let changed = replace(&mut self.changed, false);
        let is_held_up = replace(&mut self.is_held_up, false);
        let are_many = self.helpers() > MANY_OTHERS;
        let is_led = self.is_led;
        let mut due = SeatSet::new();
        let mut workers = SeatSet::new();
        let mut wait_for_room = false;
        for seat in 0..self.seats {
            match self.sleeper(seat) {
                Some(sleeper) if sleeper.homes().is_some() => wait_for_room = true,
                Some(sleeper) if is_due(array, changed, sleeper.awaits) => {
                    match waker_of(array, is_led, are_many, sleeper.awaits) {
                        Waker::Nobody => {}
                        Waker::Leader => workers.insert(seat),
                        Waker::Due => due.insert(seat),
                    }
                }
                Some(sleeper) if is_held_up && is_taken(array, sleeper.awaits) => due.insert(seat),
                _ => {}
            }
        }
        if wait_for_room {
            self.give_rooms(array, &mut due);
        }
        if !workers.is_empty() {
            match self.helper_beside(due) {
                Some(seat) => due.insert(seat),
                None => due.insert_all(workers),
            }
        }
        self.wake(due);
        due
    }

    /// Somebody who sleeps and helps, and is none of these.
    fn helper_beside(&self, others: SeatSet) -> Option<u32> {
        for seat in 0..self.seats {
            match self.sleeper(seat) {
                Some(sleeper) if sleeper.helps && !others.contains(seat) => return Some(seat),
                _ => {}
            }
        }
        None
    }

    /// Gives the dies' room to those who wait for it, in the order in which they came, and wakes those who have all that they wait for.
    /// What those have who were woken for it before and are not up yet is given already.
    fn give_rooms<E: Looks>(&mut self, array: &E, due: &mut SeatSet) {
        let mut rooms = rooms_of(array);
        for seat in 0..self.seats {
            if self.served.contains(seat) {
                if let Some(dies) = self.homes_of(seat, true) {
                    rooms.give(array, dies);
                }
            }
        }
        let mut served = SeatSet::new();
        for index in 0..self.line.len() {
            let seat = self.line[index];
            if let Some(dies) = self.homes_of(seat, false) {
                if rooms.give(array, dies) {
                    served.insert(seat);
                }
            }
        }
        self.line.retain(|seat| !served.contains(*seat));
        self.served.insert_all(served);
        due.insert_all(served);
    }

    /// The dies whose room whoever has this seat sleeps for, or was woken for and is not up yet.
    fn homes_of(&self, seat: u32, is_called: bool) -> Option<DieSet> {
        match self.sleepers.get(seat as usize) {
            Some(Some(sleeper)) if sleeper.is_called == is_called => sleeper.homes(),
            _ => None,
        }
    }

    /// The dies that a write of the page would go to, if it is better to wait for their room than to write elsewhere, where its program is
    /// to be synced: one of them has none, or none but for those who wait for it already, and gets some before long. Whoever was woken for
    /// room waits for nobody.
    pub fn homes_to_come<E: Looks>(&self, array: &E, seat: u32, page: Page) -> DieSet {
        let mut homes = DieSet::EMPTY;
        let mut is_to_come = false;
        for die in array.first_dies(page).as_slice() {
            homes.insert(*die);
            if is_collecting(array, *die) && self.is_short_of_room(array, seat, *die) {
                is_to_come = true;
            }
        }
        if is_to_come { homes } else { DieSet::EMPTY }
    }

    /// Whether a die has no room for whoever has this seat, or none but for those who wait for it already.
    fn is_short_of_room<E: Looks>(&self, array: &E, seat: u32, die: Die) -> bool {
        if !array.is_die(die) {
            return false;
        }
        let room = array.room(die);
        room == 0
            || !self.line.is_empty() && !self.served.contains(seat) && room <= self.waiting_for(die)
    }

    /// These are counted as awake.
    fn wake(&mut self, seats: SeatSet) {
        let mut seats = seats;
        for _ in 0..MAX_SEATS {
            let Some(seat) = seats.pop() else {
                return;
            };
            if let Some(Some(sleeper)) = self.sleepers.get_mut(seat as usize) {
                sleeper.is_called = true;
            }
        }
    }
}

/// What becomes of somebody for whom it is time.
enum Waker {
    /// Nothing: whoever makes the jobs of all dies that collect makes what is waited for.
    Nobody,
    /// A wake, unless somebody who helps is woken in the same place.
    Leader,
    /// A wake.
    Due,
}

/// What becomes of somebody for whom it is time and who waits so, where somebody makes the jobs of all dies that collect, and where many
/// help, or not.
fn waker_of<E: Looks>(array: &E, is_led: bool, are_many: bool, awaits: Awaits) -> Waker {
    match awaits {
        Awaits::Job(die) => {
            let has_window = array.has_window(die);
            if is_led && has_window {
                Waker::Nobody
            } else if are_many || !has_window {
                Waker::Leader
            } else {
                Waker::Due
            }
        }
        _ => Waker::Due,
    }
}

/// Whether somebody waits for the jobs of a die that others have taken one of.
fn is_taken<E: Looks>(array: &E, awaits: Awaits) -> bool {
    match awaits {
        Awaits::Job(die) => array.job_kind(die).is_some(),
        _ => false,
    }
}

/// Whether a die that has a window has a job that nobody is at.
fn has_step<E: Looks>(array: &E) -> bool {
    for number in 0..array.geometry().dies {
        let die = Die(number as u8);
        if array.has_window(die) && array.has_job(die) {
            return true;
        }
    }
    false
}

/// Whether it is time for somebody who waits so, where something has changed or not.
pub fn is_due<E: Looks>(array: &E, changed: bool, awaits: Awaits) -> bool
    requires { E.whole array.now }
{
    match awaits {
        Awaits::Batch(batch) => !matches!(array.results(batch), ReadState::Waiting),
        Awaits::Programs(claim) => !array.is_pending(claim),
        Awaits::Flush(flush) => !matches!(array.flush_state(&flush), FlushState::Waiting),
        Awaits::Job(die) => array.is_die(die) && array.has_job(die),
        Awaits::Window { was_refused } => {
            has_step(array)
                || if was_refused {
                    changed
                } else {
                    array.is_window_due()
                }
        }
        Awaits::ThinPage => changed && array.next_thin().is_some(),
        Awaits::Room(dies) => have_come(array, dies),
        Awaits::Change => changed,
    }
}
