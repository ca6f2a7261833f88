//! The booked rounds, over a calendar of closed rounds.
ghost use Rattle.std.specs.Prelude.{◌≡◌, ℕ, ◌+◌, ◌-◌, ◌^◌, ◌<◌, ◌≤◌, ◌==◌, ◌↔◌, not, nat_lt, true, false};
ghost use Rattle.std.specs.Prelude.{IfOk, IsOk, IsTrue, OnErr, OnOk, IsErrOf, None};
ghost use Rattle.std.specs.FinMap.{contains_key, empty, get, insert, remove, len};
ghost use Rattle.std.specs.List.{AllByRecursion};
ghost use Rattle.fa_batch_terms.specs.Plan.{AreApart};
ghost use Rattle.fa_core_bookings.specs.Booked.{AreBooked};
ghost use Rattle.fa_core_bookings.specs.Places.{without_places};
ghost use Rattle.fa_calendar.specs.Calendar.{is_booked};
ghost use Rattle.fa_machine.specs.Maps.{keep};
ghost use Rattle.fa_machine.specs.Reading.{booked};
ghost use Rattle.fa_machine.specs.Rounds.{is_taken, is_taken_with, HasRoomFor};
ghost use Rattle.fa_types.specs.Open.{FewClosed, IsOpen};
ghost use Rattle.fa_types.specs.Windows.{IsFirstWindow, IsFull};

use crate::places::{book_all, take_out_all};
use crate::table::{BookedRounds, forget_current, forget_die, put, take_out};
use fa_batch_terms::Place;
use fa_calendar::{Calendar, CalendarRefused};
use fa_closed::Closed;
use fa_machine::{BatchId, Booking};
use fa_types::{Die, Page, Round, Rounds, Window};
use std::alloc::{AllocError, Allocator, Global};
use std::collections::HashMap;

// The most rounds that may be closed for a die.
const MAX_ENTRIES: u64 = 1_048_576;

/// The current round, the booked rounds of each die with what they are for, and the window of each die that has one which
/// has not passed. What a round is booked for is found with one look into a table, as a rule.
#[derive(Drop)]
pub struct Bookings<A: Allocator = Global> {
    calendar: Calendar<A>,
    booked: BookedRounds<A>,
    ghost agree: { AreBooked (is_booked calendar) booked.entries },
}

impl<A: Allocator + Copy> Bookings<A> {
    ghost use Rattle.fa_core_bookings.specs.Bookings.{calendar_of};

    /// Nothing is booked, and no die has a window. The error is out of memory.
    pub fn new(alloc: A, round: Round) -> Result<Bookings<A>, AllocError>
        ensures { IfOk result (λ bookings. calendar_of bookings ≡ record { round = round.0; bookings = empty; windows = empty }) }
    {
        let calendar = Calendar::new(alloc, round)?;
        Ok(Bookings {
            calendar,
            booked: HashMap::new(alloc),
        })
    }
}

impl<A: Allocator + Clone> Bookings<A> {
    ghost use Rattle.fa_core_bookings.specs.Bookings.{calendar_of};

    /// The current round.
    pub fn now(&self) -> Round
        ensures { result.0 ≡ (calendar_of self.now).round }
    {
        self.calendar.now()
    }

    /// What a round of a die is booked for.
    pub fn booking(&self, die: Die, round: Round) -> Option<Booking>
        ensures { result ≡ get (calendar_of self.now).bookings (die.0, round.0) }
    {
        match self.booked.get(&(die.0, round.0)) {
            Some(booking) => Some(*booking),
            None => None,
        }
    }

    /// Whether nothing is booked.
    pub fn is_empty(&self) -> bool
        ensures { IsTrue result ↔ (len (calendar_of self.now).bookings ≡ 0) }
    {
        self.booked.is_empty()
    }

    /// The read of a booked round has started.
    pub fn start(&mut self, die: Die, round: Round, batch: BatchId, page: Page)
        requires { contains_key (calendar_of self.old).bookings (die.0, round.0) ≡ true }
        ensures { calendar_of self.new ≡ record (calendar_of self.old) {
          bookings = insert (calendar_of self.old).bookings (die.0, round.0) (record { batch = batch; page = page; started = true });
        } }
    {
        let booking = Booking {
            batch,
            page,
            started: true,
        };
        put(&mut self.booked, die.0, round.0, booking);
    }

    /// A booked round is open again.
    pub fn release(&mut self, die: Die, round: Round)
        requires { contains_key (calendar_of self.old).bookings (die.0, round.0) ≡ true }
        ensures { calendar_of self.new
            ≡ record (calendar_of self.old) { bookings = remove (calendar_of self.old).bookings (die.0, round.0) } }
    {
        self.calendar.release(die, round);
        take_out(&mut self.booked, die.0, round.0);
    }

    /// Opens the booked places `old` and books `new` for the batch, which are open once `old` is, no two the same.
    /// Refused, nothing has changed.
    pub fn exchange(
        &mut self,
        batch: BatchId,
        old: &[Place],
        new: &[Place],
    ) -> Result<(), CalendarRefused>
        requires booked { AllByRecursion (λ x. contains_key (calendar_of self.old).bookings (x.die.0, x.round.0) ≡ true) old.now }
        requires opens { AllByRecursion (λ x. IsOpen (calendar_of self.old).round (is_taken (without_places old.now (calendar_of self.old)))
            x.die.0 x.round.0) new.now }
        requires apart { AreApart new.now }
        ensures ok { OnOk result (calendar_of self.new ≡ booked batch new.now (without_places old.now (calendar_of self.old))) }
        ensures fits { OnOk result (FewClosed (calendar_of self.old).round
            (is_taken_with (without_places old.now (calendar_of self.old)) new.now)) }
        ensures full { IsErrOf result CalendarRefused.Full → (die : ℕ)
            × IsFull (calendar_of self.old).round (is_taken_with (without_places old.now (calendar_of self.old)) new.now die) 0 }
        ensures err { OnErr result (calendar_of self.new ≡ calendar_of self.old) }
    {
        if let Err(_) = self.booked.reserve(new.len()) {
            return Err(CalendarRefused::NoMemory);
        }
        if let Err(refused) = self.calendar.exchange(old, new) {
            return Err(refused);
        }
        take_out_all(&mut self.booked, old);
        book_all(&mut self.booked, batch, new);
        Ok(())
    }

    /// Opens these booked places. It takes no memory.
    pub fn release_all(&mut self, places: &[Place])
        requires { AllByRecursion (λ x. contains_key (calendar_of self.old).bookings (x.die.0, x.round.0) ≡ true) places.now }
        ensures { calendar_of self.new ≡ without_places places.now (calendar_of self.old) }
    {
        self.calendar.release_all(places);
        take_out_all(&mut self.booked, places);
    }

    /// A die's window, if it has one that has not passed.
    pub fn window(&self, die: Die) -> Option<Window>
        ensures { result ≡ get (calendar_of self.now).windows die.0 }
    {
        self.calendar.window(die)
    }

    /// Whether a die's calendar has room for `rounds` more rounds, 64 at most.
    pub fn has_room(&self, die: Die, rounds: u64) -> bool
        requires { rounds ≤ 64 }
        ensures room { result ≡ true → HasRoomFor (calendar_of self.now) die.0 rounds }
        ensures full { result ≡ false → IsFull (calendar_of self.now).round (is_taken (calendar_of self.now) die.0) rounds }
    {
        self.calendar.entries(die) <= MAX_ENTRIES - rounds
    }

    /// Keeps the first run of `rounds` open rounds of a die after the current one as its window, and answers its first round:
    /// 1 to 64 rounds, of a die that has no window. Refused, nothing has changed.
    pub fn reserve_window(&mut self, die: Die, rounds: u64) -> Result<Round, CalendarRefused>
        requires none { get (calendar_of self.old).windows die.0 ≡ None }
        requires some { 1 ≤ rounds }
        requires short { rounds ≤ 64 }
        requires early { (calendar_of self.old).round ≤ 2 ^ 56 }
        ensures first { IfOk result (λ first. IsFirstWindow (calendar_of self.old).round (is_taken (calendar_of self.old) die.0) rounds
            first.0) }
        ensures windows { IfOk result (λ first. calendar_of self.new ≡ record (calendar_of self.old) {
          windows = insert (calendar_of self.old).windows die.0 (record { first = first; last = record { 0 = first.0 + rounds - 1 } });
        }) }
        ensures fits { IsOk result → HasRoomFor (calendar_of self.old) die.0 rounds }
        ensures full { IsErrOf result CalendarRefused.Full
            → IsFull (calendar_of self.old).round (is_taken (calendar_of self.old) die.0) rounds }
        ensures no_memory { IsErrOf result CalendarRefused.NoMemory → HasRoomFor (calendar_of self.old) die.0 rounds }
        ensures err { OnErr result (calendar_of self.new ≡ calendar_of self.old) }
    {
        match self.calendar.reserve_window(die, rounds) {
            Ok(first) => Ok(first),
            Err(refused) => Err(refused),
        }
    }

    /// A die's rounds are all open, and it has no window.
    pub fn drop_die(&mut self, die: Die)
        ensures { calendar_of self.new ≡ record (calendar_of self.old) {
          bookings = keep (λ place booking. not (place.0 == die.0)) (calendar_of self.old).bookings;
          windows = remove (calendar_of self.old).windows die.0;
        } }
    {
        self.calendar.drop_die(die);
        forget_die(&mut self.booked, die.0);
    }

    /// The number of the first die from one on that may have bookings or a window; 256 where there is none.
    pub fn busy_from(&self, from: usize) -> usize
        requires { from ≤ 256 }
        ensures behind { from ≤ result }
        ensures most { result ≤ 256 }
        ensures bookings { (die round : ℕ) → from ≤ die → die < result → get (calendar_of self.now).bookings (die, round) ≡ None }
        ensures windows { (die : ℕ) → from ≤ die → die < result → get (calendar_of self.now).windows die ≡ None }
    {
        self.calendar.busy_from(from)
    }

    /// The next round is the current one. The bookings of the one that has passed go, and the windows that ended in it. It takes a few
    /// steps for each die that may have bookings or a window, and a look into the table for each that the round is booked at.
    pub fn advance(&mut self)
        requires { (calendar_of self.old).round < 2 ^ 56 }
        ensures { calendar_of self.new ≡ record {
          round = (calendar_of self.old).round + 1;
          bookings = keep (λ place b. nat_lt (calendar_of self.old).round place.1) (calendar_of self.old).bookings;
          windows = keep (λ die window. nat_lt (calendar_of self.old).round window.last.0) (calendar_of self.old).windows;
        } }
    {
        forget_current(&self.calendar, &mut self.booked);
        self.calendar.advance();
    }
}

impl<A: Allocator + Copy> Bookings<A> {
    ghost use Rattle.fa_closed.specs.Closed as spans;
    ghost use Rattle.fa_core_bookings.specs.Bookings.{calendar_of};

    /// The closed rounds of all dies, these booked places left out. The error is out of memory.
    pub fn closed(&self, alloc: A, without: &[Place]) -> Result<Closed<A>, AllocError>
        requires { AllByRecursion (λ x. contains_key (calendar_of self.now).bookings (x.die.0, x.round.0) ≡ true) without.now }
        ensures current { IfOk result (λ closed. spans.current_of closed ≡ (calendar_of self.now).round) }
        ensures closed { IfOk result (λ closed. (die round : ℕ) → (calendar_of self.now).round ≤ round
            → spans.is_closed closed die round ≡ is_taken (without_places without.now (calendar_of self.now)) die round) }
    {
        self.calendar.closed(alloc, without)
    }
}

impl<A: Allocator + Clone> Rounds for Bookings<A> {
    ghost use Rattle.fa_core_bookings.specs.Bookings.{calendar_of};
    ghost use Rattle.fa_core_bookings.specs.Found.{few_of};

    ghost current = { λ bookings. (calendar_of bookings).round };

    ghost closed = { λ bookings. is_taken (calendar_of bookings) };

    ghost few_closed = { few_of };

    fn now(&self) -> Round {
        self.calendar.now()
    }

    /// It takes as many steps as the logarithm of the number of the die's runs of closed rounds.
    fn is_open(&self, die: Die, round: Round) -> bool {
        self.calendar.is_open(die, round)
    }

    /// It takes a look at each run of closed rounds of the die.
    fn open_count(&self, die: Die, rounds: u64) -> u64 {
        self.calendar.open_count(die, rounds)
    }

    /// It takes a look at each run of closed rounds of the die before the answer.
    fn nth_open(&self, die: Die, n: u64) -> Round {
        self.calendar.nth_open(die, n)
    }
}
