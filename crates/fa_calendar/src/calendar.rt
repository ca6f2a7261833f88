//! The calendar of all dies.
ghost use Rattle.std.specs.Prelude.{◌≡◌, ℕ, ◌+◌, ◌-◌, ◌^◌, ◌<◌, ◌≤◌, ◌||◌, ◌&&◌, ◌==◌, not, nat_lt, if◌then◌else◌, Bool, true, false};
ghost use Rattle.std.specs.Prelude.{List, IfOk, IsOk, OnOk, OnErr, IsErrOf, IsTrue, Some, None};
ghost use Rattle.std.specs.List.{AllByRecursion};
ghost use Rattle.fa_types.specs.Open.{rounds_that, max_closed, FewClosed, IsOpen};
ghost use Rattle.fa_batch_terms.specs.Plan.{AreApart};
ghost use Rattle.fa_calendar.specs.Dies.{AreIdle, IsCalendar, is_at};
ghost use Rattle.fa_types.specs.Windows.{AreEntries, IsFirstWindow, IsFull};
ghost use Rattle.fa_calendar.specs.Windows.{left_window};

use crate::busy::BusyDies;
use crate::die::DieCalendar;
use crate::dies::{
    book_all, enter_all, open_all, open_dies, open_one, pass_all, restore_all, spans_without,
};
use crate::refused::CalendarRefused;
use fa_batch_terms::Place;
use fa_closed::Closed;
use fa_types::{Die, Round, Rounds, Window};
use std::alloc::{AllocError, Allocator, Global};

/// A current round, the rounds of each die that are booked for reads, and the window of each die that has
/// one which has not passed. The closed rounds of a die are kept as spans, no two of which touch.
#[derive(Drop)]
pub struct Calendar<A: Allocator = Global> {
    current: u64,
    // The calendar of each die, by its number.
    dies: Vec<DieCalendar<A>, A>,
    // Each die that has a closed round or a window, and it may be others.
    busy: BusyDies<A>,
    ghost sound: { IsCalendar current dies.items },
    ghost idle: { AreIdle busy dies.items },
}

impl<A: Allocator + Copy> Calendar<A> {
    ghost use Rattle.fa_calendar.specs.Calendar.{current_of, is_booked, window_of};

    /// A calendar that begins at a round, with nothing booked and no window.
    pub fn new(alloc: A, round: Round) -> Result<Calendar<A>, AllocError>
        ensures current { IfOk result (λ calendar. current_of calendar ≡ round.0) }
        ensures booked { IfOk result (λ calendar. (die r : ℕ) → is_booked calendar die r ≡ false) }
        ensures windows { IfOk result (λ calendar. (die : ℕ) → window_of calendar die ≡ None) }
    {
        let dies = open_dies(alloc)?;
        let busy = BusyDies::new(alloc)?;
        Ok(Calendar {
            current: round.0,
            dies,
            busy,
        })
    }
}

impl<A: Allocator> Calendar<A> {
    ghost use Rattle.fa_calendar.specs.Calendar.{current_of, is_booked, window_of, is_closed, is_closed_without, is_closed_with};
    ghost use Rattle.fa_calendar.specs.Calendar.{IsUnchanged};

    /// Releases the booked places `old` and books `new`, which are open once `old` is free, no two the
    /// same. Refused, the calendar is as it was.
    pub fn exchange(&mut self, old: &[Place], new: &[Place]) -> Result<(), CalendarRefused>
        requires booked { AllByRecursion (λ x. is_booked self.old x.die.0 x.round.0 ≡ true) old.now }
        requires opens { AllByRecursion (λ x. IsOpen (current_of self.old) (is_closed_without self.old old.now) x.die.0 x.round.0) new.now }
        requires apart { AreApart new.now }
        ensures current { current_of self.new ≡ current_of self.old }
        ensures windows { (die : ℕ) → window_of self.new die ≡ window_of self.old die }
        ensures ok { OnOk result ((die round : ℕ) → is_booked self.new die round
            ≡ ((is_booked self.old die round && not (is_at old.now die round)) || is_at new.now die round)) }
        ensures full { IsErrOf result CalendarRefused.Full
            → (die : ℕ) × IsFull (current_of self.old) (is_closed_with self.old old.now new.now die) 0 }
        ensures err { OnErr result (IsUnchanged self.old self.new) }
    {
        enter_all(&mut self.busy, new);
        open_all(&mut self.dies, old);
        if let Err(refused) = book_all(&mut self.dies, new) {
            restore_all(&mut self.dies, old);
            return Err(refused);
        }
        Ok(())
    }

    /// Whether a round of a die is booked. It takes as many steps as the logarithm of the number of the die's
    /// runs of closed rounds.
    pub fn is_booked(&self, die: Die, round: Round) -> bool
        ensures booked { result ≡ is_booked self.now die.0 round.0 }
        ensures late { IsTrue result → current_of self.now ≤ round.0 }
    {
        self.dies[die.0 as usize].is_booked(round.0)
    }

    /// Releases a booked round of a die. It takes no memory.
    pub fn release(&mut self, die: Die, round: Round)
        requires { is_booked self.old die.0 round.0 ≡ true }
        ensures current { current_of self.new ≡ current_of self.old }
        ensures windows { (d : ℕ) → window_of self.new d ≡ window_of self.old d }
        ensures booked { (d r : ℕ) → is_booked self.new d r ≡ (is_booked self.old d r && not (die.0 == d && round.0 == r)) }
    {
        open_one(&mut self.dies, die, round);
    }

    /// Releases these booked places. It takes no memory.
    pub fn release_all(&mut self, places: &[Place])
        requires { AllByRecursion (λ x. is_booked self.old x.die.0 x.round.0 ≡ true) places.now }
        ensures current { current_of self.new ≡ current_of self.old }
        ensures windows { (d : ℕ) → window_of self.new d ≡ window_of self.old d }
        ensures booked { (d r : ℕ) → is_booked self.new d r ≡ (is_booked self.old d r && not (is_at places.now d r)) }
    {
        open_all(&mut self.dies, places);
    }

    /// Keeps the first run of so many open rounds of a die after the current one as its window, and
    /// answers its first round: 1 to 64 rounds, of a die that has no window which has not passed.
    /// Refused, the calendar is as it was.
    pub fn reserve_window(&mut self, die: Die, rounds: u64) -> Result<Round, CalendarRefused>
        requires none { window_of self.old die.0 ≡ None }
        requires some { 1 ≤ rounds }
        requires short { rounds ≤ 64 }
        requires early { current_of self.old ≤ 2 ^ 56 }
        ensures current { current_of self.new ≡ current_of self.old }
        ensures booked { (d r : ℕ) → is_booked self.new d r ≡ is_booked self.old d r }
        ensures first { IfOk result (λ first. IsFirstWindow (current_of self.old) (is_closed self.old die.0) rounds first.0) }
        ensures windows { IfOk result (λ first. (d : ℕ) → window_of self.new d
            ≡ (if die.0 == d then Some (record { first = first; last = record { 0 = first.0 + rounds - 1 } }) else window_of self.old d)) }
        ensures fits { IsOk result → (n : ℕ) → rounds_that (is_closed self.old die.0) (current_of self.old) n + rounds ≤ max_closed }
        ensures full { IsErrOf result CalendarRefused.Full → IsFull (current_of self.old) (is_closed self.old die.0) rounds }
        ensures no_memory { IsErrOf result CalendarRefused.NoMemory
            → (n : ℕ) → rounds_that (is_closed self.old die.0) (current_of self.old) n + rounds ≤ max_closed }
        ensures err { OnErr result (IsUnchanged self.old self.new) }
    {
        self.busy.enter(die);
        match self.dies[die.0 as usize].reserve_window(self.current, rounds) {
            Ok(first) => Ok(Round(first)),
            Err(refused) => Err(refused),
        }
    }

    /// A die's window, if it has one that has not passed.
    pub fn window(&self, die: Die) -> Option<Window>
        ensures { result ≡ window_of self.now die.0 }
    {
        self.dies[die.0 as usize].window()
    }

    /// The least die from a number on that may have a booking or a window that has not passed; 256 where there is none. No die that
    /// has neither is answered, save one that lost them since the last round passed.
    pub fn busy_from(&self, from: usize) -> usize
        requires { from ≤ 256 }
        ensures behind { from ≤ result }
        ensures most { result ≤ 256 }
        ensures booked { (die round : ℕ) → from ≤ die → die < result → is_booked self.now die round ≡ false }
        ensures windows { (die : ℕ) → from ≤ die → die < result → window_of self.now die ≡ None }
    {
        self.busy.next_from(from)
    }

    /// How many entries a die has: its booked rounds, and the rounds of its window that have not passed. It
    /// reads a counter.
    pub fn entries(&self, die: Die) -> u64
        ensures { AreEntries (current_of self.now) (is_closed self.now die.0) result }
    {
        self.dies[die.0 as usize].entries()
    }

    /// Opens all rounds of a die: nothing is booked there, and it has no window. It takes no memory.
    pub fn drop_die(&mut self, die: Die)
        ensures current { current_of self.new ≡ current_of self.old }
        ensures booked { (d r : ℕ) → is_booked self.new d r ≡ (not (die.0 == d) && is_booked self.old d r) }
        ensures windows { (d : ℕ) → window_of self.new d ≡ (if die.0 == d then None else window_of self.old d) }
    {
        self.dies[die.0 as usize].clear();
    }

    /// Goes on to the next round. What was booked in the round that has passed is forgotten, and each
    /// window that ended in it. It takes no memory, and a few steps for each die that has a booking or a window,
    /// or for which one was asked since the last round.
    pub fn advance(&mut self)
        requires { current_of self.old + 1 < 2 ^ 64 }
        ensures current { current_of self.new ≡ current_of self.old + 1 }
        ensures booked { (d r : ℕ) → is_booked self.new d r ≡ (nat_lt (current_of self.old) r && is_booked self.old d r) }
        ensures windows { (d : ℕ) → window_of self.new d ≡ left_window (current_of self.old) (window_of self.old d) }
    {
        pass_all(&mut self.dies, &mut self.busy, self.current);
        self.current += 1;
    }
}

impl<A: Allocator + Copy> Calendar<A> {
    ghost use Rattle.fa_closed.specs.Closed as spans;
    ghost use Rattle.fa_calendar.specs.Calendar.{current_of, is_booked, is_closed_without};

    /// The closed rounds of all dies, these booked places left out.
    pub fn closed(&self, alloc: A, without: &[Place]) -> Result<Closed<A>, AllocError>
        requires { AllByRecursion (λ x. is_booked self.now x.die.0 x.round.0 ≡ true) without.now }
        ensures current { IfOk result (λ closed. spans.current_of closed ≡ current_of self.now) }
        ensures closed { IfOk result (λ closed. (die round : ℕ) → current_of self.now ≤ round
            → spans.is_closed closed die round ≡ is_closed_without self.now without.now die round) }
    {
        let all = spans_without(alloc, &self.dies, without)?;
        Ok(Closed::of_spans(Round(self.current), all))
    }
}

impl<A: Allocator> Rounds for Calendar<A> {
    ghost use Rattle.fa_calendar.specs.Calendar.{current_of, is_closed};

    ghost current = { current_of };

    ghost closed = { is_closed };

    ghost few_closed = { λ calendar. calendar.sound.few };

    fn now(&self) -> Round {
        Round(self.current)
    }

    /// It takes as many steps as the logarithm of the number of the die's runs of closed rounds.
    fn is_open(&self, die: Die, round: Round) -> bool {
        self.current <= round.0 && !self.dies[die.0 as usize].is_closed(round.0)
    }

    /// It takes a look at each run of closed rounds of the die.
    fn open_count(&self, die: Die, rounds: u64) -> u64 {
        rounds - self.dies[die.0 as usize].count(self.current, rounds)
    }

    /// It takes a look at each run of closed rounds of the die before the answer.
    fn nth_open(&self, die: Die, n: u64) -> Round {
        Round(self.dies[die.0 as usize].nth_open(self.current, n))
    }
}
