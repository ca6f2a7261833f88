//! The calendar of one die.
ghost use Rattle.std.specs.Prelude.{◌≡◌, ℕ, ◌+◌, ◌-◌, ◌^◌, ◌<◌, ◌≤◌, ◌==◌, ◌&&◌, ◌||◌, Bool, true, false, not, [], OnOk, OnErr, IfOk};
ghost use Rattle.std.specs.Prelude.{IsOk, IsErrOf, IsTrue, Some, None};
ghost use Rattle.std.specs.VecDeque.{deque_len, deque_capacity};
ghost use Rattle.fa_types.specs.Open.{rounds_that, max_closed};
ghost use Rattle.fa_closed.specs.Runs.{is_covered, is_from, IsNthFree};
ghost use Rattle.fa_calendar.specs.Merging.{total_rounds, AddsRun, AreMerged, DropsRound};
ghost use Rattle.fa_calendar.specs.DieState.{IsRoomy};
ghost use Rattle.fa_calendar.specs.Dies.{is_at};
ghost use Rattle.fa_types.specs.Windows.{is_in_window, IsFirstWindow};
ghost use Rattle.fa_calendar.specs.Windows.{left_window};

use crate::gap::first_gap;
use crate::merging::{pass, put_in, take_out};
use crate::refused::CalendarRefused;
use fa_batch_terms::Place;
use fa_closed::{Span, Spans, count_covered, covers, nth_uncovered};
use fa_types::{Round, Window};
use std::alloc::{AllocError, Allocator, Global};
use std::collections::VecDeque;
use std::marker::Model;

/// The most entries of a die.
const MAX_ENTRIES: u64 = 1_048_576;

/// The closed rounds of a die as spans, no two of which touch, its window, and how many rounds are closed.
/// There is room for as many spans as rounds, so that no round takes memory to be opened.
#[derive(Drop)]
pub struct DieCalendar<A: Allocator = Global> {
    spans: VecDeque<Span, A>,
    window: Option<Window>,
    entries: u64,
}

impl<A: Allocator> Model for DieCalendar<A> {
    ghost use Rattle.std.specs.Prelude.{◌≡◌, ◌≤◌};
    ghost use Rattle.std.specs.VecDeque.{deque_capacity};
    ghost use Rattle.fa_types.specs.Open.{max_closed};
    ghost use Rattle.fa_calendar.specs.Merging.{total_rounds, AreMerged};
    ghost use Rattle.fa_calendar.specs.DieState.{DieState};

    ghost Value = { DieState };

    ghost view = { λ d. record { spans = d.spans.items; window = d.window; room = deque_capacity d.spans } };

    ghost invariant = { λ d. record {
      merged : AreMerged d.spans.items;
      counted : d.entries ≡ total_rounds d.spans.items;
      few : total_rounds d.spans.items ≤ max_closed;
      kept : total_rounds d.spans.items ≤ deque_capacity d.spans;
    } };
}

impl<A: Allocator> DieCalendar<A> {
    /// A die with no closed round and no window.
    pub fn new(alloc: A) -> DieCalendar<A>
        ensures spans { result.spans ≡ [] }
        ensures window { result.window ≡ None }
    {
        DieCalendar {
            spans: VecDeque::new(alloc),
            window: None,
            entries: 0,
        }
    }

    /// Whether the round is closed. It takes as many steps as the logarithm of the number of spans.
    pub fn is_closed(&self, round: u64) -> bool
        ensures { result ≡ is_covered self.now.spans round }
    {
        covers(&self.spans, round)
    }

    /// Whether the round is closed and not in the window.
    pub fn is_booked(&self, round: u64) -> bool
        ensures { result ≡ (is_covered self.now.spans round && not (is_in_window self.now.window round)) }
    {
        if let Some(window) = self.window {
            if window.first.0 <= round && round <= window.last.0 {
                return false;
            }
        }
        covers(&self.spans, round)
    }

    /// How many of so many rounds from a first one are closed. It takes a look at each span.
    pub fn count(&self, from: u64, rounds: u64) -> u64
        requires { from + rounds < 2 ^ 64 }
        ensures { result ≡ rounds_that (is_covered self.now.spans) from rounds }
    {
        count_covered(&self.spans, from, rounds)
    }

    /// The n-th round from a first one, n from 1, that is not closed. It takes a look at each span before
    /// it.
    pub fn nth_open(&self, from: u64, n: u64) -> u64
        requires first { 1 ≤ n }
        requires small { n ≤ 2 ^ 32 }
        requires early { from ≤ 2 ^ 56 }
        ensures { IsNthFree self.now.spans from n result }
    {
        nth_uncovered(&self.spans, from, n)
    }

    /// Whether no round is closed, and there is no window. It reads a counter.
    pub fn is_idle(&self) -> bool
        ensures closed { IsTrue result → (round : ℕ) → is_covered self.now.spans round ≡ false }
        ensures window { IsTrue result → self.now.window ≡ None }
    {
        self.entries == 0 && self.window.is_none()
    }

    /// How many rounds are closed. It reads a counter.
    pub fn entries(&self) -> u64
        ensures most { (from n : ℕ) → rounds_that (is_covered self.now.spans) from n ≤ result }
        ensures reached { (n : ℕ) × (rounds_that (is_covered self.now.spans) 0 n ≡ result) }
    {
        self.entries
    }

    /// The window that has not passed.
    pub fn window(&self) -> Option<Window>
        ensures { result ≡ self.now.window }
    {
        self.window
    }

    /// Closes an open round, with room for one more span.
    pub fn book(&mut self, round: u64) -> Result<(), CalendarRefused>
        requires { is_covered self.old.spans round ≡ false }
        ensures ok { OnOk result ((r : ℕ) → is_covered self.new.spans r ≡ (is_covered self.old.spans r || is_from round round r)) }
        ensures full { IsErrOf result CalendarRefused.Full
            → (n : ℕ) × (max_closed < rounds_that (λ r. is_covered self.old.spans r || is_from round round r) 0 n) }
        ensures err { OnErr result (self.new.spans ≡ self.old.spans) }
        ensures window { self.new.window ≡ self.old.window }
        ensures room { self.old.room ≤ self.new.room }
        ensures roomy { IsRoomy self.new }
    {
        if self.entries >= MAX_ENTRIES {
            return Err(CalendarRefused::Full);
        }
        if make_room(&mut self.spans, self.entries + 1).is_err() {
            return Err(CalendarRefused::NoMemory);
        }
        close(&mut self.spans, round, round);
        self.entries += 1;
        Ok(())
    }

    /// Closes a round, for which there is room, where it is open.
    pub fn restore(&mut self, round: u64)
        requires few { (n : ℕ) → rounds_that (λ r. is_covered self.old.spans r || is_from round round r) 0 n ≤ max_closed }
        requires kept { (n : ℕ) → rounds_that (λ r. is_covered self.old.spans r || is_from round round r) 0 n ≤ self.old.room }
        ensures closed { (r : ℕ) → is_covered self.new.spans r ≡ (is_covered self.old.spans r || is_from round round r) }
        ensures window { self.new.window ≡ self.old.window }
        ensures room { self.old.room ≤ self.new.room }
        ensures roomy { IsRoomy self.new }
    {
        if !covers(&self.spans, round) {
            close(&mut self.spans, round, round);
            self.entries += 1;
        }
    }

    /// Opens a round.
    pub fn open(&mut self, round: u64)
        ensures opened { (r : ℕ) → is_covered self.new.spans r ≡ (is_covered self.old.spans r && not (r == round)) }
        ensures window { self.new.window ≡ self.old.window }
        ensures room { self.old.room ≤ self.new.room }
        ensures roomy { IsRoomy self.new }
    {
        if covers(&self.spans, round) {
            open(&mut self.spans, round);
            self.entries -= 1;
        }
    }

    /// Keeps the first run of so many open rounds after the current one as the window, and answers its
    /// first round.
    pub fn reserve_window(&mut self, now: u64, rounds: u64) -> Result<u64, CalendarRefused>
        requires some { 1 ≤ rounds }
        requires short { rounds ≤ 64 }
        requires early { now ≤ 2 ^ 56 }
        ensures first { IfOk result (λ first. IsFirstWindow now (is_covered self.old.spans) rounds first) }
        ensures window { IfOk result (λ first. self.new.window ≡ Some (record { first = record { 0 = first }; last = record { 0 = first + rounds - 1 } })) }
        ensures closed { IfOk result (λ first.
            (r : ℕ) → is_covered self.new.spans r ≡ (is_covered self.old.spans r || is_from first (first + rounds - 1) r)) }
        ensures full { IsErrOf result CalendarRefused.Full → (n : ℕ) × (max_closed < rounds_that (is_covered self.old.spans) 0 n + rounds) }
        ensures fits { IsOk result → (from n : ℕ) → rounds_that (is_covered self.old.spans) from n + rounds ≤ max_closed }
        ensures no_memory { IsErrOf result CalendarRefused.NoMemory
            → (from n : ℕ) → rounds_that (is_covered self.old.spans) from n + rounds ≤ max_closed }
        ensures err { OnErr result ((self.new.spans ≡ self.old.spans) × (self.new.window ≡ self.old.window)) }
        ensures room { self.old.room ≤ self.new.room }
        ensures roomy { IsRoomy self.new }
    {
        if self.entries + rounds > MAX_ENTRIES {
            return Err(CalendarRefused::Full);
        }
        if make_room(&mut self.spans, self.entries + rounds).is_err() {
            return Err(CalendarRefused::NoMemory);
        }
        let first = first_gap(&self.spans, now, rounds);
        let last = first + rounds - 1;
        close(&mut self.spans, first, last);
        self.entries += rounds;
        self.window = Some(Window {
            first: Round(first),
            last: Round(last),
        });
        Ok(first)
    }

    /// The closed rounds, these places of the die left out.
    pub fn spans_without(
        &self,
        alloc: A,
        number: u8,
        without: &[Place],
    ) -> Result<Spans<A>, AllocError>
        ensures { IfOk result (λ spans. (r : ℕ) → is_covered spans r ≡ (is_covered self.now.spans r && not (is_at without.now number r))) }
    {
        let mut spans = copy_spans(alloc, &self.spans)?;
        take_all(&mut spans, number, without)?;
        Ok(Spans::of(spans))
    }

    /// Opens all rounds, those of the window among them.
    pub fn clear(&mut self)
        ensures spans { self.new.spans ≡ [] }
        ensures window { self.new.window ≡ None }
        ensures room { self.old.room ≤ self.new.room }
        ensures roomy { IsRoomy self.new }
    {
        self.spans.clear();
        self.window = None;
        self.entries = 0;
    }

    /// Forgets a round, which is the first one that may be closed, and the window where it ended in it. It
    /// takes the same few steps however many spans there are.
    pub fn pass(&mut self, round: u64)
        requires { (r : ℕ) → r < round → is_covered self.old.spans r ≡ false }
        ensures opened { (r : ℕ) → is_covered self.new.spans r ≡ (is_covered self.old.spans r && not (r == round)) }
        ensures window { self.new.window ≡ left_window round self.old.window }
        ensures room { self.old.room ≤ self.new.room }
        ensures roomy { IsRoomy self.new }
    {
        if pass(&mut self.spans, round) {
            self.entries -= 1;
        }
        if let Some(window) = self.window {
            if window.last.0 <= round {
                self.window = None;
            }
        }
    }
}

/// The same spans once more.
fn copy_spans<A: Allocator>(
    alloc: A,
    spans: &VecDeque<Span, A>,
) -> Result<VecDeque<Span, A>, AllocError>
    ensures { IfOk result (λ copy. copy.items ≡ spans.now.items) }
{
    let mut copy = VecDeque::with_capacity(alloc, spans.len())?;
    for index in 0..spans.len() {
        copy.push_back(spans[index])?;
    }
    Ok(copy)
}

/// Takes the places of a die out of its spans, where they lie in them.
fn take_all<A: Allocator>(
    spans: &mut VecDeque<Span, A>,
    number: u8,
    places: &[Place],
) -> Result<(), AllocError>
    requires { AreMerged spans.old.items }
    ensures merged { OnOk result (AreMerged spans.new.items) }
    ensures opened { OnOk result ((r : ℕ) → is_covered spans.new.items r
        ≡ (is_covered spans.old.items r && not (is_at places.now number r))) }
{
    for place in places {
        if place.die.0 == number && covers(spans, place.round.0) {
            take_out(spans, place.round.0)?;
        }
    }
    Ok(())
}

/// Makes room for so many spans, at least. Where that takes memory, it takes some for more of them.
fn make_room<A: Allocator>(spans: &mut VecDeque<Span, A>, entries: u64) -> Result<(), AllocError>
    requires within { deque_len spans.old ≤ entries }
    requires few { entries ≤ max_closed }
    ensures items { spans.new.items ≡ spans.old.items }
    ensures ok { OnOk result (entries ≤ deque_capacity spans.new) }
    ensures room { deque_capacity spans.old ≤ deque_capacity spans.new }
{
    let needed = entries as usize;
    if needed <= spans.capacity() {
        return Ok(());
    }
    let room = (2 * needed).min(1_048_576);
    spans.reserve(room - spans.len())
}

/// Closes rounds for which there is room.
fn close<A: Allocator>(spans: &mut VecDeque<Span, A>, first: u64, last: u64)
    requires proper { first ≤ last }
    requires merged { AreMerged spans.old.items }
    requires free { (round : ℕ) → first ≤ round → round ≤ last → is_covered spans.old.items round ≡ false }
    requires kept { total_rounds spans.old.items < deque_capacity spans.old }
    ensures added { AddsRun spans.old.items first last spans.new.items }
    ensures room { deque_capacity spans.old ≤ deque_capacity spans.new }
{
    if put_in(spans, first, last).is_err() {
        unreachable!()
    }
}

/// Opens a round of those for which there is room.
fn open<A: Allocator>(spans: &mut VecDeque<Span, A>, round: u64)
    requires merged { AreMerged spans.old.items }
    requires covered { is_covered spans.old.items round ≡ true }
    requires kept { total_rounds spans.old.items ≤ deque_capacity spans.old }
    ensures gone { DropsRound spans.old.items round spans.new.items }
    ensures room { deque_capacity spans.old ≤ deque_capacity spans.new }
{
    if take_out(spans, round).is_err() {
        unreachable!()
    }
}
