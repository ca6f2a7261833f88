//! The array under its lock.
ghost use Rattle.std.specs.Prelude.{◌≡◌, ◌⊎◌, ℕ, ◌+◌, ◌<◌, ◌≤◌, true, false, IfOk, IfErr, IfSome, IfNone, length};
ghost use Rattle.fa_machine.specs.Looks.{counts as rule_counts};
ghost use Rattle.fa_core_tables.specs.Counted.{capped};
ghost use Rattle.fa_core_calls.specs.Calls.{commits_of_answer};
ghost use Rattle.fa_shared_lock.specs.Only.{has_passed as rule_passed};
ghost use Rattle.fa_shared_lock.specs.Seats.{commits_together};

use crate::seat::Seat;
use fa_core_calls::{Answer, Call, Events};
use fa_plan::{PlanNote, Planned};
use fa_shared_account::make_counted;
use fa_shared_sleepers::{Awaits, DieSet, MAX_SEATS, SeatSet, Sleepers, is_due};
use fa_types::Page;
use std::alloc::{Allocator, Global};
use std::marker::Model;
use std::sync::ledger::{Blank, Book, Ledger, Share};

/// How many parts the ledger of an array has: one for each seat, and one that stays under the lock.
const PARTS: u64 = MAX_SEATS as u64 + 1;

/// Seats were not gathered.
#[derive(Drop)]
pub enum Gathered<L: Ledger, A: Allocator = Global> {
    /// Some seat that is out is not among these, which are handed back.
    Missing(Vec<Seat<L>, A>),
}

/// An array that is shared under a lock, with the account of its Commits: the book has how many there were, and each seat how many of
/// them were made with it. Each event is made with a seat, and nothing else changes the array.
#[derive(Drop)]
pub struct Locked<L: Ledger, E: Events<A>, A: Allocator + Copy = Global> {
    array: E,
    alloc: A,
    book: Book<L>,
    // What is left of the ledger's parts, with the Commits of the seats that came back.
    rest: Share<L>,
    out: u32,
    stopping: bool,
    // Who sleeps is no part of what clauses see.
    sleepers: Sleepers<A>,
}

impl<L: Ledger, E: Events<A>, A: Allocator + Copy> Model for Locked<L, E, A> {
    ghost use Rattle.std.specs.Prelude.{◌≡◌, ◌+◌, ◌≤◌};
    ghost use Rattle.fa_machine.specs.Looks.{counts};
    ghost use Rattle.fa_shared_lock.specs.Codes.{locked_code};
    ghost use Rattle.fa_shared_lock.specs.Locked.{LockedState};

    ghost Value = { LockedState };

    ghost coded = { locked_code };

    ghost view = { λ l. record {
      core = E.core l.array;
      number = E.number l.array;
      book = l.book.total;
      out = l.out;
      gathered = l.rest.amount;
      stopping = l.stopping;
    } };

    ghost invariant = { λ l. E.whole l.array × (l.book.total ≡ (counts (E.core l.array)).0)
        × (l.rest.parts + l.out ≡ 257) × (l.out ≤ 256) };
}

impl<L: Ledger, E: Events<A>, A: Allocator + Copy> Locked<L, E, A> {
    ghost use Rattle.fa_core_calls.specs.Calls.{FitsAnswer, HandsOutWhole, Makes};
    ghost use Rattle.fa_laws.specs.Counted.{HasHistory};
    ghost use Rattle.fa_shared_lock.specs.Locked.{LockedState};
    ghost use Rattle.fa_shared_lock.specs.Only.{IsAdvance, MakesOnly, MayNotAdvance};
    ghost use Rattle.fa_shared_lock.specs.Seats.{commits_with, number_of};

    /// An array with a ledger of 257 parts that nothing else names. The book begins with the Commits that were made before. Where memory is
    /// refused, or so many Commits were made that a count of 64 bits does not tell them, the array is handed back.
    pub fn new(alloc: A, blank: Blank, array: E) -> Result<Locked<L, E, A>, E>
        requires name { blank.name ≡ L.name }
        requires parts { (blank.parts ≡ L.parts) × (blank.parts ≡ 257) }
        requires whole { E.whole array }
        ensures locked { IfOk result (λ locked. locked ≡ record {
          core = E.core array;
          number = E.number array;
          book = (rule_counts (E.core array)).0;
          out = 0;
          gathered = (rule_counts (E.core array)).0;
          stopping = false;
        }) }
        ensures refused { IfErr result (λ back. back ≡ array) }
    {
        let commits = array.commits();
        if commits == u64::MAX {
            return Err(array);
        }
        let sleepers = match Sleepers::new(alloc) {
            Ok(sleepers) => sleepers,
            Err(_) => return Err(array),
        };
        let (mut book, mut rest) = blank.open::<L>();
        book.add(&mut rest, commits);
        Ok(Locked {
            array,
            alloc,
            book,
            rest,
            out: 0,
            stopping: false,
            sleepers,
        })
    }

    /// One event of the array with its answer, made with a seat. Where a condition of the event does not hold of the array as it is now,
    /// the answer is Stranger and nothing has changed.
    pub fn step(&mut self, seat: &mut Seat<L>, call: Call<'_, A>) -> Answer<A>
        ensures event { Makes self.old.core (number_of seat.old) call.entry result self.new.core }
        ensures account { self.new ≡ record self.old { core = self.new.core; book = self.old.book + commits_of_answer result } }
        ensures commits { commits_with seat.new ≡ commits_with seat.old + commits_of_answer result }
        ensures number { number_of seat.new ≡ number_of seat.old }
        ensures fits { FitsAnswer self.old.core.page_map.geometry self.old.number call.entry result }
        ensures handed { HandsOutWhole self.old.core call.entry result }
    {
        make_counted(
            self.alloc,
            &mut self.array,
            &mut self.book,
            seat.number,
            &mut seat.share,
            call,
        )
    }

    /// Lets rounds pass, with a seat of the array, until one is refused, and at most 4,294,967,295.
    pub fn settle(&mut self, seat: &mut Seat<L>)
        ensures only { MakesOnly IsAdvance self.old.core self.new.core }
        ensures settled { MayNotAdvance self.new.core ⊎ (self.new.core.calendar.round ≡ self.old.core.calendar.round + 4294967295) }
        ensures rest { self.new ≡ record self.old { core = self.new.core } }
        ensures commits { commits_with seat.new ≡ commits_with seat.old }
        ensures number { number_of seat.new ≡ number_of seat.old }
    {
        for _ in 0..u32::MAX {
            if !self.pass(seat) {
                break;
            }
        }
    }

    /// Lets a round pass, if it may. Whether it passed.
    fn pass(&mut self, seat: &mut Seat<L>) -> bool
        ensures only { MakesOnly IsAdvance self.old.core self.new.core }
        ensures passed { result ≡ true → self.new.core.calendar.round ≡ self.old.core.calendar.round + 1 }
        ensures refused { result ≡ false → MayNotAdvance self.new.core }
        ensures rest { self.new ≡ record self.old { core = self.new.core } }
        ensures commits { commits_with seat.new ≡ commits_with seat.old }
        ensures number { number_of seat.new ≡ number_of seat.old }
    {
        let alloc = self.alloc;
        has_passed(&self.step(seat, plain(&alloc, Call::Advance)))
    }

    /// Buffers that a batch handed out come back, for the pages of batches to come. It is no event.
    pub fn give_back(&mut self, buffers: Vec<(Page, Vec<u8, A>), A>)
        ensures { self.new ≡ self.old }
    {
        let mut buffers = buffers;
        self.array.give_back(self.alloc, &mut buffers);
    }

    /// A plan that nobody wants any more comes back, and plans to come are made in its memory. It is no event.
    pub fn give_back_plan(&mut self, planned: Planned<A>)
        ensures { self.new ≡ self.old }
    {
        self.array.give_back_plan(&mut Some(planned));
    }

    /// The plan that waits longest for who checks it. It is no event.
    pub fn take_plan(&mut self) -> Option<PlanNote<A>>
        ensures { self.new ≡ self.old }
    {
        self.array.take_plan()
    }

    /// A plan that was taken and that nobody wants any more comes back, and plans to come are kept in its memory. It is no event.
    pub fn give_back_note(&mut self, note: PlanNote<A>)
        ensures { self.new ≡ self.old }
    {
        self.array.give_back_note(&mut Some(note));
    }

    /// Something has changed that others may wait for.
    pub fn note_change(&mut self)
        ensures { self.new ≡ self.old }
    {
        self.sleepers.note_change();
    }

    /// Whoever has this seat sleeps until then, and may be woken to make jobs of dies, if that is said.
    pub fn lie_down(&mut self, seat: u32, awaits: Awaits, helps: bool)
        ensures { self.new ≡ self.old }
    {
        self.sleepers.lie_down(seat, awaits, helps);
    }

    /// Whoever has this seat sleeps no more.
    pub fn get_up(&mut self, seat: u32)
        ensures { self.new ≡ self.old }
    {
        self.sleepers.get_up(seat);
    }

    /// Those for whom it is time to wake up. They are counted as awake.
    pub fn due(&mut self) -> SeatSet
        ensures { self.new ≡ self.old }
    {
        self.sleepers.due(&self.array)
    }

    /// Whether whoever has this seat was woken, and is not up yet. It is a matter of speed alone, and in no clause.
    pub fn is_called(&self, seat: u32) -> bool {
        self.sleepers.is_called(seat)
    }

    /// Whether somebody who waits so would be woken, had anything changed. It is a matter of speed alone, and in no clause.
    pub fn is_due(&self, awaits: Awaits) -> bool {
        is_due(&self.array, true, awaits)
    }

    /// The dies that a write of the page would go to, made with this seat, if it is better to wait until each of them has room. It is a
    /// matter of speed alone, and in no clause.
    pub fn homes_to_come(&self, seat: u32, page: Page) -> DieSet {
        self.sleepers.homes_to_come(&self.array, seat, page)
    }

    /// What holds of the array whenever the lock is free: its numbers are the replay of its history since the last fold, in which each
    /// Start is legal, and the book is the count of its Commits.
    pub fn account(&self)
        ensures history { HasHistory self.now.core }
        ensures book { self.now.book ≡ (rule_counts self.now.core).0 }
    {
        let _ = &self.array;
    }

    /// One more seat. None where 256 are out.
    pub fn seat(&mut self) -> Option<Seat<L>>
        ensures some { IfSome result (λ seat. (number_of seat ≡ self.old.out) × (commits_with seat ≡ 0)
            × (self.new ≡ record self.old { out = self.old.out + 1 })) }
        ensures none { IfNone result ((self.old.out ≡ 256) × (self.new ≡ self.old)) }
    {
        if self.out == MAX_SEATS {
            return None;
        }
        let share = self.rest.split_off(1, 0);
        let number = self.out;
        self.out += 1;
        Some(Seat { number, share })
    }

    /// All seats that are out come back, and the answer is how many Commits there were: the book, which is what was made with these seats
    /// and with those that came back before. Refused, the seats are handed back and nothing has changed.
    pub fn gather<B: Allocator>(&mut self, seats: Vec<Seat<L>, B>) -> Result<u64, Gathered<L, B>>
        requires parts { L.parts ≡ 257 }
        ensures sum { IfOk result (λ count. (count ≡ capped self.old.book)
            × (self.old.book ≡ self.old.gathered + commits_together seats.items)
            × (self.new ≡ record self.old { out = 0; gathered = self.old.book })) }
        ensures missing { IfErr result (λ refused. (refused ≡ Gathered.Missing seats) × (self.new ≡ self.old)
            × (length seats.items ≡ self.old.out → ⊥)) }
    {
        if seats.len() != self.out as usize {
            return Err(Gathered::Missing(seats));
        }
        take_in(&mut self.rest, seats);
        self.out = 0;
        self.book.audit(&mut self.rest);
        Ok(self.array.commits())
    }

    /// Whether many who make jobs of dies sleep, so that whoever is awake is to take those of all dies. It is a matter of speed alone, and
    /// in no clause.
    pub fn do_many_help(&self) -> bool {
        self.sleepers.do_many_help()
    }

    /// Somebody makes the jobs of all dies that have a window, so that their workers need not be woken, or nobody does any more. It is a
    /// matter of speed alone, and in no clause.
    pub fn lead(&mut self, is_led: bool)
        ensures { self.new ≡ self.old }
    {
        self.sleepers.lead(is_led);
    }

    /// Whether somebody makes the jobs of all dies that have a window.
    pub fn is_led(&self) -> bool {
        self.sleepers.is_led()
    }

    /// Somebody has waited long for what others make, whom an image may hold up. The workers of dies look at what others have taken of
    /// theirs. It is a matter of speed alone, and in no clause.
    pub fn note_long_wait(&mut self)
        ensures { self.new ≡ self.old }
    {
        self.sleepers.note_long_wait();
    }

    /// Whoever works for the array is to end.
    pub fn stop(&mut self)
        ensures { self.new ≡ record self.old { stopping = true } }
    {
        self.stopping = true;
    }

    /// Whether whoever works for the array is to end.
    pub fn is_stopping(&self) -> bool
        ensures { result ≡ self.now.stopping }
    {
        self.stopping
    }

    /// The array itself, for whoever only looks.
    pub fn array(&self) -> &E
        ensures whole { E.whole result.now }
        ensures state { E.core result.now ≡ self.now.core }
        ensures number { E.number result.now ≡ self.now.number }
    {
        &self.array
    }

    /// The array, shared no more.
    pub fn into_array(self) -> E
        ensures whole { E.whole result }
        ensures state { E.core result ≡ self.core }
        ensures number { E.number result ≡ self.number }
    {
        let Locked { array, .. } = self;
        array
    }
}

/// The seats' parts and Commits go to what is left of the ledger.
fn take_in<L: Ledger, B: Allocator>(rest: &mut Share<L>, seats: Vec<Seat<L>, B>)
    ensures parts { rest.new.parts ≡ rest.old.parts + length seats.items }
    ensures amount { rest.new.amount ≡ rest.old.amount + commits_together seats.items }
{
    for seat in seats {
        let Seat { share, .. } = seat;
        rest.merge(share);
    }
}

/// Whether a round passed.
fn has_passed<A: Allocator>(answer: &Answer<A>) -> bool
    ensures { result ≡ rule_passed answer.now }
{
    matches!(answer, Answer::Advance(Ok(_)))
}

/// A call that is lent nothing. The lifetime of what it could be lent is that of a borrowed allocator.
pub fn plain<'a, A: Allocator>(_alloc: &'a A, call: Call<'a, A>) -> Call<'a, A>
    ensures { result ≡ call.entry }
{
    call
}
