//! The calendars of all dies, place by place.
ghost use Rattle.std.specs.Prelude.{◌≡◌, ℕ, ◌≤◌, ◌<◌, ◌≢◌, ◌==◌, ◌&&◌, ◌||◌, Bool, true, false, not, length, IfOk, OnOk, OnErr, IsErrOf};
ghost use Rattle.std.specs.Prelude.{None};
ghost use Rattle.std.specs.FinMap.{contains_key};
ghost use Rattle.std.specs.List.{AllByRecursion};
ghost use Rattle.fa_types.specs.Open.{rounds_that, max_closed};
ghost use Rattle.fa_batch_terms.specs.Plan.{AreApart};
ghost use Rattle.fa_closed.specs.Runs.{closed_by as spans_close};
ghost use Rattle.fa_calendar.specs.Dies.{closed_by, room_by, state_of, window_by, is_at, is_one, AllHaveRoom, AreIdle, HasRoomFor};
ghost use Rattle.fa_calendar.specs.Dies.{KeepsDies};
ghost use Rattle.fa_calendar.specs.Windows.{left_window};

use crate::busy::BusyDies;
use crate::die::DieCalendar;
use crate::refused::CalendarRefused;
use fa_batch_terms::Place;
use fa_closed::Spans;
use fa_types::{Die, Round};
use std::alloc::{AllocError, Allocator};

/// A table for 256 dies, with nothing closed.
pub fn open_dies<A: Allocator + Copy>(alloc: A) -> Result<Vec<DieCalendar<A>, A>, AllocError>
    ensures long { IfOk result (λ dies. length dies.items ≡ 256) }
    ensures roomy { IfOk result (λ dies. AllHaveRoom dies.items) }
    ensures closed { IfOk result (λ dies. (die round : ℕ) → closed_by dies.items die round ≡ false) }
    ensures windows { IfOk result (λ dies. (die : ℕ) → window_by dies.items die ≡ None) }
{
    let mut dies = Vec::with_capacity(alloc, 256)?;
    for _ in 0..256usize {
        dies.push(DieCalendar::new(alloc))?;
    }
    Ok(dies)
}

/// Opens a round of a die.
pub fn open_one<A: Allocator>(dies: &mut Vec<DieCalendar<A>, A>, die: Die, round: Round)
    requires long { length dies.old.items ≡ 256 }
    requires roomy { AllHaveRoom dies.old.items }
    ensures kept { KeepsDies dies.old.items dies.new.items }
    ensures opened { (d r : ℕ) → closed_by dies.new.items d r ≡ (closed_by dies.old.items d r && not (die.0 == d && round.0 == r)) }
{
    dies[die.0 as usize].open(round.0);
}

/// Opens these places.
pub fn open_all<A: Allocator>(dies: &mut Vec<DieCalendar<A>, A>, places: &[Place])
    requires long { length dies.old.items ≡ 256 }
    requires roomy { AllHaveRoom dies.old.items }
    ensures kept { KeepsDies dies.old.items dies.new.items }
    ensures opened { (die round : ℕ) → closed_by dies.new.items die round
        ≡ (closed_by dies.old.items die round && not (is_at places.now die round)) }
{
    for place in places {
        open_one(dies, place.die, place.round);
    }
}

/// Closes a place, for which there is room, where it is open.
fn restore_one<A: Allocator>(dies: &mut Vec<DieCalendar<A>, A>, place: Place)
    requires long { length dies.old.items ≡ 256 }
    requires roomy { AllHaveRoom dies.old.items }
    requires room { HasRoomFor dies.old.items (λ die round. closed_by dies.old.items die round || is_one place die round) }
    ensures kept { KeepsDies dies.old.items dies.new.items }
    ensures closed { (die round : ℕ) → closed_by dies.new.items die round ≡ (closed_by dies.old.items die round || is_one place die round) }
{
    dies[place.die.0 as usize].restore(place.round.0);
}

/// Closes these places, for which there is room, where they are open.
pub fn restore_all<A: Allocator>(dies: &mut Vec<DieCalendar<A>, A>, places: &[Place])
    requires long { length dies.old.items ≡ 256 }
    requires roomy { AllHaveRoom dies.old.items }
    requires room { HasRoomFor dies.old.items (λ die round. closed_by dies.old.items die round || is_at places.now die round) }
    ensures kept { KeepsDies dies.old.items dies.new.items }
    ensures closed { (die round : ℕ) → closed_by dies.new.items die round
        ≡ (closed_by dies.old.items die round || is_at places.now die round) }
{
    for place in places {
        restore_one(dies, *place);
    }
}

/// Closes an open place.
fn book_one<A: Allocator>(
    dies: &mut Vec<DieCalendar<A>, A>,
    place: Place,
) -> Result<(), CalendarRefused>
    requires long { length dies.old.items ≡ 256 }
    requires roomy { AllHaveRoom dies.old.items }
    requires free { closed_by dies.old.items place.die.0 place.round.0 ≡ false }
    ensures kept { KeepsDies dies.old.items dies.new.items }
    ensures ok { OnOk result ((die round : ℕ) → closed_by dies.new.items die round
        ≡ (closed_by dies.old.items die round || is_one place die round)) }
    ensures full { IsErrOf result CalendarRefused.Full → (n : ℕ) × (max_closed
        < rounds_that (λ round. closed_by dies.old.items place.die.0 round || is_one place place.die.0 round) 0 n) }
    ensures err { OnErr result ((die round : ℕ) → closed_by dies.new.items die round ≡ closed_by dies.old.items die round) }
{
    dies[place.die.0 as usize].book(place.round.0)
}

/// Closes these places, which are open and no two the same. Refused, nothing is closed that was open.
pub fn book_all<A: Allocator>(
    dies: &mut Vec<DieCalendar<A>, A>,
    places: &[Place],
) -> Result<(), CalendarRefused>
    requires long { length dies.old.items ≡ 256 }
    requires roomy { AllHaveRoom dies.old.items }
    requires free { AllByRecursion (λ x. closed_by dies.old.items x.die.0 x.round.0 ≡ false) places.now }
    requires apart { AreApart places.now }
    ensures kept { KeepsDies dies.old.items dies.new.items }
    ensures ok { OnOk result ((die round : ℕ) → closed_by dies.new.items die round
        ≡ (closed_by dies.old.items die round || is_at places.now die round)) }
    ensures full { IsErrOf result CalendarRefused.Full → (die : ℕ) × (n : ℕ) × (max_closed
        < rounds_that (λ round. closed_by dies.old.items die round || is_at places.now die round) 0 n) }
    ensures err { OnErr result ((die round : ℕ) → closed_by dies.new.items die round ≡ closed_by dies.old.items die round) }
{
    for index in 0..places.len() {
        if let Err(refused) = book_one(dies, places[index]) {
            open_all(dies, &places[..index]);
            return Err(refused);
        }
    }
    Ok(())
}

/// The dies of these places are among the busy ones from now on.
pub fn enter_all<A: Allocator>(busy: &mut BusyDies<A>, places: &[Place])
    ensures kept { (die : ℕ) → contains_key busy.new die ≡ false → contains_key busy.old die ≡ false }
    ensures entered { (die round : ℕ) → contains_key busy.new die ≡ false → is_at places.now die round ≡ false }
{
    for place in places {
        busy.enter(place.die);
    }
}

/// Forgets a round of a die, before which none is closed there, and the window that ended in it.
fn pass_one<A: Allocator>(dies: &mut Vec<DieCalendar<A>, A>, die: usize, round: u64)
    requires long { length dies.old.items ≡ 256 }
    requires roomy { AllHaveRoom dies.old.items }
    requires past { (r : ℕ) → r < round → closed_by dies.old.items die r ≡ false }
    requires within { die < 256 }
    ensures long { length dies.new.items ≡ 256 }
    ensures roomy { AllHaveRoom dies.new.items }
    ensures others { (d : ℕ) → d ≢ die → state_of dies.new.items d ≡ state_of dies.old.items d }
    ensures opened { (r : ℕ) → closed_by dies.new.items die r ≡ (closed_by dies.old.items die r && not (r == round)) }
    ensures window { window_by dies.new.items die ≡ left_window round (window_by dies.old.items die) }
{
    dies[die].pass(round);
}

/// A die is busy no more where nothing is closed there, and it has no window.
fn leave<A: Allocator>(busy: &mut BusyDies<A>, dies: &Vec<DieCalendar<A>, A>, die: usize)
    requires long { length dies.now.items ≡ 256 }
    requires within { die < 256 }
    requires idle { AreIdle busy.old dies.now.items }
    ensures { AreIdle busy.new dies.now.items }
{
    if dies[die].is_idle() {
        busy.leave(die);
    }
}

/// Forgets a round of each die, before which none is closed, and each window that ended in it. It takes a few steps for each busy
/// die; they have all closed rounds and all windows.
pub fn pass_all<A: Allocator>(dies: &mut Vec<DieCalendar<A>, A>, busy: &mut BusyDies<A>, round: u64)
    requires long { length dies.old.items ≡ 256 }
    requires roomy { AllHaveRoom dies.old.items }
    requires past { (die r : ℕ) → r < round → closed_by dies.old.items die r ≡ false }
    requires idle { AreIdle busy.old dies.old.items }
    ensures long { length dies.new.items ≡ 256 }
    ensures roomy { AllHaveRoom dies.new.items }
    ensures opened { (die r : ℕ) → closed_by dies.new.items die r ≡ (closed_by dies.old.items die r && not (r == round)) }
    ensures windows { (die : ℕ) → window_by dies.new.items die ≡ left_window round (window_by dies.old.items die) }
    ensures idle { AreIdle busy.new dies.new.items }
{
    let mut die = busy.next_from(0);
    while die < 256 {
        pass_one(dies, die, round);
        leave(busy, dies, die);
        die = busy.next_from(die + 1);
    }
}

/// The closed rounds of each die, these places left out.
pub fn spans_without<A: Allocator + Copy>(
    alloc: A,
    dies: &Vec<DieCalendar<A>, A>,
    without: &[Place],
) -> Result<Vec<Spans<A>, A>, AllocError>
    requires { length dies.now.items ≡ 256 }
    ensures long { IfOk result (λ all. length all.items ≡ 256) }
    ensures closed { IfOk result (λ all. (die round : ℕ) → spans_close all.items die round
        ≡ (closed_by dies.now.items die round && not (is_at without.now die round))) }
{
    let mut all = Vec::with_capacity(alloc, 256)?;
    for number in 0..256usize {
        let spans = dies[number].spans_without(alloc, number as u8, without)?;
        all.push(spans)?;
    }
    Ok(all)
}
