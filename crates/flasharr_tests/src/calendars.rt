//! The calendar of a die with as many entries as there may be. All else of calendars is seen through the events of an array.
ghost use Rattle.std.specs.Prelude.{◌≡◌};

use fa_batch_terms::Place;
use fa_calendar::{Calendar, CalendarRefused};
use fa_types::{Die, Page, Round, Rounds};
use std::test::Fail;

fn place(die: u8, round: u64) -> Place
    ensures { result ≡ record { page = record { 0 = 0 }; die = record { 0 = die }; round = record { 0 = round } } }
{
    Place {
        page: Page(0),
        die: Die(die),
        round: Round(round),
    }
}

/// Books a round of a die, and says what came of it. None where the round is closed.
fn book(calendar: &mut Calendar, die: u8, round: u64) -> Option<Result<(), CalendarRefused>> {
    if !calendar.is_open(Die(die), Round(round)) {
        return None;
    }
    Some(calendar.exchange(&[], &[place(die, round)]))
}

/// Whether a round of a die is booked, which has to be open.
fn books(calendar: &mut Calendar, die: u8, round: u64) -> bool {
    matches!(book(calendar, die, round), Some(Ok(())))
}

/// Whether a round of die 0, which has to be open, is not booked since the die is full.
fn is_full_for(calendar: &mut Calendar, round: u64) -> bool {
    matches!(book(calendar, 0, round), Some(Err(CalendarRefused::Full)))
}

/// Releases a round of die 0, which has to be booked.
fn releases(calendar: &mut Calendar, round: u64) -> bool {
    if !calendar.is_booked(Die(0), Round(round)) {
        return false;
    }
    calendar.release(Die(0), Round(round));
    true
}

/// Whether die 0, which has no window, gets none of one round since it is full.
fn is_full_for_a_window(calendar: &mut Calendar) -> bool {
    let window = calendar.window(Die(0));
    let now = calendar.now();
    if window.is_some() || now.0 > 1_000_000 {
        return false;
    }
    matches!(
        calendar.reserve_window(Die(0), 1),
        Err(CalendarRefused::Full)
    )
}

/// Whether two of each three rounds of die 0 are booked, as many as a die may have.
fn books_up_to_the_limit(calendar: &mut Calendar) -> bool {
    for pair in 0..524_288u64 {
        if !books(calendar, 0, 3 * pair + 1) || !books(calendar, 0, 3 * pair + 2) {
            return false;
        }
    }
    true
}

/// A full die takes no round, and one again once another is released. Another die is not full.
fn takes_a_round_for_each_released(calendar: &mut Calendar) -> bool {
    is_full_for(calendar, 1_572_865)
        && is_full_for_a_window(calendar)
        && releases(calendar, 1)
        && books(calendar, 0, 1_572_865)
        && is_full_for(calendar, 1)
        && books(calendar, 1, 1)
}

// A die has 1,048,576 entries at most, here in 524,288 runs.
#[test]
fn a_die_with_as_many_entries_as_there_may_be(rt: HostRuntime) -> Result<(), Fail> {
    let mut calendar = Calendar::new(rt.alloc(), Round(1))?;
    ensure!(books_up_to_the_limit(&mut calendar) && takes_a_round_for_each_released(&mut calendar));
    Ok(())
}
