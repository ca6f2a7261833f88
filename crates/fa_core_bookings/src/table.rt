//! What each booked round is for, in a table.
ghost use Rattle.std.specs.Prelude.{◌≡◌, ℕ, ◌+◌, ◌<◌, ◌≤◌, ◌==◌, ◌&&◌, not, if◌then◌else◌, false, is_some, None, Some};
ghost use Rattle.std.specs.HashMap.{spare};
ghost use Rattle.fa_core_bookings.specs.Booked.{booking_at, AreBooked};
ghost use Rattle.fa_calendar.specs.Calendar.{current_of, is_booked};

use fa_calendar::Calendar;
use fa_machine::Booking;
use fa_types::{Die, Rounds};
use std::alloc::Allocator;
use std::collections::HashMap;
use std::hash::{BuildHasherDefault, FoldHasher};

/// What each booked round is for, by die and round. It keeps its memory when rounds are taken out.
pub type BookedRounds<A> = HashMap<(u8, u64), Booking, BuildHasherDefault<FoldHasher>, A>;

/// The round of the die is booked for this. It was booked before, or the table has room.
pub fn put<A: Allocator + Clone>(
    booked: &mut BookedRounds<A>,
    die: u8,
    round: u64,
    booking: Booking,
)
    requires { is_some (booking_at booked.old.entries die round) ≡ false → 0 < spare booked.old }
    ensures now { (d r : ℕ) → booking_at booked.new.entries d r
        ≡ (if die == d && round == r then Some booking else booking_at booked.old.entries d r) }
    ensures spare { spare booked.old ≤ spare booked.new + 1 }
{
    match booked.insert((die, round), booking) {
        Ok(_) => {}
        Err(_) => {}
    }
}

/// The round of the die is not booked any more.
pub fn take_out<A: Allocator + Clone>(booked: &mut BookedRounds<A>, die: u8, round: u64)
    ensures now { (d r : ℕ) → booking_at booked.new.entries d r
        ≡ (if die == d && round == r then None else booking_at booked.old.entries d r) }
    ensures spare { spare booked.old ≤ spare booked.new }
{
    booked.remove(&(die, round));
}

/// The bookings of a die go.
pub fn forget_die<A: Allocator + Clone>(booked: &mut BookedRounds<A>, die: u8)
    ensures { (d r : ℕ) → booking_at booked.new.entries d r ≡ (if d == die then None else booking_at booked.old.entries d r) }
{
    booked.retain(
        |place: &(u8, u64), booking: &mut Booking| -> bool
            ensures kept { result ≡ not (place.now.0 == die) }
            ensures same { booking.new ≡ booking.old }
        { place.0 != die },
    );
}

/// The booking of a calendar's current round at a die goes, if there is one. The table is looked into only where the calendar says so.
fn forget_one<A: Allocator + Clone>(calendar: &Calendar<A>, booked: &mut BookedRounds<A>, die: u8)
    requires { is_booked calendar.now die (current_of calendar.now) ≡ is_some (booking_at booked.old.entries die (current_of calendar.now)) }
    ensures { (d r : ℕ) → booking_at booked.new.entries d r
        ≡ (if die == d && current_of calendar.now == r then None else booking_at booked.old.entries d r) }
{
    let now = calendar.now();
    if calendar.is_booked(Die(die), now) {
        take_out(booked, die, now.0);
    }
}

/// The bookings of a calendar's current round go. It asks the calendar for each die that may have bookings, and looks into the table
/// only for those where the round is booked.
pub fn forget_current<A: Allocator + Clone>(calendar: &Calendar<A>, booked: &mut BookedRounds<A>)
    requires { AreBooked (is_booked calendar.now) booked.old.entries }
    ensures { (d r : ℕ) → booking_at booked.new.entries d r
        ≡ (if r == current_of calendar.now then None else booking_at booked.old.entries d r) }
{
    let mut die = calendar.busy_from(0);
    while die < 256 {
        forget_one(calendar, booked, die as u8);
        die = calendar.busy_from(die + 1);
    }
}
