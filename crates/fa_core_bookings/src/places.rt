//! Changes of a table of booked rounds at the places of plans.
ghost use Rattle.std.specs.Prelude.{◌≡◌, ℕ, ◌≤◌, if◌then◌else◌, None, length};
ghost use Rattle.std.specs.HashMap.{spare};
ghost use Rattle.fa_core_bookings.specs.Booked.{booking_at};
ghost use Rattle.fa_core_bookings.specs.Places.{booked_over};
ghost use Rattle.fa_calendar.specs.Dies.{is_at};

use crate::table::{BookedRounds, put, take_out};
use fa_batch_terms::Place;
use fa_machine::{BatchId, Booking};
use std::alloc::Allocator;

/// These places are not booked any more.
pub fn take_out_all<A: Allocator + Clone>(booked: &mut BookedRounds<A>, places: &[Place])
    ensures now { (d r : ℕ) → booking_at booked.new.entries d r
        ≡ (if is_at places.now d r then None else booking_at booked.old.entries d r) }
    ensures spare { spare booked.old ≤ spare booked.new }
{
    for place in places {
        take_out(booked, place.die.0, place.round.0);
    }
}

/// These places are booked for the batch, in a table with room for them.
pub fn book_all<A: Allocator + Clone>(
    booked: &mut BookedRounds<A>,
    batch: BatchId,
    places: &[Place],
)
    requires { length places.now ≤ spare booked.old }
    ensures { (d r : ℕ) → booking_at booked.new.entries d r ≡ booked_over batch places.now d r (booking_at booked.old.entries d r) }
{
    for place in places {
        let booking = Booking {
            batch,
            page: place.page,
            started: false,
        };
        put(booked, place.die.0, place.round.0, booking);
    }
}
