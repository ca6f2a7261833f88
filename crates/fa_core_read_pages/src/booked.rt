//! The read of a booking.
ghost use Rattle.std.specs.Prelude.{◌≡◌, ◌<◌, IfSome};
ghost use Rattle.fa_core_read_pages.specs.Booked.{IsReadOf};
ghost use Rattle.fa_machine.specs.Taking.{read_of as rule_read_of};

use fa_machine::{Booking, Flight};
use fa_map_calls::Map;
use fa_types::Die;

/// The read of a booking that was not started, from the slot that holds the page at this moment. A page that the array does not
/// have was never written.
pub fn read_of<M: Map>(page_map: &M, die: Die, booking: Booking) -> Option<Flight>
    requires { die.0 < (M.view page_map.now).geometry.dies }
    ensures job { result ≡ rule_read_of (M.view page_map.now) die.0 booking }
    ensures fresh { IfSome result (λ flight. IsReadOf booking flight) }
{
    if booking.started {
        return None;
    }
    if page_map.geometry().pages <= booking.page.0 {
        return None;
    }
    match page_map.version(booking.page) {
        None => None,
        Some(version) => match page_map.copy_on(booking.page, die) {
            None => None,
            Some(slot) => Some(Flight::Read {
                batch: booking.batch,
                page: booking.page,
                version,
                slot,
            }),
        },
    }
}
