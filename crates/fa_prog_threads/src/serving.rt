//! The threads of a server.
ghost use Rattle.std.specs.Prelude.{◌≡◌};

use crate::images_at_work::{ImagesAtWork, images_again};
use crate::ready::Ready;
use crate::site::Site;
use crate::tasks::Tasks;
use fa_core_calls::Events;
use fa_image::Image;
use fa_prog_clients::Networked;
use fa_prog_host::tell;
use fa_prog_listen::{Ended, ServerHost, StopWaiter, work_side_by_side};
use fa_prog_watch::Watched;
use fa_shared::Shared;
use fa_shared_lock::Seat;
use std::alloc::{AllocError, Global};
use std::io::Read;
use std::sync::ledger::Ledger;

/// What comes back when all threads have ended.
#[derive(Drop)]
struct Back<L: Ledger> {
    /// All seats.
    seats: Vec<Seat<L>>,
    /// Each thread could be started.
    is_served: bool,
}

/// Serves clients until the input says stop, ends all threads, and gathers their seats. The error is out of memory.
pub fn serve_ready<
    R: ServerHost,
    L: Ledger + Send,
    E: Events<Global> + Send,
    W: Watched + Sync,
    I: Image + Send + Drop,
    N: Read,
>(
    rt: &R,
    shared: &Shared<L, E>,
    watched: &W,
    ready: Ready<'_, L, I>,
    input: &mut N,
) -> Result<Ended<I>, AllocError>
    requires { L.parts ≡ 257 }
{
    let Ready {
        listening,
        losses,
        images,
        tasks,
    } = ready;
    let site = Site {
        shared,
        watched,
        image_table: &images.image_table,
        listening: &listening,
        losses: &losses,
    };
    let back = serve_shared(rt, &site, tasks, input);
    ended_of(rt, shared, images, back)
}

/// Takes the seats of all threads and the images back.
fn ended_of<R: Networked, L: Ledger, E: Events<Global>, I: Drop>(
    rt: &R,
    shared: &Shared<L, E>,
    images: ImagesAtWork<I>,
    back: Option<Back<L>>,
) -> Result<Ended<I>, AllocError>
    requires { L.parts ≡ 257 }
{
    let Back { seats, is_served } = back.ok_or(AllocError)?;
    gather(rt, shared, seats);
    Ok(Ended {
        images: images_again(images),
        is_served,
    })
}

/// Takes the seats of all threads back.
fn gather<R: Networked, L: Ledger, E: Events<Global>>(
    rt: &R,
    shared: &Shared<L, E>,
    seats: Vec<Seat<L>>,
)
    requires { L.parts ≡ 257 }
{
    if shared.gather(rt, seats).is_err() {
        tell(rt, "a seat of the array is missing");
    }
}

/// Serves clients until the input says stop, and then ends all threads. Where a thread cannot be started the array is stopped at once, and
/// no client is served. None where memory is refused, before any thread was started.
fn serve_shared<
    R: ServerHost,
    L: Ledger + Send,
    E: Events<Global> + Send,
    W: Watched + Sync,
    I: Image + Send + Drop,
    N: Read,
>(rt: &R, site: &Site<'_, L, E, W, I>, tasks: Tasks<'_, L>, input: &mut N) -> Option<Back<L>> {
    let Tasks {
        tasks,
        workers,
        seats,
    } = tasks;
    let mut stop_waiter = StopWaiter {
        listening: site.listening,
        input,
        is_served: false,
    };
    let left = work_side_by_side(rt, site, tasks, workers, &mut stop_waiter);
    back_of(left, seats, stop_waiter.is_served)
}

/// What comes back of tasks, with their seats in a list that has room for them. None where none was begun.
fn back_of<L: Ledger>(
    left: Option<Vec<Option<Seat<L>>>>,
    seats: Vec<Seat<L>>,
    is_served: bool,
) -> Option<Back<L>> {
    match left {
        Some(left) => Some(Back {
            seats: with_seats(left, seats),
            is_served,
        }),
        None => None,
    }
}

/// These seats in a list that has room for them.
fn with_seats<L: Ledger>(left: Vec<Option<Seat<L>>>, seats: Vec<Seat<L>>) -> Vec<Seat<L>> {
    let mut seats = seats;
    for seat in left {
        if let Some(seat) = seat {
            let _ = seats.push(seat);
        }
    }
    seats
}
