//! All that a server needs before its first client.
use crate::images_at_work::{ImagesAtWork, images_at_work};
use crate::tasks::{Tasks, tasks_of};
use fa_core_calls::Events;
use fa_mount_headers::Standing;
use fa_prog_clients::Networked;
use fa_prog_listen::{Held, Listening, ServePlan, listening_of};
use fa_prog_watch::{Losses, Watched};
use fa_shared::Shared;
use std::alloc::{AllocError, Allocator, Global};
use std::sync::ledger::Ledger;

/// What was made for a server.
#[derive(Drop)]
pub struct Ready<'a, L: Ledger, I: Drop> {
    /// What its threads share beside the array.
    pub(crate) listening: Listening<'a>,
    /// Which pages were lost.
    pub(crate) losses: Losses<'a>,
    /// The images.
    pub(crate) images: ImagesAtWork<I>,
    /// What its threads are to do.
    pub(crate) tasks: Tasks<'a, L>,
}

/// All that the server of a shared array needs, which is watched so, over the files that it has open. The error is out of memory, or of
/// seats.
pub fn ready_of<'a, R: Networked, L: Ledger, E: Events<Global>, W: Watched, I: Drop, A: Allocator>(
    rt: &R,
    shared: &Shared<L, E>,
    watched: &W,
    dies: &[Standing],
    held: Held<I>,
    plan: &ServePlan<'a, A>,
) -> Result<Ready<'a, L, I>, AllocError> {
    let threads = plan.threads();
    let Held {
        images,
        lost,
        plans,
    } = held;
    let images = images_at_work(rt.alloc(), dies, images, threads.page_bytes)?;
    let losses = Losses::new(plan.path, watched.moment().epoch, lost);
    let listening = listening_of(rt.alloc(), dies, plan)?;
    let sight = watched.sight(threads.copies);
    let tasks = tasks_of(rt, shared, sight, images.dies.as_slice(), threads, plans)?;
    Ok(Ready {
        listening,
        losses,
        images,
        tasks,
    })
}
