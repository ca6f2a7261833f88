//! A shared array as the threads of a server see it, and what they do.
use crate::die_workers::{collect, rebuild, work_die};
use crate::sessions::serve_array;
use crate::tasks::Task;
use fa_core_calls::{Events, Looks};
use fa_image::Image;
use fa_prog_clients::{Networked, accept_clients};
use fa_prog_listen::{Listening, Workplace};
use fa_prog_looks::{LooksHost, serve_looks};
use fa_prog_watch::{Looking, Losses, Subject, Watched, watch, write_plans};
use fa_shared::Shared;
use fa_shared_lock::Seat;
use fa_types::Die;
use fa_workers_making::ImageTable;
use std::alloc::Global;
use std::sync::ledger::Ledger;
use std::thread;
use std::time::Duration;

/// How often it is looked whether the collector has done its work at the stop, and how long it is between two looks, in milliseconds.
const COLLECT_LOOKS: u32 = 100;

const COLLECT_MILLISECONDS: u64 = 10;

/// A shared array, with what its threads work with.
#[derive(Drop)]
pub(crate) struct Site<'a, L: Ledger, E: Events<Global>, W, I: Image + Drop> {
    pub(crate) shared: &'a Shared<L, E>,
    pub(crate) watched: &'a W,
    pub(crate) image_table: &'a ImageTable<I>,
    pub(crate) listening: &'a Listening<'a>,
    pub(crate) losses: &'a Losses<'a>,
}

impl<
    'a,
    'b,
    R: Networked + LooksHost,
    L: Ledger,
    E: Events<Global>,
    W: Watched,
    I: Image + Drop,
> Workplace<R, Task<'b, L>, Option<Seat<L>>> for Site<'a, L, E, W, I> {
    fn work(&self, rt: &R, task: Task<'b, L>) -> Option<Seat<L>> {
        let listening = self.listening;
        match task {
            Task::Die(task) => Some(work_die(
                rt,
                self.shared,
                self.image_table,
                &listening.counts,
                task,
                listening.window_rounds,
            )),
            Task::Collect(task) => Some(collect(
                rt,
                self.shared,
                self.image_table,
                &listening.counts,
                task,
                listening.window_rounds,
            )),
            Task::Rebuild(seat) => Some(rebuild(rt, self.shared, seat)),
            Task::Watch(seen) => {
                watch(
                    rt,
                    self.watched,
                    self.losses,
                    &listening.counts,
                    listening.paths.as_slice(),
                    listening.copies,
                    seen,
                );
                None
            }
            Task::WritePlans(file) => {
                write_plans(rt, self.watched, listening.counts.plans(), file);
                None
            }
            Task::Serve(session) => Some(serve_array(
                rt,
                listening,
                self.losses,
                self.shared,
                self.watched,
                self.image_table,
                session,
            )),
            Task::Look(looker) => {
                if let Some(listener) = listening.looks {
                    let subject = subject_of(self.watched, listening);
                    serve_looks(rt, listener, Looking::new(rt, subject, looker));
                }
                None
            }
            Task::Accept => {
                accept_clients(rt, listening.listener, &listening.accept_queue);
                None
            }
        }
    }

    /// The array is stopped, and no client is served.
    fn give_up(&self, rt: &R) {
        self.shared.stop(rt);
        self.listening.accept_queue.close(rt);
    }

    /// Nobody is served any more: the collector ends what it has begun, and then all who work for the array are told to end.
    fn stop(&self, rt: &R) {
        let_collect(rt, self.shared);
        self.shared.stop(rt);
    }
}

/// What those who ask look at: this array, which is served so.
fn subject_of<'a, W>(watched: &'a W, listening: &'a Listening<'_>) -> Subject<'a, W> {
    Subject {
        watched,
        counts: &listening.counts,
        accept_queue: &listening.accept_queue,
        paths: listening.image_paths.as_slice(),
    }
}

/// Waits until no die wants a window of the collector, or until a second has passed.
fn let_collect<R: Networked, L: Ledger, E: Events<Global>>(rt: &R, shared: &Shared<L, E>) {
    for _ in 0..COLLECT_LOOKS {
        if shared.stopped(rt) || !is_collecting(rt, shared) {
            return;
        }
        thread::sleep(rt, Duration::from_millis(COLLECT_MILLISECONDS));
    }
}

/// Whether a die of a shared array wants a window of the collector.
fn is_collecting<R: Networked, L: Ledger, E: Events<Global>>(
    rt: &R,
    shared: &Shared<L, E>,
) -> bool {
    let guard = shared.lock(rt);
    let wants = wants_window(guard.array());
    shared.let_go(guard);
    wants
}

/// Whether a live die has less room than a block, and a victim.
fn wants_window<E: Looks>(array: &E) -> bool {
    for number in 0..array.geometry().dies {
        if array.wants_window(Die(number as u8)) {
            return true;
        }
    }
    false
}
