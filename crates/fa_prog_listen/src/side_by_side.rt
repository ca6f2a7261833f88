//! Tasks that are done side by side, each in a thread of its own. Nothing here names an array, so that what is proved of threads unfolds
//! none.
ghost use Rattle.std.specs.Thread.{IsSend, IsSync};

use std::sync::Wait;
use std::thread;
use std::thread::{JoinHandle, Threads};

/// What those who do tasks share, on a machine of a kind.
pub trait Workplace<R, T, D> {
    /// Does a task, and hands over what is left of it.
    fn work(&self, rt: &R, task: T) -> D;

    /// A thread cannot be had: tells all to end their tasks at once.
    fn give_up(&self, rt: &R);

    /// All tasks have ended but those that do not end by themselves: tells these to end.
    fn stop(&self, rt: &R);
}

/// Who starts threads.
pub trait Starter<R> {
    /// What it does while the others are at their tasks, before it waits for them.
    fn meanwhile(&mut self, rt: &R);
}

/// Does all tasks side by side. The first ones, as many as `endless` says, are told to stop once all others have ended. A task that gets no
/// thread is done here, behind the word to give up. What is left of the tasks comes in no order. None where memory is refused, before
/// anything was begun.
pub fn work_side_by_side<
    R: AllocGlobal + Threads + Wait + Sync,
    T: Send + Drop,
    D: Send + Drop,
    W: Workplace<R, T, D> + Sync,
    S: Starter<R>,
>(rt: &R, place: &W, tasks: Vec<T>, endless: usize, starter: &mut S) -> Option<Vec<D>> {
    let mut works = Vec::with_capacity(rt.alloc(), tasks.len()).ok()?;
    let done = Vec::with_capacity(rt.alloc(), tasks.len()).ok()?;
    Some(thread::scope(
        thread::scope_env(),
        rt,
        |scope| -> Vec<D>
            requires { IsSend T.row × IsSend D.row × IsSync W.row }
        {
            for task in tasks {
                let work = match scope.spawn(move || place.work(rt, task)) {
                    Ok(handle) => Work::Runs(handle),
                    Err(refused) => {
                        place.give_up(rt);
                        Work::Done((refused.value)())
                    }
                };
                let _ = works.push(work);
            }
            starter.meanwhile(rt);
            end_all(rt, place, works, endless, done)
        },
    ))
}

/// Work that was given to a thread, or that was done here since no thread could be had.
#[derive(Drop)]
enum Work<D: Drop> {
    /// A thread is at it.
    Runs(JoinHandle<D>),
    /// It came to this.
    Done(D),
}

impl<D: Drop> Work<D> {
    /// What it came to, which is waited for.
    fn end<R: Threads + Wait>(self, rt: &R) -> D {
        match self {
            Work::Runs(handle) => handle.join(rt),
            Work::Done(done) => done,
        }
    }
}

/// Waits for the works behind the endless ones, tells these to stop, and waits for them. What is left goes to a list, which has room for
/// it.
fn end_all<R: Threads + Wait, T, D: Drop, W: Workplace<R, T, D>>(
    rt: &R,
    place: &W,
    works: Vec<Work<D>>,
    endless: usize,
    done: Vec<D>,
) -> Vec<D> {
    let mut works = works;
    let mut done = done;
    for _ in endless..works.len() {
        if let Some(work) = works.pop() {
            let _ = done.push(work.end(rt));
        }
    }
    place.stop(rt);
    for work in works {
        let _ = done.push(work.end(rt));
    }
    done
}
