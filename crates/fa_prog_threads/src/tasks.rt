//! What the threads of a server are to do.
use crate::die_workers::{CollectTask, DieTask, collect_task, die_task};
use crate::sessions::Session;
use fa_core_calls::Events;
use fa_prog_clients::{Networked, Service};
use fa_prog_host::PlanFile;
use fa_prog_listen::ThreadPlan;
use fa_prog_watch::{Looker, Sight};
use fa_shared::Shared;
use fa_shared_lock::Seat;
use fa_types::Die;
use std::alloc::{AllocError, Global};
use std::sync::ledger::Ledger;

/// What a thread is to do.
#[derive(Drop)]
pub(crate) enum Task<'a, L: Ledger> {
    /// Work for a die.
    Die(DieTask<L>),
    /// Collect.
    Collect(CollectTask<L>),
    /// Rebuild.
    Rebuild(Seat<L>),
    /// Tell what changes of the array, which stood so before anybody worked for it.
    Watch(Sight),
    /// Write plans into this file.
    WritePlans(PlanFile),
    /// Serve one client after another.
    Serve(Session<'a, L>),
    /// Answer those who ask how the array is.
    Look(Looker),
    /// Accept clients.
    Accept,
}

/// What all threads are to do.
#[derive(Drop)]
pub(crate) struct Tasks<'a, L: Ledger> {
    /// First the tasks of those who work for the array or watch it, and then those of the ones who serve clients.
    pub(crate) tasks: Vec<Task<'a, L>>,
    /// How many are of the first.
    pub(crate) workers: usize,
    /// Memory for the seats of all.
    pub(crate) seats: Vec<Seat<L>>,
}

/// A task for each of these dies, for the collector, the rebuilder and the watch of an array that stands so, for the one who writes plans,
/// if there is one, for each session, for the one who answers those who look, if there is one, and for the one who accepts. The error is
/// out of memory, or of seats.
pub(crate) fn tasks_of<'a, R: Networked, L: Ledger, E: Events<Global>>(
    rt: &R,
    shared: &Shared<L, E>,
    sight: Sight,
    dies: &[Die],
    plan: ThreadPlan<'a>,
    plan_file: Option<PlanFile>,
) -> Result<Tasks<'a, L>, AllocError> {
    let count = dies.len().saturating_add(plan.sessions).saturating_add(6);
    let seats = Vec::with_capacity(rt.alloc(), count)?;
    let mut tasks = Vec::with_capacity(rt.alloc(), count)?;
    let workers = add_all(rt, shared, sight, dies, plan, plan_file, &mut tasks)?;
    Ok(Tasks {
        tasks,
        workers,
        seats,
    })
}

/// Adds the tasks of all, for which there is memory, and answers how many are of those who work for the array or watch it. It stands apart
/// from whoever owns the tasks, so that no exit of it drops them. The error is out of memory, or of seats.
fn add_all<'a, R: Networked, L: Ledger, E: Events<Global>>(
    rt: &R,
    shared: &Shared<L, E>,
    sight: Sight,
    dies: &[Die],
    plan: ThreadPlan<'a>,
    plan_file: Option<PlanFile>,
    tasks: &mut Vec<Task<'a, L>>,
) -> Result<usize, AllocError> {
    if let Some(file) = plan_file {
        add(tasks, Task::WritePlans(file));
    }
    add_workers(rt, shared, sight, dies, plan, tasks)?;
    let workers = tasks.len();
    add_sessions(rt, shared, plan, tasks)?;
    if plan.has_looks {
        add(tasks, Task::Look(Looker::new(rt.alloc())?));
    }
    add(tasks, Task::Accept);
    Ok(workers)
}

/// Adds a task for each die, for the collector, for the rebuilder and for the watch.
fn add_workers<'a, R: Networked, L: Ledger, E: Events<Global>>(
    rt: &R,
    shared: &Shared<L, E>,
    sight: Sight,
    dies: &[Die],
    plan: ThreadPlan<'a>,
    tasks: &mut Vec<Task<'a, L>>,
) -> Result<(), AllocError> {
    for die in dies {
        let task = die_task(rt, shared, *die, plan.page_bytes)?;
        add(tasks, Task::Die(task));
    }
    let collector = collect_task(rt, shared)?;
    add(tasks, Task::Collect(collector));
    let rebuilder = shared.seat(rt).ok_or(AllocError)?;
    add(tasks, Task::Rebuild(rebuilder));
    add(tasks, Task::Watch(sight));
    Ok(())
}

/// Adds a task for each session.
fn add_sessions<'a, R: Networked, L: Ledger, E: Events<Global>>(
    rt: &R,
    shared: &Shared<L, E>,
    plan: ThreadPlan<'a>,
    tasks: &mut Vec<Task<'a, L>>,
) -> Result<(), AllocError> {
    for number in 0..plan.sessions {
        let service = Service {
            number,
            name: plan.export,
            verbose: plan.verbose,
        };
        let seat = shared.seat(rt).ok_or(AllocError)?;
        let session = Session::new(rt.alloc(), service, seat)?;
        add(tasks, Task::Serve(session));
    }
    Ok(())
}

/// Adds a task, for which there is memory.
fn add<'a, L: Ledger>(tasks: &mut Vec<Task<'a, L>>, task: Task<'a, L>) {
    let _ = tasks.push(task);
}
