//! One job of a die, from its Take to its Done.
ghost use Rattle.std.specs.FinMap.{get};
ghost use Rattle.std.specs.Prelude.{◌≡◌, ◌+◌, true, false, Some, length};
ghost use Rattle.fa_core_outcome.specs.Outcomes.{outcome_of};
ghost use Rattle.fa_machine.specs.Conditions.{history_full};
ghost use Rattle.fa_machine.specs.Step.{is_die};
ghost use Rattle.fa_solo_job.specs.Deeds.{IsForDies};
ghost use Rattle.fa_solo_job.specs.Inner.{Does, EndsAt, HasMemory, IsPlaced, RanAt};
ghost use Rattle.fa_core_outcome.specs.Fits.{IsJobFor};
ghost use Rattle.fa_core_outcome.specs.Handed.{handed_of};

use crate::inner::Inner;
use fa_core_calls::Events;
use fa_core_outcome::{Job, Outcome};
use fa_faults::fault_of;
use fa_image::Image;
use fa_jobs::{Open, run_job};
use fa_laws::steps::the_geometry_is_kept;
use fa_shared::{done, take};
use fa_shared_turns::make_room;
use fa_types::{Die, TAG_BYTES};
use std::alloc::Allocator;
use std::mem::replace;
use std::sync::ledger::Ledger;

/// Takes the next job of a die, if it has one, makes its calls on the die's image, and ends it. Whether the die had one.
pub fn run_next<L: Ledger, E: Events<A>, I: Image, A: Allocator + Copy>(
    inner: &mut Inner<L, E, I, A>,
    die: Die,
) -> bool
    ensures { Does I.made IsForDies inner.old inner.new }
{
    if !is_of_array(inner, die) {
        return false;
    }
    if !has_memory(inner) {
        return false;
    }
    let Some(place) = inner.place(die) else {
        return false;
    };
    fold_full(inner);
    run_here(inner, die, place)
}

/// Whether the die is one of the array.
fn is_of_array<L: Ledger, E: Events<A>, I: Image, A: Allocator + Copy>(
    inner: &Inner<L, E, I, A>,
    die: Die,
) -> bool
    ensures { result ≡ true → is_die inner.now.locked.core die.0 ≡ true }
{
    inner.locked.array().is_die(die)
}

/// Whether there is memory of the right sizes for a job's calls.
fn has_memory<L: Ledger, E: Events<A>, I: Image, A: Allocator + Copy>(
    inner: &Inner<L, E, I, A>,
) -> bool
    ensures scratch { result ≡ true → length inner.now.scratch.items ≡ inner.now.locked.core.page_map.geometry.page_bytes + 64 }
    ensures buffer { result ≡ true → length inner.now.buffer.items ≡ inner.now.locked.core.page_map.geometry.page_bytes }
{
    let page_bytes = inner.locked.array().geometry().page_bytes as usize;
    if inner.buffer.len() != page_bytes {
        return false;
    }
    if inner.scratch.len() != page_bytes + TAG_BYTES {
        return false;
    }
    true
}

/// The history is folded, if it is full.
fn fold_full<L: Ledger, E: Events<A>, I: Image, A: Allocator + Copy>(inner: &mut Inner<L, E, I, A>)
    ensures does { Does I.made IsForDies inner.old inner.new }
    ensures room { history_full inner.new.locked.core ≡ false }
    ensures geometry { inner.new.locked.core.page_map.geometry ≡ inner.old.locked.core.page_map.geometry }
    ensures rest { inner.new ≡ record inner.old { locked = inner.new.locked; seat = inner.new.seat } }
{
    make_room(inner.alloc, &mut inner.locked, &mut inner.seat);
}

/// Takes the next job of a die, if it has one, and makes it on the image at this place. The history has room for it. Whether the die had
/// one.
fn run_here<L: Ledger, E: Events<A>, I: Image, A: Allocator + Copy>(
    inner: &mut Inner<L, E, I, A>,
    die: Die,
    place: usize,
) -> bool
    requires die { is_die inner.old.locked.core die.0 ≡ true }
    requires room { history_full inner.old.locked.core ≡ false }
    requires placed { IsPlaced I.view inner.old die.0 place }
    requires memory { HasMemory inner.old }
    ensures { Does I.made IsForDies inner.old inner.new }
{
    the_geometry_is_kept();
    match take(inner.alloc, &mut inner.locked, &mut inner.seat, die) {
        Some(job) => {
            run_noted(inner, die, place, &job);
            true
        }
        None => false,
    }
}

/// Makes the calls of a job that was taken, ends it, and notes why its die went out, if it did.
fn run_noted<L: Ledger, E: Events<A>, I: Image, A: Allocator + Copy>(
    inner: &mut Inner<L, E, I, A>,
    die: Die,
    place: usize,
    job: &Job<A>,
)
    requires flight { get inner.old.locked.core.jobs die.0 ≡ Some job.now.flight }
    requires fits { IsJobFor inner.old.locked.core.page_map.geometry inner.old.locked.number die.0 (handed_of job.now) }
    requires placed { IsPlaced I.view inner.old die.0 place }
    requires memory { HasMemory inner.old }
    ensures { EndsAt I.made inner.old die.0 place (handed_of job.now) inner.new }
{
    let was_live = inner.locked.array().is_live(die);
    let outcome = run_taken(inner, die, place, job);
    note_fault(inner, was_live, die, outcome);
}

/// Makes the calls of a job that was taken, and ends it. How it ended.
fn run_taken<L: Ledger, E: Events<A>, I: Image, A: Allocator + Copy>(
    inner: &mut Inner<L, E, I, A>,
    die: Die,
    place: usize,
    job: &Job<A>,
) -> Outcome
    requires flight { get inner.old.locked.core.jobs die.0 ≡ Some job.now.flight }
    requires fits { IsJobFor inner.old.locked.core.page_map.geometry inner.old.locked.number die.0 (handed_of job.now) }
    requires placed { IsPlaced I.view inner.old die.0 place }
    requires memory { HasMemory inner.old }
    ensures { EndsAt I.made inner.old die.0 place (handed_of job.now) inner.new }
{
    let outcome = call_image(inner, die, place, job);
    let buffer = replace(&mut inner.buffer, Vec::new(inner.alloc));
    let ended = done(
        inner.alloc,
        &mut inner.locked,
        &mut inner.seat,
        die,
        outcome,
        buffer,
    );
    let Ok(left) = ended else { unreachable!() };
    inner.buffer = left;
    outcome
}

/// Notes why a die went out whose job ended so, if it was live and is out.
fn note_fault<L: Ledger, E: Events<A>, I: Image, A: Allocator + Copy>(
    inner: &mut Inner<L, E, I, A>,
    was_live: bool,
    die: Die,
    outcome: Outcome,
)
    ensures { inner.new ≡ record inner.old { faults = inner.new.faults } }
{
    let array = inner.locked.array();
    if let Some(fault) = fault_of(was_live, array.is_live(die), die, outcome, array.now()) {
        inner.faults.note(fault);
    }
}

/// Makes the calls of a job on an image.
fn call_image<L: Ledger, E: Events<A>, I: Image, A: Allocator + Copy>(
    inner: &mut Inner<L, E, I, A>,
    die: Die,
    place: usize,
    job: &Job<A>,
) -> Outcome
    requires fits { IsJobFor inner.old.locked.core.page_map.geometry inner.old.locked.number die.0 (handed_of job.now) }
    requires placed { IsPlaced I.view inner.old die.0 place }
    requires memory { HasMemory inner.old }
    ensures ran { RanAt I.made inner.old die.0 place (handed_of job.now) (outcome_of result inner.new.buffer.items) inner.new.images.items }
    ensures rest { inner.new ≡ record inner.old { images = inner.new.images; scratch = inner.new.scratch; buffer = inner.new.buffer } }
    ensures buffer { length inner.new.buffer.items ≡ length inner.old.buffer.items }
{
    let array = inner.locked.array().array_id();
    run_job(
        die,
        &mut inner.images[place],
        &array,
        job,
        &mut inner.scratch,
        &mut inner.buffer,
        &Open,
    )
}
