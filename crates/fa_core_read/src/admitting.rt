//! Batches that are admitted.
ghost use Rattle.std.specs.Prelude.{◌≡◌, ℕ, ◌<◌, ◌≤◌, length, find, map, true, false, IfOk, IsErrOf, None, OnErr, OnOk};
ghost use Rattle.std.specs.FinMap.{contains_key, insert, remove};
ghost use Rattle.std.specs.List.{All};
ghost use Rattle.fa_batch_terms.specs.Plan.{IsPlan};
ghost use Rattle.fa_core_batches.specs.Batches.{batches_of, next_of, state_of};
ghost use Rattle.fa_core_batches.specs.Pages.{opened};
ghost use Rattle.fa_core_bookings.specs.Bookings.{calendar_of};
ghost use Rattle.fa_machine.specs.Copies.{is_lost};
ghost use Rattle.fa_machine.specs.Reading.{Admits, IsPlanned, booked, entries_for, is_fresh, is_late as rule_late, to_read};
ghost use Rattle.fa_machine.specs.Rounds.{is_closed, is_taken_with};
ghost use Rattle.fa_machine.specs.Step.{is_distinct};
ghost use Rattle.fa_core_state.specs.Core.{core_of};
ghost use Rattle.fa_core_state.specs.Fitted.{IsFitted};
ghost use Rattle.fa_core_calls.specs.Answers.{IsHandedOut, admit_answer, planned_of};
ghost use Rattle.fa_core_read.specs.Opened.{new_batch, opened_state};
ghost use Rattle.fa_types.specs.Open.{FewClosed};
ghost use Rattle.fa_types.specs.Windows.{IsFull};

use crate::booking::{book, open};
use crate::planner::Planner;
use crate::planning::{is_late, plan_written};
use fa_batch_terms::Place;
use fa_calendar::CalendarRefused;
use fa_core_calls::Admitted;
use fa_core_read_pages::first_lost;
use fa_core_state::State;
use fa_machine::{AdmitRefused, BatchId};
use fa_map_calls::Map;
use fa_plan::Planned;
use fa_types::Page;
use std::alloc::{AllocError, Allocator};

/// A batch of these pages, at most 1,024 and no two the same. Those that have bytes on their dies are planned in the least number of
/// rounds, and booked; the others are answered with zeros at once. Refused, nothing has changed.
pub fn admit<M: Map, A: Allocator + Copy>(
    alloc: A,
    planner: &mut Planner<A>,
    state: &mut State<M, A>,
    pages: &[Page],
) -> Result<Admitted<A>, AdmitRefused>
    requires inside { All (λ page. page.0 < (M.view state.old.page_map).geometry.pages) pages.now }
    requires distinct { is_distinct (map (λ page. page.0) pages.now) ≡ true }
    requires few { length pages.now ≤ 1024 }
    requires fitted { IsFitted M.view state.old }
    ensures admits { Admits (core_of M.view state.old) (map (λ page. page.0) pages.now) (admit_answer result) (core_of M.view state.new) }
    ensures handed { IfOk result (λ admitted. IsHandedOut
        (length (to_read (M.view state.old.page_map) (map (λ page. page.0) pages.now))) admitted.planned) }
    ensures fitted { IsFitted M.view state.new }
{
    if let Some(page) = first_lost(&state.page_map, pages) {
        return Err(AdmitRefused::Lost(page));
    }
    if is_late(&state.bookings) {
        return Err(AdmitRefused::Spent);
    }
    match plan_written(alloc, planner, state, pages) {
        Ok(planned) => {
            let noted = planner.noted(alloc, &planned, &state.bookings);
            let answer = admit_planned(alloc, state, pages, planned);
            if answer.is_ok() {
                planner.keep_noted(noted);
            }
            answer
        }
        Err(_) => Err(AdmitRefused::NoMemory),
    }
}

/// A batch of these pages, none of which is lost, with the plan of those that have bytes on their dies. Refused, nothing has changed.
fn admit_planned<M: Map, A: Allocator + Copy>(
    alloc: A,
    state: &mut State<M, A>,
    pages: &[Page],
    planned: Planned<A>,
) -> Result<Admitted<A>, AdmitRefused>
    requires inside { All (λ page. page.0 < (M.view state.old.page_map).geometry.pages) pages.now }
    requires distinct { is_distinct (map (λ page. page.0) pages.now) ≡ true }
    requires few { length pages.now ≤ 1024 }
    requires held { find (is_lost (M.view state.old.page_map)) (map (λ page. page.0) pages.now) ≡ None }
    requires early { rule_late (calendar_of state.old.bookings) ≡ false }
    requires planned { IsPlanned (M.view state.old.page_map) (calendar_of state.old.bookings)
        (to_read (M.view state.old.page_map) (map (λ page. page.0) pages.now)) (planned_of planned) }
    requires handed { IsHandedOut (length (to_read (M.view state.old.page_map) (map (λ page. page.0) pages.now))) planned }
    requires fitted { IsFitted M.view state.old }
    ensures admits { Admits (core_of M.view state.old) (map (λ page. page.0) pages.now) (admit_answer result) (core_of M.view state.new) }
    ensures handed { IfOk result (λ admitted. IsHandedOut
        (length (to_read (M.view state.old.page_map) (map (λ page. page.0) pages.now))) admitted.planned) }
    ensures fitted { IsFitted M.view state.new }
{
    match open_new(alloc, state, pages) {
        Ok(batch) => match book_new(state, batch, planned.plan.places.as_slice()) {
            Ok(()) => Ok(Admitted { batch, planned }),
            Err(CalendarRefused::Full) => Err(AdmitRefused::CalendarFull),
            Err(CalendarRefused::NoMemory) => Err(AdmitRefused::NoMemory),
        },
        Err(_) => Err(AdmitRefused::NoMemory),
    }
}

/// Opens a batch of these pages. The error is out of memory, and changes nothing.
fn open_new<M: Map, A: Allocator + Copy>(
    alloc: A,
    state: &mut State<M, A>,
    pages: &[Page],
) -> Result<BatchId, AllocError>
    requires inside { All (λ page. page.0 < (M.view state.old.page_map).geometry.pages) pages.now }
    requires distinct { is_distinct (map (λ page. page.0) pages.now) ≡ true }
    requires few { length pages.now ≤ 1024 }
    requires fitted { IsFitted M.view state.old }
    ensures opened { IfOk result (λ batch. core_of M.view state.new ≡ record (core_of M.view state.old) {
      batches = insert (batches_of state.old.batches) batch.0
          (new_batch (M.view state.old.page_map) (map (λ page. page.0) pages.now));
    }) }
    ensures fresh { IfOk result (λ batch. is_fresh (core_of M.view state.old) batch.0 ≡ true) }
    ensures states { IfOk result (λ batch. (p : ℕ) → state_of state.new.batches batch.0 p
        ≡ opened_state (M.view state.old.page_map) (map (λ page. page.0) pages.now) p) }
    ensures older { IfOk result (λ batch. batch.0 < next_of state.new.batches) }
    ensures refused { OnErr result (core_of M.view state.new ≡ core_of M.view state.old) }
    ensures fitted { IsFitted M.view state.new }
{
    match open(alloc, &mut state.batches, &state.page_map, pages) {
        Ok(batch) => Ok(batch),
        Err(refused) => Err(refused),
    }
}

/// Books these places, which are a plan of the pages of the batch that have bytes on their dies. The batch was just opened; refused, it
/// is open no more, and all else is as it was.
fn book_new<M: Map, A: Allocator + Copy>(
    state: &mut State<M, A>,
    batch: BatchId,
    places: &[Place],
) -> Result<(), CalendarRefused>
    requires open { contains_key (batches_of state.old.batches) batch.0 ≡ true }
    requires states { (p : ℕ) → state_of state.old.batches batch.0 p
        ≡ opened_state (M.view state.old.page_map) (opened (batches_of state.old.batches) batch.0).pages p }
    requires older { batch.0 < next_of state.old.batches }
    requires plan { IsPlan (entries_for (M.view state.old.page_map)
        (to_read (M.view state.old.page_map) (opened (batches_of state.old.batches) batch.0).pages))
        (calendar_of state.old.bookings).round (is_closed (M.view state.old.page_map) (calendar_of state.old.bookings)) places.now }
    requires fitted { IsFitted M.view state.old }
    ensures ok { OnOk result (core_of M.view state.new
        ≡ record (core_of M.view state.old) { calendar = booked batch places.now (calendar_of state.old.bookings) }) }
    ensures fits { OnOk result (FewClosed (calendar_of state.old.bookings).round
        (is_taken_with (calendar_of state.old.bookings) places.now)) }
    ensures full { IsErrOf result CalendarRefused.Full → (die : ℕ) × IsFull (calendar_of state.old.bookings).round
        (is_taken_with (calendar_of state.old.bookings) places.now die) 0 }
    ensures err { OnErr result (core_of M.view state.new
        ≡ record (core_of M.view state.old) { batches = remove (batches_of state.old.batches) batch.0 }) }
    ensures fitted { IsFitted M.view state.new }
{
    match book(state, batch, &[], places) {
        Ok(()) => Ok(()),
        Err(refused) => {
            state.batches.end(batch);
            Err(refused)
        }
    }
}
