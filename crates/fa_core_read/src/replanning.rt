//! Batches that are planned anew.
ghost use Rattle.std.specs.Prelude.{◌≡◌, ◌<◌, ◌≤◌, ◌&&◌, IfOk, IsErrOf, ℕ, find, is_some, length, map, option_map, false, true, None};
ghost use Rattle.std.specs.Prelude.{OnErr, OnOk};
ghost use Rattle.std.specs.FinMap.{contains_key};
ghost use Rattle.std.specs.List.{All, AllByRecursion};
ghost use Rattle.fa_closed.specs.Closed.{current_of, is_closed};
ghost use Rattle.fa_batch_terms.specs.Plan.{IsPlan};
ghost use Rattle.fa_core_batches.specs.Batches.{batches_of, next_of, state_of};
ghost use Rattle.fa_core_batches.specs.Pages.{opened};
ghost use Rattle.fa_core_bookings.specs.Bookings.{calendar_of};
ghost use Rattle.fa_core_bookings.specs.Places.{without_places};
ghost use Rattle.fa_machine.specs.Conditions.{batch_open};
ghost use Rattle.fa_machine.specs.Copies.{is_lost as rule_lost};
ghost use Rattle.fa_machine.specs.Maps.{is_one_of};
ghost use Rattle.fa_machine.specs.Reading.{Replans, IsPlanned, booked, entries_for, is_late as rule_late, left_of, released};
ghost use Rattle.fa_machine.specs.Rounds.{is_closed as is_closed_in, is_taken, is_taken_with};
ghost use Rattle.fa_core_state.specs.Core.{core_of};
ghost use Rattle.fa_core_state.specs.Fitted.{IsFitted};
ghost use Rattle.fa_core_calls.specs.Answers.{IsHandedOut, plan_answer, planned_of};
ghost use Rattle.fa_core_read_pages.specs.Left.{is_left as rule_left, left_among, places_among};
ghost use Rattle.fa_types.specs.Open.{FewClosed};
ghost use Rattle.fa_types.specs.Windows.{IsFull};

use crate::booking::book;
use crate::planner::Planner;
use crate::planning::is_late;
use fa_batch::Batch;
use fa_batch_terms::Place;
use fa_calendar::CalendarRefused;
use fa_closed::Closed;
use fa_core_batches::Batches;
use fa_core_read_pages::{booked_places, is_left, is_lost, list_left};
use fa_core_state::State;
use fa_machine::{AdmitRefused, BatchId};
use fa_map_calls::Map;
use fa_plan::{Planned, plan_in};
use fa_types::Page;
use std::alloc::{AllocError, Allocator};

/// The batch's bookings that were not started are given up, and its pages that have no answer and no read in flight are planned anew, in
/// the least number of rounds, and booked. Refused, nothing has changed.
pub fn replan<M: Map, A: Allocator + Copy>(
    alloc: A,
    planner: &mut Planner<A>,
    state: &mut State<M, A>,
    batch: BatchId,
) -> Result<Planned<A>, AdmitRefused>
    requires open { batch_open (core_of M.view state.old) batch.0 ≡ true }
    requires fitted { IsFitted M.view state.old }
    ensures replans { Replans (core_of M.view state.old) batch.0 (plan_answer result) (core_of M.view state.new) }
    ensures handed { IfOk result (λ planned. IsHandedOut (length (left_of (core_of M.view state.old) batch.0)) planned) }
    ensures fitted { IsFitted M.view state.new }
{
    if let Some(page) = lost_page(state, batch) {
        return Err(AdmitRefused::Lost(page));
    }
    if is_late(&state.bookings) {
        return Err(AdmitRefused::Spent);
    }
    match plan_left(alloc, planner, state, batch) {
        Ok(planned) => replan_with(alloc, state, batch, planned),
        Err(_) => Err(AdmitRefused::NoMemory),
    }
}

/// Books this plan of the pages that are left of an open batch, none of which is lost, in place of what was booked for it. Refused,
/// nothing has changed.
fn replan_with<M: Map, A: Allocator + Copy>(
    alloc: A,
    state: &mut State<M, A>,
    batch: BatchId,
    planned: Planned<A>,
) -> Result<Planned<A>, AdmitRefused>
    requires open { contains_key (batches_of state.old.batches) batch.0 ≡ true }
    requires held { find (rule_lost (M.view state.old.page_map)) (left_of (core_of M.view state.old) batch.0) ≡ None }
    requires early { rule_late (calendar_of state.old.bookings) ≡ false }
    requires planned { IsPlanned (M.view state.old.page_map) (released batch.0 (calendar_of state.old.bookings))
        (left_of (core_of M.view state.old) batch.0) (planned_of planned) }
    requires handed { IsHandedOut (length (left_of (core_of M.view state.old) batch.0)) planned }
    requires fitted { IsFitted M.view state.old }
    ensures replans { Replans (core_of M.view state.old) batch.0 (plan_answer result) (core_of M.view state.new) }
    ensures handed { IfOk result (λ planned. IsHandedOut (length (left_of (core_of M.view state.old) batch.0)) planned) }
    ensures fitted { IsFitted M.view state.new }
{
    match book_again(alloc, state, batch, planned.plan.places.as_slice()) {
        Ok(()) => Ok(planned),
        Err(CalendarRefused::Full) => Err(AdmitRefused::CalendarFull),
        Err(CalendarRefused::NoMemory) => Err(AdmitRefused::NoMemory),
    }
}

/// Gives up what is booked for an open batch, and books these places, which are a plan of its pages that are left. Refused, nothing has
/// changed.
fn book_again<M: Map, A: Allocator + Copy>(
    alloc: A,
    state: &mut State<M, A>,
    batch: BatchId,
    places: &[Place],
) -> Result<(), CalendarRefused>
    requires open { contains_key (batches_of state.old.batches) batch.0 ≡ true }
    requires plan { IsPlan (entries_for (M.view state.old.page_map) (left_of (core_of M.view state.old) batch.0))
        (calendar_of state.old.bookings).round
        (is_closed_in (M.view state.old.page_map) (released batch.0 (calendar_of state.old.bookings))) places.now }
    requires fitted { IsFitted M.view state.old }
    ensures ok { OnOk result (core_of M.view state.new ≡ record (core_of M.view state.old) {
      calendar = booked batch places.now (released batch.0 (calendar_of state.old.bookings));
    }) }
    ensures fits { OnOk result (FewClosed (calendar_of state.old.bookings).round
        (is_taken_with (released batch.0 (calendar_of state.old.bookings)) places.now)) }
    ensures full { IsErrOf result CalendarRefused.Full → (die : ℕ) × IsFull (calendar_of state.old.bookings).round
        (is_taken_with (released batch.0 (calendar_of state.old.bookings)) places.now die) 0 }
    ensures err { OnErr result (core_of M.view state.new ≡ core_of M.view state.old) }
    ensures fitted { IsFitted M.view state.new }
{
    match places_of(alloc, state, batch) {
        Ok(old) => book(state, batch, old.as_slice(), places),
        Err(_) => Err(CalendarRefused::NoMemory),
    }
}

/// The places that are booked for an open batch. The error is out of memory.
fn places_of<M: Map, A: Allocator + Copy>(
    alloc: A,
    state: &State<M, A>,
    batch: BatchId,
) -> Result<Vec<Place, A>, AllocError>
    requires open { contains_key (batches_of state.now.batches) batch.0 ≡ true }
    requires fitted { IsFitted M.view state.now }
    ensures places { IfOk result (λ places. places.items
        ≡ places_among (state_of state.now.batches batch.0) (opened (batches_of state.now.batches) batch.0).pages) }
    ensures booked { IfOk result (λ places. AllByRecursion
        (λ x. contains_key (calendar_of state.now.bookings).bookings (x.die.0, x.round.0) ≡ true) places.items) }
    ensures released { IfOk result (λ places. without_places places.items (calendar_of state.now.bookings)
        ≡ released batch.0 (calendar_of state.now.bookings)) }
    ensures whole { (p : ℕ) → is_one_of (opened (batches_of state.now.batches) batch.0).pages p
        ≡ is_some (state_of state.now.batches batch.0 p) }
    ensures older { batch.0 < next_of state.now.batches }
    ensures left { left_of (core_of M.view state.now) batch.0
        ≡ left_among (state_of state.now.batches batch.0) (opened (batches_of state.now.batches) batch.0).pages }
{
    let pages = state.batches.pages(batch);
    booked_places(alloc, &state.batches, batch, pages)
}

/// The first page of an open batch that is left to be read, and is lost.
fn lost_page<M: Map, A: Allocator + Clone>(state: &State<M, A>, batch: BatchId) -> Option<Page>
    requires open { contains_key (batches_of state.now.batches) batch.0 ≡ true }
    requires fitted { IsFitted M.view state.now }
    ensures { option_map (λ page. page.0) result
        ≡ find (rule_lost (M.view state.now.page_map)) (left_of (core_of M.view state.now) batch.0) }
{
    lost_among(
        &state.page_map,
        &state.batches,
        batch,
        state.batches.pages(batch),
    )
}

/// The first of these pages that is left to be read in an open batch, and is lost.
fn lost_among<M: Map, A: Allocator + Clone>(
    page_map: &M,
    batches: &Batches<A>,
    batch: BatchId,
    pages: &[Page],
) -> Option<Page>
    requires { All (λ page. page.0 < (M.view page_map.now).geometry.pages) pages.now }
    ensures { option_map (λ page. page.0) result ≡ find (rule_lost (M.view page_map.now))
        (left_among (state_of batches.now batch.0) (map (λ page. page.0) pages.now)) }
{
    for page in pages {
        if is_left_lost(page_map, batches, batch, *page) {
            return Some(*page);
        }
    }
    None
}

/// Whether the page is left to be read in an open batch, and is lost.
fn is_left_lost<M: Map, A: Allocator + Clone>(
    page_map: &M,
    batches: &Batches<A>,
    batch: BatchId,
    page: Page,
) -> bool
    requires { page.0 < (M.view page_map.now).geometry.pages }
    ensures { result ≡ (rule_left (state_of batches.now batch.0 page.0) && rule_lost (M.view page_map.now) page.0) }
{
    is_left(batches.state(batch, page)) && is_lost(page_map, page)
}

/// A plan of the pages that are left of an open batch, in the least number of rounds from the current one. The error is out of memory.
/// It is also answered where a page has no holder though none is lost, since no plan has such a page.
fn plan_left<M: Map, A: Allocator + Copy>(
    alloc: A,
    planner: &mut Planner<A>,
    state: &State<M, A>,
    batch: BatchId,
) -> Result<Planned<A>, AllocError>
    requires open { contains_key (batches_of state.now.batches) batch.0 ≡ true }
    requires early { rule_late (calendar_of state.now.bookings) ≡ false }
    requires fitted { IsFitted M.view state.now }
    ensures planned { IfOk result (λ planned. IsPlanned (M.view state.now.page_map) (released batch.0 (calendar_of state.now.bookings))
        (left_of (core_of M.view state.now) batch.0) (planned_of planned)) }
    ensures handed { IfOk result (λ planned. IsHandedOut (length (left_of (core_of M.view state.now) batch.0)) planned) }
{
    let closed = closed_without(alloc, state, batch)?;
    list_entries(state, batch, &mut planner.entries)?;
    if planner.entries.is_sound() {
        plan_in(alloc, &mut planner.workspace, &planner.entries, &closed)
    } else {
        Err(AllocError)
    }
}

/// The entries are the pages that are left of an open batch, with their holders, in place of what they were. The error is out of memory.
fn list_entries<M: Map, A: Allocator + Copy>(
    state: &State<M, A>,
    batch: BatchId,
    entries: &mut Batch<A>,
) -> Result<(), AllocError>
    requires open { contains_key (batches_of state.now.batches) batch.0 ≡ true }
    requires fitted { IsFitted M.view state.now }
    ensures { OnOk result (entries.new
        ≡ entries_for (M.view state.now.page_map) (left_of (core_of M.view state.now) batch.0)) }
{
    let pages = state.batches.pages(batch);
    list_left(&state.page_map, &state.batches, batch, pages, entries)
}

/// The closed rounds of all dies from the current one on. Those that are booked for the batch and were not started are left out. The
/// error is out of memory.
pub fn closed_without<M: Map, A: Allocator + Copy>(
    alloc: A,
    state: &State<M, A>,
    batch: BatchId,
) -> Result<Closed<A>, AllocError>
    requires fitted { IsFitted M.view state.now }
    requires open { batch_open (core_of M.view state.now) batch.0 ≡ true }
    ensures current { IfOk result (λ closed. current_of closed ≡ (calendar_of state.now.bookings).round) }
    ensures closed { IfOk result (λ closed. (die round : ℕ) → (calendar_of state.now.bookings).round ≤ round
        → is_closed closed die round ≡ is_taken (released batch.0 (calendar_of state.now.bookings)) die round) }
{
    let places = places_of(alloc, state, batch)?;
    state.bookings.closed(alloc, places.as_slice())
}
