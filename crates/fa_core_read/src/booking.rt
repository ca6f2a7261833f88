//! Batches that are opened, and plans that are booked for them.
ghost use Rattle.std.specs.Prelude.{◌≡◌, ℕ, ◌+◌, ◌<◌, ◌≤◌, ◌==◌, ◌&&◌, length, not, true, false};
ghost use Rattle.std.specs.Prelude.{if◌then◌else◌, is_some, [], map, replicate};
ghost use Rattle.std.specs.Prelude.{IfOk, OnOk, OnErr, IsErrOf, Some};
ghost use Rattle.std.specs.FinMap.{contains_key, empty, insert, remove};
ghost use Rattle.std.specs.List.{All, AllByRecursion};
ghost use Rattle.fa_batch_terms.specs.Plan.{AreApart, ArePlacedOnce, times_placed};
ghost use Rattle.fa_core_batches.specs.Batches.{batches_of, bytes_of, next_of, room_of, state_of};
ghost use Rattle.fa_core_batches.specs.Pages.{opened};
ghost use Rattle.fa_core_bookings.specs.Bookings.{calendar_of};
ghost use Rattle.fa_core_bookings.specs.Places.{without_places};
ghost use Rattle.fa_machine.specs.Maps.{insert_all, is_one_of};
ghost use Rattle.fa_machine.specs.Reading.{at_once, booked, has_data as rule_has_data};
ghost use Rattle.fa_machine.specs.Rounds.{is_taken, is_taken_with};
ghost use Rattle.fa_machine.specs.Step.{is_distinct};
ghost use Rattle.fa_core_read_pages.specs.Left.{is_left, left_among, places_among};
ghost use Rattle.fa_core_read.specs.Opened.{opened_state, placed_state};
ghost use Rattle.fa_core_state.specs.Core.{core_of};
ghost use Rattle.fa_core_state.specs.Fitted.{IsFitted};
ghost use Rattle.fa_types.specs.Open.{FewClosed, IsOpen};
ghost use Rattle.fa_types.specs.Windows.{IsFull};

use fa_batch_terms::Place;
use fa_calendar::CalendarRefused;
use fa_core_batches::{Batches, PageState};
use fa_core_read_pages::has_data;
use fa_core_state::State;
use fa_machine::BatchId;
use fa_map_calls::Map;
use fa_types::Page;
use std::alloc::{AllocError, Allocator};

/// Opens a batch of these pages, no two the same: those that have no bytes on their dies are answered with zeros. The error is out
/// of memory, and changes nothing.
pub fn open<M: Map, A: Allocator + Copy>(
    alloc: A,
    batches: &mut Batches<A>,
    page_map: &M,
    pages: &[Page],
) -> Result<BatchId, AllocError>
    requires inside { All (λ page. page.0 < (M.view page_map.now).geometry.pages) pages.now }
    requires distinct { is_distinct (map (λ page. page.0) pages.now) ≡ true }
    ensures number { IfOk result (λ batch. (batch.0 ≡ next_of batches.old) × (next_of batches.new ≡ next_of batches.old + 1)) }
    ensures fresh { contains_key (batches_of batches.old) (next_of batches.old) ≡ false }
    ensures opened { IfOk result (λ batch. batches_of batches.new ≡ insert (batches_of batches.old) batch.0 (record {
      pages = map (λ page. page.0) pages.now;
      answers = insert_all (at_once (M.view page_map.now) (map (λ page. page.0) pages.now)) (replicate (bytes_of batches.old) 0) empty;
    })) }
    ensures states { IfOk result (λ batch. (b p : ℕ) → state_of batches.new b p
        ≡ (if b == batch.0 then opened_state (M.view page_map.now) (map (λ page. page.0) pages.now) p else state_of batches.old b p)) }
    ensures bytes { bytes_of batches.new ≡ bytes_of batches.old }
    ensures refused { OnErr result (batches_of batches.new ≡ batches_of batches.old) }
    ensures refused_states { OnErr result ((b p : ℕ) → state_of batches.new b p ≡ state_of batches.old b p) }
    ensures later { next_of batches.old ≤ next_of batches.new }
{
    let batch = batches.begin(alloc, pages.len())?;
    match add_pages(alloc, batches, page_map, batch, pages) {
        Ok(()) => Ok(batch),
        Err(refused) => {
            batches.end(batch);
            Err(refused)
        }
    }
}

/// These pages, no two the same, are those of the batch, which was just begun. The error is out of memory; then it has some.
fn add_pages<M: Map, A: Allocator + Copy>(
    alloc: A,
    batches: &mut Batches<A>,
    page_map: &M,
    batch: BatchId,
    pages: &[Page],
) -> Result<(), AllocError>
    requires inside { All (λ page. page.0 < (M.view page_map.now).geometry.pages) pages.now }
    requires distinct { is_distinct (map (λ page. page.0) pages.now) ≡ true }
    requires begun { opened (batches_of batches.old) batch.0 ≡ record { pages = []; answers = empty } }
    requires there { contains_key (batches_of batches.old) batch.0 ≡ true }
    requires none { (p : ℕ) → state_of batches.old batch.0 p ≡ None }
    requires room { room_of batches.old batch.0 ≡ length pages.now }
    ensures added { OnOk result (batches_of batches.new ≡ insert (batches_of batches.old) batch.0 (record {
      pages = map (λ page. page.0) pages.now;
      answers = insert_all (at_once (M.view page_map.now) (map (λ page. page.0) pages.now)) (replicate (bytes_of batches.old) 0) empty;
    })) }
    ensures states { OnOk result ((b p : ℕ) → state_of batches.new b p
        ≡ (if b == batch.0 then opened_state (M.view page_map.now) (map (λ page. page.0) pages.now) p else state_of batches.old b p)) }
    ensures others { OnErr result ((b p : ℕ) → (b == batch.0) ≡ false → state_of batches.new b p ≡ state_of batches.old b p) }
    ensures there { contains_key (batches_of batches.new) batch.0 ≡ true }
    ensures same { OnErr result (remove (batches_of batches.new) batch.0 ≡ remove (batches_of batches.old) batch.0) }
    ensures number { next_of batches.new ≡ next_of batches.old }
    ensures bytes { bytes_of batches.new ≡ bytes_of batches.old }
{
    for page in pages {
        batches.add(alloc, batch, *page, !has_data(page_map, *page))?;
    }
    Ok(())
}

/// Gives up the places that are booked for the batch and books these for pages of it, which are all that are left to be read.
/// Refused, nothing has changed.
pub fn book<M: Map, A: Allocator + Copy>(
    state: &mut State<M, A>,
    batch: BatchId,
    old: &[Place],
    new: &[Place],
) -> Result<(), CalendarRefused>
    requires open { contains_key (batches_of state.old.batches) batch.0 ≡ true }
    requires booked { old.now ≡ places_among (state_of state.old.batches batch.0) (opened (batches_of state.old.batches) batch.0).pages }
    requires older { batch.0 < next_of state.old.batches }
    requires whole { (p : ℕ) → is_one_of (opened (batches_of state.old.batches) batch.0).pages p
        ≡ is_some (state_of state.old.batches batch.0 p) }
    requires opens { AllByRecursion (λ x. IsOpen (calendar_of state.old.bookings).round
        (is_taken (without_places old.now (calendar_of state.old.bookings))) x.die.0 x.round.0) new.now }
    requires apart { AreApart new.now }
    requires once { ArePlacedOnce new.now }
    requires left { AllByRecursion (λ x. is_left (state_of state.old.batches batch.0 x.page.0) ≡ true) new.now }
    requires all { (page : ℕ) → is_left (state_of state.old.batches batch.0 page) ≡ true → 0 < times_placed new.now page }
    requires inside { AllByRecursion (λ x. x.die.0 < (M.view state.old.page_map).geometry.dies) new.now }
    requires fitted { IsFitted M.view state.old }
    ensures ok { OnOk result (core_of M.view state.new ≡ record (core_of M.view state.old) {
      calendar = booked batch new.now (without_places old.now (calendar_of state.old.bookings));
    }) }
    ensures fits { OnOk result (FewClosed (calendar_of state.old.bookings).round
        (is_taken_with (without_places old.now (calendar_of state.old.bookings)) new.now)) }
    ensures full { IsErrOf result CalendarRefused.Full → (die : ℕ) × IsFull (calendar_of state.old.bookings).round
        (is_taken_with (without_places old.now (calendar_of state.old.bookings)) new.now die) 0 }
    ensures err { OnErr result (core_of M.view state.new ≡ core_of M.view state.old) }
    ensures same { OnErr result ((b p : ℕ) → state_of state.new.batches b p ≡ state_of state.old.batches b p) }
    ensures fitted { IsFitted M.view state.new }
{
    state.bookings.exchange(batch, old, new)?;
    enter(&mut state.batches, batch, new);
    Ok(())
}

/// The pages of these places, which are left to be read, are booked there.
fn enter<A: Allocator + Clone>(batches: &mut Batches<A>, batch: BatchId, places: &[Place])
    requires { AllByRecursion (λ x. is_left (state_of batches.old batch.0 x.page.0) ≡ true) places.now }
    ensures batches { batches_of batches.new ≡ batches_of batches.old }
    ensures states { (b p : ℕ) → state_of batches.new b p
        ≡ (if b == batch.0 then placed_state places.now p (state_of batches.old b p) else state_of batches.old b p) }
    ensures number { next_of batches.new ≡ next_of batches.old }
    ensures bytes { bytes_of batches.new ≡ bytes_of batches.old }
{
    for place in places {
        batches.set(batch, place.page, PageState::Booked(place.die, place.round));
    }
}
