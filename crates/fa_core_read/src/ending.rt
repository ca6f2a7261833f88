//! The end of a batch.
ghost use Rattle.std.specs.Prelude.{◌≡◌, ℕ, [], ◌∷◌, true, is_some, map};
ghost use Rattle.std.specs.FinMap.{contains_key};
ghost use Rattle.fa_core_batches.specs.Batches.{batches_of, state_of};
ghost use Rattle.fa_core_batches.specs.Pages.{opened};
ghost use Rattle.fa_core_bookings.specs.Bookings.{calendar_of};
ghost use Rattle.fa_core_bookings.specs.Places.{without_places};
ghost use Rattle.fa_machine.specs.Conditions.{batch_open};
ghost use Rattle.fa_machine.specs.Maps.{is_one_of};
ghost use Rattle.fa_machine.specs.Reading.{EndsBatch};
ghost use Rattle.fa_core_read_pages.specs.Left.{places_among};
ghost use Rattle.fa_core_state.specs.Core.{core_of};
ghost use Rattle.fa_core_state.specs.Fitted.{IsFitted};

use fa_batch_terms::Place;
use fa_core_batches::{Batches, PageState};
use fa_core_bookings::Bookings;
use fa_core_read_pages::place_in;
use fa_core_state::State;
use fa_machine::BatchId;
use fa_map_calls::Map;
use fa_types::Page;
use std::alloc::Allocator;

/// The batch is open no more: its bookings that were not started are given up, and its answers are handed out in the order of its
/// list. It takes no memory.
pub fn end_batch<M: Map, A: Allocator + Clone>(
    state: &mut State<M, A>,
    batch: BatchId,
) -> Vec<(Page, Vec<u8, A>), A>
    requires open { batch_open (core_of M.view state.old) batch.0 ≡ true }
    requires fitted { IsFitted M.view state.old }
    ensures ends { EndsBatch (core_of M.view state.old) batch.0 (map (λ e. (e.0.0, e.1.items)) result.items) (core_of M.view state.new) }
    ensures fitted { IsFitted M.view state.new }
{
    release_batch(&mut state.bookings, &state.batches, batch);
    state.batches.end(batch)
}

/// The places that are booked for an open batch are open again.
fn release_batch<A: Allocator + Clone>(
    bookings: &mut Bookings<A>,
    batches: &Batches<A>,
    batch: BatchId,
)
    requires { contains_key (batches_of batches.now) batch.0 ≡ true }
    ensures released { calendar_of bookings.new ≡ without_places
        (places_among (state_of batches.now batch.0) (opened (batches_of batches.now) batch.0).pages) (calendar_of bookings.old) }
    ensures whole { (p : ℕ) → is_one_of (opened (batches_of batches.now) batch.0).pages p ≡ is_some (state_of batches.now batch.0 p) }
{
    release_pages(bookings, batches, batch, batches.pages(batch));
}

/// The places that are booked for these pages of an open batch are open again.
fn release_pages<A: Allocator + Clone>(
    bookings: &mut Bookings<A>,
    batches: &Batches<A>,
    batch: BatchId,
    pages: &[Page],
)
    ensures { calendar_of bookings.new ≡ without_places
        (places_among (state_of batches.now batch.0) (map (λ page. page.0) pages.now)) (calendar_of bookings.old) }
{
    for page in pages {
        release_page(bookings, *page, batches.state(batch, *page));
    }
}

/// If a read of the page, which stands so, is booked, its place is open again.
fn release_page<A: Allocator + Clone>(
    bookings: &mut Bookings<A>,
    page: Page,
    state: Option<PageState>,
)
    ensures { calendar_of bookings.new ≡ without_places (places_among (λ _. state) (page.0 ∷ [])) (calendar_of bookings.old) }
{
    if let Some(place) = place_in(page, state) {
        release_place(bookings, place);
    }
}

/// The place is open, whether it is booked or not.
fn release_place<A: Allocator + Clone>(bookings: &mut Bookings<A>, place: Place)
    ensures { calendar_of bookings.new ≡ without_places (place ∷ []) (calendar_of bookings.old) }
{
    if bookings.booking(place.die, place.round).is_some() {
        bookings.release(place.die, place.round);
    }
}
