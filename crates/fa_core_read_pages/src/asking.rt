//! The pages that are to be read, each with its holders.
ghost use Rattle.std.specs.Prelude.{◌≡◌, ◌<◌, ◌++◌, [], ◌∷◌, map, IfOk, OnOk};
ghost use Rattle.std.specs.FinMap.{contains_key, get};
ghost use Rattle.std.specs.List.{All};
ghost use Rattle.fa_core_batches.specs.Batches.{batches_of, state_of};
ghost use Rattle.fa_core_batches.specs.Pages.{opened};
ghost use Rattle.fa_machine.specs.Reading.{entries_for, has_data as rule_has_data, is_data as rule_data, to_read};
ghost use Rattle.fa_core_read_pages.specs.Left.{is_left as rule_left, left_among, place_in as rule_place, places_among};

use crate::holding::add_page;
use fa_batch::Batch;
use fa_batch_terms::Place;
use fa_core_batches::{Batches, PageState};
use fa_machine::BatchId;
use fa_map_calls::Map;
use fa_types::{Kind, Page};
use std::alloc::{AllocError, Allocator};

/// Whether the page has bytes on its dies: it was written, and not as a hole.
pub fn has_data<M: Map>(page_map: &M, page: Page) -> bool
    requires { page.0 < (M.view page_map.now).geometry.pages }
    ensures { result ≡ rule_has_data (get (M.view page_map.now).versions page.0) }
{
    match page_map.version(page) {
        Some(version) => is_data(version.kind),
        None => false,
    }
}

fn is_data(kind: Kind) -> bool
    ensures { result ≡ rule_data kind }
{
    match kind {
        Kind::Data => true,
        Kind::Hole => false,
    }
}

/// One page more, if it has bytes on its dies. The error is out of memory.
fn add_written<M: Map, A: Allocator + Copy>(
    page_map: &M,
    batch: &mut Batch<A>,
    page: Page,
) -> Result<(), AllocError>
    requires { page.0 < (M.view page_map.now).geometry.pages }
    ensures { OnOk result (batch.new
        ≡ batch.old ++ entries_for (M.view page_map.now) (to_read (M.view page_map.now) (page.0 ∷ []))) }
{
    if has_data(page_map, page) {
        add_page(page_map, batch, page)
    } else {
        Ok(())
    }
}

/// The batch has those of these pages that have bytes on their dies, with their holders, in place of what it had. The error is out of
/// memory.
pub fn list_written<M: Map, A: Allocator + Copy>(
    page_map: &M,
    pages: &[Page],
    batch: &mut Batch<A>,
) -> Result<(), AllocError>
    requires { All (λ page. page.0 < (M.view page_map.now).geometry.pages) pages.now }
    ensures { OnOk result (batch.new
        ≡ entries_for (M.view page_map.now) (to_read (M.view page_map.now) (map (λ page. page.0) pages.now))) }
{
    batch.clear();
    for page in pages {
        add_written(page_map, batch, *page)?;
    }
    Ok(())
}

/// The entries are those of these pages that are left to be read in an open batch, with their holders, in place of what they were. The
/// error is out of memory.
pub fn list_left<M: Map, A: Allocator + Copy>(
    page_map: &M,
    batches: &Batches<A>,
    batch: BatchId,
    pages: &[Page],
    entries: &mut Batch<A>,
) -> Result<(), AllocError>
    requires { All (λ page. page.0 < (M.view page_map.now).geometry.pages) pages.now }
    ensures { OnOk result (entries.new ≡ entries_for (M.view page_map.now)
        (left_among (state_of batches.now batch.0) (map (λ page. page.0) pages.now))) }
{
    entries.clear();
    for page in pages {
        add_left(page_map, entries, *page, batches.state(batch, *page))?;
    }
    Ok(())
}

/// One page more, if it is left to be read, as it stands. The error is out of memory.
fn add_left<M: Map, A: Allocator + Copy>(
    page_map: &M,
    entries: &mut Batch<A>,
    page: Page,
    state: Option<PageState>,
) -> Result<(), AllocError>
    requires { page.0 < (M.view page_map.now).geometry.pages }
    ensures { OnOk result (entries.new ≡ entries.old ++ entries_for (M.view page_map.now) (left_among (λ _. state) (page.0 ∷ []))) }
{
    if is_left(state) {
        add_page(page_map, entries, page)
    } else {
        Ok(())
    }
}

/// Whether a page that stands so has no answer and no read in flight.
pub fn is_left(state: Option<PageState>) -> bool
    ensures { result ≡ rule_left state }
{
    match state {
        Some(PageState::Booked(_, _)) => true,
        Some(PageState::Torn) => true,
        _ => false,
    }
}

/// The places that are booked for these pages of an open batch. The error is out of memory.
pub fn booked_places<A: Allocator + Copy>(
    alloc: A,
    batches: &Batches<A>,
    batch: BatchId,
    pages: &[Page],
) -> Result<Vec<Place, A>, AllocError>
    ensures { IfOk result (λ places. places.items ≡ places_among (state_of batches.now batch.0) (map (λ page. page.0) pages.now)) }
{
    let mut places = Vec::with_capacity(alloc, pages.len())?;
    for page in pages {
        add_booked(&mut places, *page, batches.state(batch, *page))?;
    }
    Ok(places)
}

/// One place more, if a read of the page, which stands so, is booked. The error is out of memory.
fn add_booked<A: Allocator>(
    places: &mut Vec<Place, A>,
    page: Page,
    state: Option<PageState>,
) -> Result<(), AllocError>
    ensures { OnOk result (places.new.items ≡ places.old.items ++ places_among (λ _. state) (page.0 ∷ [])) }
{
    if let Some(place) = place_in(page, state) {
        places.push(place)?;
    }
    Ok(())
}

/// The place that is booked for a page that stands so.
pub fn place_in(page: Page, state: Option<PageState>) -> Option<Place>
    ensures { result ≡ rule_place page.0 state }
{
    match state {
        Some(PageState::Booked(die, round)) => Some(Place { page, die, round }),
        _ => None,
    }
}
