//! The state over what images hold.
ghost use Rattle.std.specs.Prelude.{◌≡◌, ◌+◌, ◌*◌, ◌<◌, ◌^◌, [], IfOk};
ghost use Rattle.std.specs.FinMap.{len};
ghost use Rattle.fa_core_state.specs.Begun.{begun, numbers_of};
ghost use Rattle.fa_core_tables.specs.Logs.{base_of, history_of};
ghost use Rattle.fa_core_tables.specs.Counted.{new_base};
ghost use Rattle.fa_set.specs.Members.{bound_of, members};
ghost use Rattle.fa_core_state.specs.Core.{core_of};
ghost use Rattle.fa_core_state.specs.Fitted.{IsFitted};

use fa_core_batches::Batches;
use fa_core_bookings::Bookings;
use fa_core_state::{State, mark_live};
use fa_core_tables::{ByDie, Claims, Log, Waiting};
use fa_map_calls::Map;
use fa_set::NumberSet;
use fa_types::{Copies, Round, Seq};
use std::alloc::{AllocError, Allocator};

/// The state over what images hold, with nothing under way: round 1, the header of each live die behind, an empty history. The
/// page map, the epoch, the spares and the greatest number of a page are what mounting found. The error is out of memory.
pub fn begin<M: Map + Drop, A: Allocator + Copy>(
    alloc: A,
    page_map: M,
    copies: Copies,
    epoch: u64,
    spares: NumberSet<A>,
    last: Seq,
) -> Result<State<M, A>, AllocError>
    requires spares { bound_of spares ≡ (M.view page_map).geometry.dies }
    requires last { last.0 < 2 ^ 62 }
    requires epoch { epoch + len (M.view page_map).live + 2 * len (members spares) < 2 ^ 62 }
    ensures begun { IfOk result (λ state. core_of M.view state ≡ begun copies.number (M.view page_map) epoch (members spares) last.0) }
    ensures fitted { IfOk result (λ state. IsFitted M.view state) }
{
    let geometry = page_map.geometry();
    let dies = geometry.dies;
    let page_bytes = geometry.page_bytes as usize;
    let behind = live_dies(alloc, &page_map)?;
    let stepped = NumberSet::new(alloc, dies as usize)?;
    let bookings = Bookings::new(alloc, Round(1))?;
    let waiting = Waiting::new(alloc, dies)?;
    let jobs = ByDie::new(alloc, dies)?;
    let asked = ByDie::new(alloc, dies)?;
    let synced = ByDie::new(alloc, dies)?;
    let log = new_log(alloc, &page_map)?;
    Ok(State {
        copies,
        page_map,
        bookings,
        epoch,
        behind,
        spares,
        stepped,
        last: last.0,
        waiting,
        jobs,
        copying: None,
        claims: Claims::new(alloc),
        batches: Batches::new(alloc, page_bytes),
        flushes: 0,
        asked,
        synced,
        log,
    })
}

/// The live dies as a set.
fn live_dies<M: Map, A: Allocator + Copy>(
    alloc: A,
    page_map: &M,
) -> Result<NumberSet<A>, AllocError>
    ensures members { IfOk result (λ dies. members dies ≡ (M.view page_map.now).live) }
    ensures bound { IfOk result (λ dies. bound_of dies ≡ (M.view page_map.now).geometry.dies) }
{
    let mut live = NumberSet::new(alloc, page_map.geometry().dies as usize)?;
    mark_live(&mut live, page_map);
    Ok(live)
}

/// An empty history, over the numbers that the pages have.
fn new_log<M: Map, A: Allocator>(alloc: A, page_map: &M) -> Result<Log<A>, AllocError>
    ensures base { IfOk result (λ log. base_of log ≡ new_base (numbers_of (M.view page_map.now))) }
    ensures history { IfOk result (λ log. history_of log ≡ []) }
{
    Log::new(alloc, page_map)
}
