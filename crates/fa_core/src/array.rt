//! The array.
ghost use Rattle.std.specs.Prelude.{◌≡◌, ℕ, ◌+◌, ◌-◌, ◌*◌, ◌<◌, ◌≤◌, ◌^◌, true, false, IfOk, Some};
ghost use Rattle.std.specs.FinMap.{contains_key, get, len};
ghost use Rattle.fa_core_state.specs.Begun.{begun};
ghost use Rattle.fa_machine.specs.Reading.{zeros as rule_zeros};
ghost use Rattle.fa_machine.specs.State.{is_live};
ghost use Rattle.fa_machine.specs.declared.places.Version.{Version};
ghost use Rattle.fa_set.specs.Members.{bound_of, members};

use fa_core_read::Planner;
use fa_core_state::State;
use fa_core_upkeep::begin;
use fa_map_calls::Map;
use fa_set::NumberSet;
use fa_tag::Payload;
use fa_types::{Copies, Seq};
use std::alloc::{AllocError, Allocator, Global};

/// The array: which dies are live and what each page's copies are, what is booked, reserved and under way. Each event of it is one
/// call, over any page map.
#[derive(Drop)]
pub struct Array<M, A: Allocator = Global> {
    pub(crate) state: State<M, A>,
    // What batches are planned with.
    pub(crate) planner: Planner<A>,
    // A page of zeros, which the copies of holes share.
    pub(crate) zeros: Payload<A>,
    // The number of the array.
    pub(crate) array: [u8; 16],
}

impl<M: Map + Drop, A: Allocator + Copy> Array<M, A> {
    ghost use Rattle.fa_core.specs.Array.{IsWhole, number_of, state_of};

    /// The array over what images hold, with nothing under way: round 1, the header of each live die behind, an empty history. The
    /// page map, the epoch, the spares, the greatest number of a page and the array's own number are what mounting found: no spare is
    /// live, and there are as many dies in use as a page is to have copies. The error is out of memory.
    pub fn new(
        alloc: A,
        page_map: M,
        copies: Copies,
        epoch: u64,
        spares: NumberSet<A>,
        last: Seq,
        array: [u8; 16],
    ) -> Result<Array<M, A>, AllocError>
        requires spares { bound_of spares ≡ (M.view page_map).geometry.dies }
        requires last { last.0 < 2 ^ 62 }
        requires first { 1 ≤ epoch }
        requires epoch { epoch + len (M.view page_map).live + 2 * len (members spares) < 2 ^ 62 }
        requires numbers { (page : ℕ) (version : Version) → get (M.view page_map).versions page ≡ Some version
            → (1 ≤ version.seq.0) × (version.seq.0 ≤ last.0) }
        requires apart { (die : ℕ) → contains_key (members spares) die ≡ true → is_live (M.view page_map) die ≡ false }
        requires enough { copies.number ≤ (M.view page_map).geometry.dies - (M.view page_map).geometry.spares }
        ensures begun { IfOk result (λ array. state_of M.view array
            ≡ begun copies.number (M.view page_map) epoch (members spares) last.0) }
        ensures number { IfOk result (λ made. number_of made ≡ array) }
        ensures whole { IfOk result (λ array. IsWhole M.view array) }
    {
        let zeros = zero_page(alloc, &page_map)?;
        let state = begin(alloc, page_map, copies, epoch, spares, last)?;
        Ok(Array {
            state,
            planner: Planner::new(alloc),
            zeros,
            array,
        })
    }
}

/// A page of zeros. The error is out of memory.
fn zero_page<M: Map, A: Allocator + Copy>(alloc: A, page_map: &M) -> Result<Payload<A>, AllocError>
    ensures { IfOk result (λ page. page ≡ rule_zeros (M.view page_map.now)) }
{
    let page = vec![in alloc; 0u8; page_map.geometry().page_bytes as usize]?;
    Payload::new(page)
}
