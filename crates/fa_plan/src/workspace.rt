//! Memory that a planner keeps from one plan to the next.
ghost use Rattle.std.specs.Prelude.{◌≡◌, [], IfOk};

use crate::layout::Seat;
use crate::planner::Planned;
use fa_batch::{Listing, Places, Shortage};
use fa_types::Die;
use std::alloc::{AllocError, Allocator, Global};
use std::mem::replace;

/// Memory that a planner keeps from one plan to the next, so that a plan asks for none that an earlier one had. What is in it is in no
/// clause.
#[derive(Drop)]
pub struct Workspace<A: Allocator = Global> {
    dies: Vec<Die, A>,
    seats: Vec<Seat, A>,
    places: Places<A>,
    pages: Shortage<A>,
}

impl<A: Allocator + Copy> Workspace<A> {
    /// A workspace that has no memory yet.
    pub fn new(alloc: A) -> Workspace<A> {
        Workspace {
            dies: Vec::new(alloc),
            seats: Vec::new(alloc),
            places: Listing::new(alloc),
            pages: Listing::new(alloc),
        }
    }

    /// Keeps the memory of a plan that nobody wants any more.
    pub fn keep(&mut self, planned: Planned<A>) {
        self.places = planned.plan.places;
        self.pages = planned.shortage;
    }

    /// Keeps the memory of a plan in the making.
    pub(crate) fn keep_lists(&mut self, dies: Vec<Die, A>, seats: Vec<Seat, A>) {
        self.dies = dies;
        self.seats = seats;
    }

    /// A list of no dies, with this much room. The error is out of memory.
    pub(crate) fn take_dies(&mut self, alloc: A, room: usize) -> Result<Vec<Die, A>, AllocError>
        ensures { IfOk result (λ dies. dies.items ≡ []) }
    {
        emptied(&mut self.dies, alloc, room)
    }

    /// A list of no seats, with this much room. The error is out of memory.
    pub(crate) fn take_seats(&mut self, alloc: A, room: usize) -> Result<Vec<Seat, A>, AllocError>
        ensures { IfOk result (λ seats. seats.items ≡ []) }
    {
        emptied(&mut self.seats, alloc, room)
    }

    /// A list of no places.
    pub(crate) fn take_places(&mut self, alloc: A) -> Places<A>
        ensures { result ≡ [] }
    {
        cleared(&mut self.places, alloc)
    }

    /// A list of no pages.
    pub(crate) fn take_pages(&mut self, alloc: A) -> Shortage<A>
        ensures { result ≡ [] }
    {
        cleared(&mut self.pages, alloc)
    }
}

/// The list that is kept, with nothing in it and this much room; none is kept then. The error is out of memory.
fn emptied<T: Copy, A: Allocator + Copy>(
    kept: &mut Vec<T, A>,
    alloc: A,
    room: usize,
) -> Result<Vec<T, A>, AllocError>
    ensures { IfOk result (λ list. list.items ≡ []) }
{
    let mut list = replace(kept, Vec::new(alloc));
    list.clear();
    list.reserve(room)?;
    Ok(list)
}

/// The list that is kept, with nothing in it; none is kept then.
fn cleared<T: Copy, A: Allocator + Copy>(kept: &mut Listing<T, A>, alloc: A) -> Listing<T, A>
    ensures { result ≡ [] }
{
    let mut list = replace(kept, Listing::new(alloc));
    list.clear();
    list
}
