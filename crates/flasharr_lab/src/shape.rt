//! Arrays without images, and the geometries of lines.
ghost use Rattle.std.specs.Prelude.{◌≡◌, ◌+◌, ◌-◌, ◌<◌, ◌≤◌, ◌^◌, IfOk};
ghost use Rattle.std.specs.FinMap.{empty, len};
ghost use Rattle.fa_core.specs.Array.{IsWhole};
ghost use Rattle.fa_set.specs.Members.{bound_of, members};
ghost use Rattle.flasharr_lab.specs.Apart.{AreApart};

use fa_core::Array;
use fa_map_calls::Map;
use fa_set::NumberSet;
use fa_types::{Copies, Die, Geometry, Seq};
use flasharr_lab_words::{die_of, number_at, small_at};
use std::alloc::{AllocError, Allocator};

/// The greatest epoch that an array may begin with. The least is 1.
const MAX_EPOCH: u64 = 1 << 61;

/// The greatest sequence number that an array may begin with.
const MAX_LAST: u64 = (1 << 62) - 1;

/// What an array begins with.
#[derive(Clone, Copy)]
pub(crate) struct Shape {
    pub geometry: Geometry,
    copies: Copies,
    epoch: u64,
    last: u64,
    ghost first: { 1 ≤ epoch },
    ghost within: { (epoch ≤ 2 ^ 61) × (last < 2 ^ 62) },
    ghost enough: { copies.number ≤ geometry.dies - geometry.spares },
}

/// The shape of these numbers. None where they are those of none that an array may have.
pub(crate) fn shape_of(numbers: &[u64]) -> Option<Shape> {
    let geometry = geometry_of(numbers)?;
    let Ok(copies) = Copies::new(small_at(numbers, 6), geometry) else {
        return None;
    };
    let epoch = number_at(numbers, 7);
    let last = number_at(numbers, 8);
    if epoch < 1 || epoch > MAX_EPOCH || last > MAX_LAST {
        return None;
    }
    Some(Shape {
        geometry,
        copies,
        epoch,
        last,
    })
}

/// The first six numbers as a geometry.
pub(crate) fn geometry_of(numbers: &[u64]) -> Option<Geometry> {
    let dies = small_at(numbers, 0);
    let spares = small_at(numbers, 1);
    let blocks = small_at(numbers, 2);
    let slots = small_at(numbers, 3);
    let bytes = small_at(numbers, 4);
    let pages = number_at(numbers, 5);
    Geometry::new(dies, spares, blocks, slots, bytes, pages).ok()
}

/// The array of a shape over a new page map: no page was written, all dies but the spares are live, and nothing is under way. The error is
/// out of memory.
pub(crate) fn array_over<M: Map + Drop, A: Allocator + Copy>(
    alloc: A,
    page_map: M,
    shape: Shape,
) -> Result<Array<M, A>, AllocError>
    requires geometry { (M.view page_map).geometry ≡ shape.geometry }
    requires unwritten { (M.view page_map).versions ≡ empty }
    requires out { len (M.view page_map).live ≡ 0 }
    ensures { IfOk result (λ array. IsWhole M.view array) }
{
    let mut page_map = page_map;
    bring_all_in(&mut page_map);
    let spares = spares_of(alloc, &page_map)?;
    let Shape {
        copies,
        epoch,
        last,
        ..
    } = shape;
    Array::new(alloc, page_map, copies, epoch, spares, Seq(last), [0; 16])
}

/// All dies but the spares, which are the last ones, are live.
fn bring_all_in<M: Map>(page_map: &mut M)
    requires { len (M.view page_map.old).live ≡ 0 }
    ensures geometry { (M.view page_map.new).geometry ≡ (M.view page_map.old).geometry }
    ensures versions { (M.view page_map.new).versions ≡ (M.view page_map.old).versions }
    ensures few { len (M.view page_map.new).live ≤ 2 ^ 32 }
{
    let geometry = page_map.geometry();
    for die in 0..geometry.dies.saturating_sub(geometry.spares) {
        bring_in(page_map, die_of(u64::from(die)));
    }
}

/// The die is live, if it is one of the map.
fn bring_in<M: Map>(page_map: &mut M, die: Die)
    ensures geometry { (M.view page_map.new).geometry ≡ (M.view page_map.old).geometry }
    ensures versions { (M.view page_map.new).versions ≡ (M.view page_map.old).versions }
    ensures few { len (M.view page_map.new).live ≤ len (M.view page_map.old).live + 1 }
{
    if u32::from(die.0) < page_map.geometry().dies && !page_map.is_live(die) {
        page_map.bring_in(die);
    }
}

/// The dies that are not live, as a set. The error is out of memory.
fn spares_of<M: Map, A: Allocator + Copy>(
    alloc: A,
    page_map: &M,
) -> Result<NumberSet<A>, AllocError>
    ensures bound { IfOk result (λ spares. bound_of spares ≡ (M.view page_map.now).geometry.dies) }
    ensures apart { IfOk result (λ spares. AreApart (M.view page_map.now) (members spares)) }
    ensures few { IfOk result (λ spares. len (members spares) ≤ 2 ^ 32) }
{
    let mut spares = NumberSet::new(alloc, page_map.geometry().dies as usize)?;
    for die in 0..page_map.geometry().dies {
        add_spare(&mut spares, page_map, Die(die as u8));
    }
    Ok(spares)
}

/// The die is a spare where it is not live.
fn add_spare<M: Map, A: Allocator>(spares: &mut NumberSet<A>, page_map: &M, die: Die)
    requires bound { die.0 < bound_of spares.old }
    requires apart { AreApart (M.view page_map.now) (members spares.old) }
    ensures bound { bound_of spares.new ≡ bound_of spares.old }
    ensures apart { AreApart (M.view page_map.now) (members spares.new) }
    ensures few { len (members spares.new) ≤ len (members spares.old) + 1 }
{
    if !page_map.is_live(die) {
        spares.insert(die.0 as usize);
    }
}
