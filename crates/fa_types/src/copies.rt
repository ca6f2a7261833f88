//! How many copies each page has.
ghost use Rattle.std.specs.Prelude.{◌≡◌, ◌≤◌, ◌↔◌, IfOk, IfErr, IsTrue};
ghost use Rattle.fa_types.specs.Geometry.{AreCopies, ArePages};

use crate::{Geometry, GeometryFault};

/// How many copies of each page an array is to keep, each on a die of its own. Only [`Copies::new`]
/// judges a number from outside; a value is always 2 or 3.
#[derive(Clone, Copy)]
pub struct Copies {
    /// Copies of a page: 2 or 3.
    pub number: u32,
    ghost two_or_three: { (2 ≤ number) × (number ≤ 3) },
}

impl Copies {
    /// So many copies on an array of this geometry. Refused with fault 6 where they are not 2 or 3,
    /// are more than the dies in use, `dies - spares`, or where
    /// `number * pages > (dies - spares) * (blocks - 2) * slots`. Takes no memory.
    pub fn new(number: u32, geometry: Geometry) -> Result<Copies, GeometryFault>
        ensures number { IfOk result (λ copies. copies.number ≡ number) }
        ensures fit { IfOk result (λ _. AreCopies number geometry.dies geometry.spares geometry.blocks geometry.slots geometry.pages) }
        ensures fault { IfErr result (λ fault. (fault ≡ GeometryFault.Copies)
            × (¬ (AreCopies number geometry.dies geometry.spares geometry.blocks geometry.slots geometry.pages))) }
    {
        if are_copies(number, geometry) {
            Ok(Copies { number })
        } else {
            Err(GeometryFault::Copies)
        }
    }
}

/// Whether an array of this geometry can hold so many copies of each page.
fn are_copies(number: u32, geometry: Geometry) -> bool
    ensures { IsTrue result ↔ (AreCopies number geometry.dies geometry.spares geometry.blocks geometry.slots geometry.pages) }
{
    let in_use = geometry.dies - geometry.spares;
    let room = u64::from(in_use) * u64::from(geometry.blocks - 2) * u64::from(geometry.slots);
    2 <= number && number <= 3 && number <= in_use && u64::from(number) * geometry.pages <= room
}
