//! The pages of a batch, and those of them that a walk reached.
ghost use Rattle.std.specs.Prelude.{◌≡◌, ◌<◌, [], length, IfOk};
ghost use Rattle.fa_plan_search.specs.Pages.{AreReached, pages_of};

use crate::walk::Walk;
use fa_batch::{Batch, Listing, Shortage};
use fa_types::Die;
use std::alloc::{AllocError, Allocator};

/// All pages of a batch, in a list that had none. The error is out of memory.
pub fn all_pages<A: Allocator>(
    empty: Shortage<A>,
    batch: &Batch<A>,
) -> Result<Shortage<A>, AllocError>
    requires { empty ≡ [] }
    ensures { IfOk result (λ pages. pages ≡ pages_of batch.now) }
{
    let mut pages = empty;
    for index in 0..batch.len() {
        pages.push(batch.page(index))?;
    }
    Ok(pages)
}

/// The pages that a walk reached: those of the dies that it reached, and the first that has no die.
pub fn reached_pages<A: Allocator + Copy>(
    alloc: A,
    batch: &Batch<A>,
    given: &[Die],
    walk: &Walk,
) -> Result<Shortage<A>, AllocError>
    requires { length given.now < length batch.now }
    ensures { IfOk result (λ pages. AreReached batch.now given.now walk.now pages) }
{
    let mut pages = Listing::new(alloc);
    for index in 0..given.len() {
        if walk.seen[given[index].0 as usize] {
            pages.push(batch.page(index))?;
        }
    }
    pages.push(batch.page(given.len()))?;
    Ok(pages)
}
