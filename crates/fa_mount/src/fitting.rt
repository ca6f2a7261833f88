//! Whether each live die of an array has an image of its own in a list of images.
ghost use Rattle.std.specs.Prelude.{◌≡◌, ◌<◌, ◌↔◌, ℕ, true, IsTrue, Some};
ghost use Rattle.fa_core.specs.Array.{state_of};
ghost use Rattle.fa_machine.specs.State.{is_live};
ghost use Rattle.fa_mount.specs.Standings.{AreApart, HaveImages, SharePlace, place_on};

use crate::array::MountedArray;
use crate::standings::place_at;
use fa_core::Array;
use fa_map_calls::Map;
use fa_mount_headers::Standing;
use fa_types::Die;
use std::alloc::Allocator;

impl<M: Map + Drop, A: Allocator + Clone> MountedArray<M, A> {
    /// Whether each live die has an image of its own in a list of so many images, which [`crate::close_clean`] asks for.
    pub fn has_images(&self, images: usize) -> bool
        ensures { IsTrue result ↔ (AreApart self.now.dies.items
            × HaveImages self.now.dies.items (is_live (state_of M.view self.now.array).page_map) images) }
    {
        let dies = self.dies.as_slice();
        are_apart(dies) && have_images(&self.array, dies, images)
    }
}

/// Whether no image is that of two dies.
fn are_apart(dies: &[Standing]) -> bool
    ensures { IsTrue result ↔ AreApart dies.now }
{
    for die in 0..dies.len() {
        if has_twin(dies, die) {
            return false;
        }
    }
    true
}

/// Whether a die below this one has the same image.
fn has_twin(dies: &[Standing], die: usize) -> bool
    ensures { IsTrue result ↔ ((other : ℕ) × (other < die) × SharePlace dies.now die other) }
{
    for other in 0..die {
        if share_place(dies, die, other) {
            return true;
        }
    }
    false
}

/// Whether two dies have one image.
fn share_place(dies: &[Standing], die: usize, other: usize) -> bool
    ensures { IsTrue result ↔ SharePlace dies.now die other }
{
    match place_at(dies, die) {
        Some(index) => place_at(dies, other) == Some(index),
        None => false,
    }
}

/// Whether each live die has an image in a list of so many.
fn have_images<M: Map, A: Allocator + Clone>(
    array: &Array<M, A>,
    dies: &[Standing],
    images: usize,
) -> bool
    ensures { IsTrue result ↔ HaveImages dies.now (is_live (state_of M.view array.now).page_map) images }
{
    for die in 0..array.geometry().dies {
        if array.is_live(Die(die as u8)) && !has_image(dies, die as usize, images) {
            return false;
        }
    }
    true
}

/// Whether the die has an image in a list of so many.
fn has_image(dies: &[Standing], die: usize, images: usize) -> bool
    ensures { IsTrue result ↔ ((index : ℕ) × (place_on dies.now die ≡ Some index) × (index < images)) }
{
    match place_at(dies, die) {
        Some(index) => index < images,
        None => false,
    }
}
