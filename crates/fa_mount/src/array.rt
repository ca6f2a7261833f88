//! An array with the places of its images.
ghost use Rattle.std.specs.Prelude.{◌≡◌};
ghost use Rattle.fa_mount.specs.Standings.{place_on};

use crate::standings::place_at;
use fa_core::Array;
use fa_map_calls::Map;
use fa_mount_headers::Standing;
use fa_types::Die;
use std::alloc::{Allocator, Global};

/// An array over the images from which it was mounted.
#[derive(Drop)]
pub struct MountedArray<M: Map + Drop, A: Allocator = Global> {
    /// The array.
    pub array: Array<M, A>,
    /// How each die stood when it was mounted, by its number, with its place in the list of images.
    pub dies: Vec<Standing, A>,
}

impl<M: Map + Drop, A: Allocator> MountedArray<M, A> {
    /// The place of a die's image in the list of images, from 0. None where the die has no image, or is none of the array.
    pub fn image_of(&self, die: Die) -> Option<usize>
        ensures { result ≡ place_on self.now.dies.items die.0 }
    {
        place_at(self.dies.as_slice(), usize::from(die.0))
    }
}
