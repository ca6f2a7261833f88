//! Where the images of dies stand in a list of images.
ghost use Rattle.std.specs.Prelude.{◌≡◌};
ghost use Rattle.fa_mount.specs.Standings.{place_on};

use fa_mount_headers::{Standing, place_of};

/// The place of the image of a die. None where it has no image, or is none of the array.
pub(crate) fn place_at(dies: &[Standing], die: usize) -> Option<usize>
    ensures { result ≡ place_on dies.now die }
{
    match dies.get(die) {
        Some(standing) => place_of(*standing),
        None => None,
    }
}
