//! Where the image of a die stands in a list of images.
ghost use Rattle.std.specs.Prelude.{◌≡◌};
ghost use Rattle.fa_mount_headers.specs.Places.{place_of as place_by};

use crate::judging::Standing;

/// The place of the image of a die that stands so, from 0 in the list of images. None where it has none.
pub fn place_of(standing: Standing) -> Option<usize>
    ensures { result ≡ place_by standing }
{
    match standing {
        Standing::Missing => None,
        Standing::Live(index) | Standing::Spare(index) | Standing::Out(index) => Some(index),
    }
}
