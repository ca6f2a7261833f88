//! Headers that are expected to be those of an array.
ghost use Rattle.fa_mount_headers.specs.Expected.{IsExpected};

use crate::fault::{MountFault, MountRefused};
use crate::found::Found;
use crate::rules::{all_read, of_array, of_geometry};
use crate::seen::all_seen;
use fa_types::Geometry;
use std::alloc::Allocator;

/// Whether these were found of images of this array with this geometry. The first fault that applies: 7 an
/// image's header was not read, 1 its bytes are those of no header, 2 it is another array's, 3 it has another
/// geometry, or its image has; or 8 at any point. Where an unclean array may be mounted, images without a header
/// are left aside.
pub fn expect<A: Allocator + Copy>(
    alloc: A,
    founds: &[Found],
    geometry: Geometry,
    array: [u8; 16],
    unclean: bool,
) -> Result<(), MountRefused>
    ensures { IsExpected geometry array unclean founds.now result }
{
    all_read(founds, unclean)?;
    let Ok(seen) = all_seen(alloc, founds) else {
        return Err(MountRefused::of_nobody(MountFault::NoMemory));
    };
    of_array(&seen, &array)?;
    of_geometry(&seen, geometry)
}
