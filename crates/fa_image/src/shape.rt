//! Where things lie in an image.
ghost use Rattle.std.specs.Prelude.{◌≡◌, ◌+◌, ◌*◌, ◌<◌, ◌≤◌, ◌^◌};
ghost use Rattle.fa_image.specs.File.{file_bytes as bytes_of_file, slot_offset as offset_of_slot};
ghost use Rattle.fa_image.specs.Image.{slot_bytes as bytes_of_slot, slot_count as slots_of_die};

use fa_types::{Geometry, TAG_BYTES};

/// How many bytes of a file stand before the first slot.
const HEADER_AREA: u64 = 4096;

/// The bytes of a slot.
pub(crate) fn slot_bytes(geometry: Geometry) -> usize
    ensures value { result ≡ bytes_of_slot geometry }
    ensures least { 64 < result }
    ensures most { result ≤ 4160 }
{
    geometry.page_bytes as usize + TAG_BYTES
}

/// The slots of a die.
pub(crate) fn slot_count(geometry: Geometry) -> usize
    ensures value { result ≡ slots_of_die geometry }
    ensures most { result ≤ 1048576 }
{
    geometry.blocks as usize * geometry.slots as usize
}

/// Where a slot begins in a file, in bytes.
pub(crate) fn slot_offset(geometry: Geometry, slot: u32) -> u64
    requires { slot ≤ slots_of_die geometry }
    ensures { result ≡ offset_of_slot geometry slot }
{
    HEADER_AREA + u64::from(slot) * slot_bytes(geometry) as u64
}

/// The bytes of a file.
pub(crate) fn file_bytes(geometry: Geometry) -> u64
    ensures value { result ≡ bytes_of_file geometry }
    ensures most { result < 2 ^ 63 }
{
    slot_offset(geometry, slot_count(geometry) as u32)
}
