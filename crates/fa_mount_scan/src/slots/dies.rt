//! The slots of all dies, read.
ghost use Rattle.std.specs.Prelude.{◌≡◌, ℕ, ◌*◌, ◌<◌, length, slice_get, Some, None, Ok, Err, IfOk, OnErr, List};
ghost use Rattle.fa_image.specs.Image.{slot_bytes, slot_count};
ghost use Rattle.fa_mount_scan.specs.ContentReading.{EachOnlyRead, AreOutcomes, HasOutcome, HasImageOf, AreReadable, ReadsDie, image_read};

use crate::slots::content::{DieContents, SlotContent};
use crate::slots::die::{AHEAD, read_die};
use fa_image::{Image, ImageFault};
use fa_mount_headers::Standing;
use fa_types::{Die, Geometry, TAG_BYTES};
use std::alloc::{AllocError, Allocator};

/// What came of reading a die: what was found, or the fault of the read that was refused.
pub(crate) type DieRead<A> = Result<DieContents<A>, ImageFault>;

/// Reads the slots of each die that is in the mask or has the mark of a spare, die by die, each slot
/// once. Nothing is written.
pub(crate) fn read_dies<I: Image, A: Allocator + Copy>(
    alloc: A,
    images: &mut [I],
    geometry: Geometry,
    standings: &[Standing],
) -> Result<Vec<Option<DieRead<A>>, A>, AllocError>
    requires { AreReadable I.view geometry standings.now images.old }
    ensures length { IfOk result (λ outcomes. length outcomes.items ≡ length standings.now) }
    ensures outcomes { IfOk result (λ outcomes. AreOutcomes I.made geometry images.old images.new standings.now outcomes.items) }
    ensures only_read { EachOnlyRead I.view images.old images.new }
{
    let mut buffer = vec![in alloc; 0u8; AHEAD * (geometry.page_bytes as usize + TAG_BYTES)]?;
    let mut outcomes = Vec::with_capacity(alloc, standings.len())?;
    for die in 0..standings.len() {
        let outcome = read_standing(
            alloc,
            images,
            geometry,
            Die(die as u8),
            standings[die],
            buffer.as_mut_slice(),
        )?;
        outcomes.push(outcome)?;
    }
    Ok(outcomes)
}

/// Reads the slots of a die, if its image is to be read. Out of memory, none was read.
fn read_standing<I: Image, A: Allocator>(
    alloc: A,
    images: &mut [I],
    geometry: Geometry,
    die: Die,
    standing: Standing,
    buffer: &mut [u8],
) -> Result<Option<DieRead<A>>, AllocError>
    requires within { (index : ℕ) → image_read standing ≡ Some index → index < length images.old }
    requires image { (index : ℕ) → image_read standing ≡ Some index → HasImageOf I.view geometry images.old index }
    requires buffer { length buffer.old ≡ 8 * slot_bytes geometry }
    ensures outcome { IfOk result (λ outcome. HasOutcome I.made geometry images.old images.new die.0 (image_read standing) outcome) }
    ensures others { (index : ℕ) → ¬ (image_read standing ≡ Some index) → slice_get images.new index ≡ slice_get images.old index }
    ensures only_read { EachOnlyRead I.view images.old images.new }
{
    let Some(index) = index_read(standing) else {
        return Ok(None);
    };
    let outcome = read_image(alloc, &mut images[index], die, buffer)?;
    Ok(Some(outcome))
}

/// Which image is read for a die.
pub(crate) fn index_read(standing: Standing) -> Option<usize>
    ensures { result ≡ image_read standing }
{
    match standing {
        Standing::Missing | Standing::Out(_) => None,
        Standing::Live(index) | Standing::Spare(index) => Some(index),
    }
}

/// Reads the slots of a die. Out of memory, none was read.
fn read_image<I: Image, A: Allocator>(
    alloc: A,
    image: &mut I,
    die: Die,
    buffer: &mut [u8],
) -> Result<DieRead<A>, AllocError>
    requires { length buffer.old ≡ 8 * slot_bytes (I.view image.old).geometry }
    ensures read { IfOk result (λ outcome. ReadsDie I.made (I.view image.old).geometry die.0 outcome image.old image.new) }
    ensures err { OnErr result (image.new ≡ image.old) }
{
    let geometry = image.geometry();
    let count = (geometry.blocks * geometry.slots) as usize;
    let mut slots = vec![in alloc; SlotContent::Erased; count]?;
    match read_die(image, die, buffer, &mut slots) {
        Ok(()) => Ok(Ok(DieContents::new(slots))),
        Err(fault) => Ok(Err(fault)),
    }
}
