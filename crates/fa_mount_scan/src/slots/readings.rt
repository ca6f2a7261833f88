//! The readings of an array's images, made before any image is read, and what comes of them die by die.
ghost use Rattle.std.specs.Prelude.{◌≡◌, ◌≤◌, ◌<◌, ℕ, Some, None, length, slice_get, option_map, All, IfOk, OnOk};
ghost use Rattle.fa_mount_scan.specs.ContentReading.{AreApart, image_read};
ghost use Rattle.fa_mount_scan.specs.Readings.{AddsReading, AreFrom, AreReadingsOf, IsRoomy, outcome_from, outcome_of};
ghost use Rattle.fa_mount_headers.specs.declared.judging.Standing.{Standing};

use crate::slots::content::{DieContents, SlotContent};
use crate::slots::die::AHEAD;
use crate::slots::dies::{DieRead, index_read};
use fa_image::ImageFault;
use fa_mount_headers::Standing;
use fa_types::{Die, Geometry, TAG_BYTES};
use std::alloc::{AllocError, Allocator};

/// An image that is to be read for a die, and what came of it.
#[derive(Drop)]
pub(crate) struct Reading<A: Allocator> {
    /// The die.
    pub(crate) die: Die,
    /// The bytes of eight slots.
    pub(crate) buffer: Vec<u8, A>,
    /// What was found in its slots, as far as they were read.
    pub(crate) contents: Vec<SlotContent, A>,
    /// The fault of the read that was refused.
    pub(crate) fault: Option<ImageFault>,
}

/// A reading for each image that is to be read for a die, by its place in the list of images.
pub(crate) fn readings_of<A: Allocator + Copy>(
    alloc: A,
    geometry: Geometry,
    standings: &[Standing],
    images: usize,
) -> Result<Vec<Option<Reading<A>>, A>, AllocError>
    requires few { length standings.now ≤ 64 }
    requires within { (die index : ℕ) (standing : Standing) → slice_get standings.now die ≡ Some standing
        → image_read standing ≡ Some index → index < images }
    requires apart { AreApart standings.now }
    ensures { IfOk result (λ readings. AreReadingsOf geometry standings.now (length standings.now) images readings.items) }
{
    let mut readings = none_ready(alloc, images)?;
    for die in 0..standings.len() {
        make_ready(
            alloc,
            geometry,
            Die(die as u8),
            standings[die],
            &mut readings,
        )?;
    }
    Ok(readings)
}

/// A list of places with no reading.
fn none_ready<A: Allocator>(
    alloc: A,
    images: usize,
) -> Result<Vec<Option<Reading<A>>, A>, AllocError>
    ensures as_many { IfOk result (λ readings. length readings.items ≡ images) }
    ensures none { IfOk result (λ readings. All (λ reading. reading ≡ None) readings.items) }
{
    let mut readings = Vec::with_capacity(alloc, images)?;
    for _ in 0..images {
        readings.push(None)?;
    }
    Ok(readings)
}

/// Makes a reading for a die, if its image is to be read.
fn make_ready<A: Allocator + Copy>(
    alloc: A,
    geometry: Geometry,
    die: Die,
    standing: Standing,
    readings: &mut Vec<Option<Reading<A>>, A>,
) -> Result<(), AllocError>
    requires within { (index : ℕ) → image_read standing ≡ Some index → index < length readings.old.items }
    ensures { OnOk result (AddsReading geometry die.0 (image_read standing) readings.old.items readings.new.items) }
{
    let Some(index) = index_read(standing) else {
        return Ok(());
    };
    readings[index] = Some(reading_of(alloc, geometry, die)?);
    Ok(())
}

/// A reading with room for the bytes of eight slots and for what is found in each slot.
fn reading_of<A: Allocator + Copy>(
    alloc: A,
    geometry: Geometry,
    die: Die,
) -> Result<Reading<A>, AllocError>
    ensures die { IfOk result (λ reading. reading.die ≡ die) }
    ensures room { IfOk result (λ reading. IsRoomy geometry reading) }
{
    let slots = (geometry.blocks * geometry.slots) as usize;
    Ok(Reading {
        die,
        buffer: vec![in alloc; 0u8; AHEAD * (geometry.page_bytes as usize + TAG_BYTES)]?,
        contents: vec![in alloc; SlotContent::Erased; slots]?,
        fault: None,
    })
}

/// What came of each die, moved out of the readings.
pub(crate) fn take_outcomes<A: Allocator>(
    standings: &[Standing],
    readings: &mut [Option<Reading<A>>],
    outcomes: &mut Vec<Option<DieRead<A>>, A>,
) -> Result<(), AllocError>
    requires within { (die index : ℕ) (standing : Standing) → slice_get standings.now die ≡ Some standing
        → image_read standing ≡ Some index → index < length readings.old }
    requires apart { AreApart standings.now }
    requires empty { length outcomes.old.items ≡ 0 }
    ensures as_many { OnOk result (length outcomes.new.items ≡ length standings.now) }
    ensures each { OnOk result (AreFrom readings.old standings.now outcomes.new.items) }
{
    for die in 0..standings.len() {
        let outcome = take_outcome(standings[die], readings);
        outcomes.push(outcome)?;
    }
    Ok(())
}

/// What came of a die, moved out of its reading.
fn take_outcome<A: Allocator>(
    standing: Standing,
    readings: &mut [Option<Reading<A>>],
) -> Option<DieRead<A>>
    requires within { (index : ℕ) → image_read standing ≡ Some index → index < length readings.old }
    ensures value { result ≡ outcome_from readings.old (image_read standing) }
    ensures others { (index : ℕ) → ¬ (image_read standing ≡ Some index) → slice_get readings.new index ≡ slice_get readings.old index }
{
    let Some(index) = index_read(standing) else {
        return None;
    };
    taken(&mut readings[index])
}

/// What came of a reading that stands ready, which is moved out of its place.
fn taken<A: Allocator>(place: &mut Option<Reading<A>>) -> Option<DieRead<A>>
    ensures value { result ≡ option_map outcome_of place.old }
{
    match place.take() {
        None => None,
        Some(reading) => Some(came_of(reading)),
    }
}

/// What came of a reading.
fn came_of<A: Allocator>(reading: Reading<A>) -> DieRead<A>
    ensures { result ≡ outcome_of reading }
{
    match reading.fault {
        None => Ok(DieContents::new(reading.contents)),
        Some(fault) => Err(fault),
    }
}
