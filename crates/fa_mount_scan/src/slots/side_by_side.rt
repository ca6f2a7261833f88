//! The slots of all dies, read side by side.
ghost use Rattle.std.specs.Prelude.{◌≡◌, Some, IfOk, length};
ghost use Rattle.std.specs.Thread.{IsSync, IsSend};
ghost use Rattle.fa_mount_scan.specs.ContentReading.{AreOutcomes, AreReadable, EachOnlyRead, ReadsDie};
ghost use Rattle.fa_mount_scan.specs.Readings.{AreImagesRead, AreReady, IsImageRead, IsReady, outcome_of};

use crate::slots::die::read_die;
use crate::slots::dies::DieRead;
use crate::slots::readings::{Reading, readings_of, take_outcomes};
use fa_image::Image;
use fa_mount_headers::Standing;
use fa_types::Geometry;
use std::alloc::{AllocError, Allocator};
use std::thread::{Threads, join_mut};

/// Reads the slots of each die that is in the mask or has the mark of a spare, each slot once, and each
/// die in a thread of its own where there is one to be had. Nothing is written. Out of memory, none was
/// read.
pub(crate) fn read_dies_side_by_side<
    R: Threads + Sync,
    I: Image + Send,
    A: Allocator + Copy + Send,
>(
    rt: &R,
    alloc: A,
    images: &mut [I],
    geometry: Geometry,
    standings: &[Standing],
) -> Result<Vec<Option<DieRead<A>>, A>, AllocError>
    requires readable { AreReadable I.view geometry standings.now images.old }
    ensures length { IfOk result (λ outcomes. length outcomes.items ≡ length standings.now) }
    ensures outcomes { IfOk result (λ outcomes. AreOutcomes I.made geometry images.old images.new standings.now outcomes.items) }
    ensures only_read { EachOnlyRead I.view images.old images.new }
{
    let mut readings = readings_of(alloc, geometry, standings, images.len())?;
    let mut outcomes = Vec::with_capacity(alloc, standings.len())?;
    let ready = readings.as_mut_slice();
    read_images(rt, geometry, images, ready);
    take_outcomes(standings, ready, &mut outcomes)?;
    Ok(outcomes)
}

/// Reads each image for which a reading stands ready, each in a thread of its own where there is one to be had.
#[cycle(reads)]
pub(crate) fn read_images<R: Threads + Sync, I: Image + Send, A: Allocator + Send>(
    rt: &R,
    geometry: Geometry,
    images: &mut [I],
    readings: &mut [Option<Reading<A>>],
)
    requires ready { AreReady I.view geometry images.old readings.old }
    ensures { AreImagesRead I.made geometry images.old readings.old images.new readings.new }
{
    if images.len() == 0 {
        return;
    }
    if images.len() == 1 {
        read_ready(geometry, &mut images[0], &mut readings[0]);
        return;
    }
    let middle = images.len() / 2;
    let (front, back) = images.split_at_mut(middle);
    let (first, last) = readings.split_at_mut(middle);
    read_side_by_side(rt, geometry, front, first, back, last);
}

/// Reads the images of both halves side by side.
#[cycle(reads)]
fn read_side_by_side<R: Threads + Sync, I: Image + Send, A: Allocator + Send>(
    rt: &R,
    geometry: Geometry,
    front: &mut [I],
    first: &mut [Option<Reading<A>>],
    back: &mut [I],
    last: &mut [Option<Reading<A>>],
)
    requires front { AreReady I.view geometry front.old first.old }
    requires back { AreReady I.view geometry back.old last.old }
    ensures front { AreImagesRead I.made geometry front.old first.old front.new first.new }
    ensures back { AreImagesRead I.made geometry back.old last.old back.new last.new }
{
    let mut one = ||
        requires { IsSync R.row × IsSend I.row × IsSend A.row × AreReady I.view geometry front.now first.now }
        ensures { AreImagesRead I.made geometry front.entry.now first.entry.now front.exit.now first.exit.now }
    { read_images(rt, geometry, front, first) };
    let mut other = ||
        requires { IsSync R.row × IsSend I.row × IsSend A.row × AreReady I.view geometry back.now last.now }
        ensures { AreImagesRead I.made geometry back.entry.now last.entry.now back.exit.now last.exit.now }
    { read_images(rt, geometry, back, last) };
    join_mut(rt, &mut one, &mut other);
}

/// Reads an image, if a reading stands ready for it.
fn read_ready<I: Image, A: Allocator>(
    geometry: Geometry,
    image: &mut I,
    reading: &mut Option<Reading<A>>,
)
    requires ready { IsReady I.view geometry image.old reading.old }
    ensures { IsImageRead I.made geometry image.old reading.old image.new reading.new }
{
    if let Some(reading) = reading {
        read_one(geometry, image, reading);
    }
}

/// Reads an image for its die.
fn read_one<I: Image, A: Allocator>(geometry: Geometry, image: &mut I, reading: &mut Reading<A>)
    requires ready { IsReady I.view geometry image.old (Some reading.old) }
    ensures { IsImageRead I.made geometry image.old (Some reading.old) image.new (Some reading.new) }
{
    let buffer = reading.buffer.as_mut_slice();
    match read_die(image, reading.die, buffer, &mut reading.contents) {
        Ok(()) => reading.fault = None,
        Err(fault) => reading.fault = Some(fault),
    }
}
