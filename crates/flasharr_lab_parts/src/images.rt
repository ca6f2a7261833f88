//! The images of an array's dies.
ghost use Rattle.std.specs.Prelude.{◌≡◌, IfOk, length};
ghost use Rattle.std.specs.List.{AllByRecursion};

use crate::die_image::DieImage;
use crate::heap::Heap;
use fa_image::Image;
use fa_mount_headers::{format, format_1};
use fa_types::Geometry;
use std::alloc::{AllocError, Global};

/// The number of each array.
pub const ARRAY: [u8; 16] = [7; 16];

/// The images of an array's dies.
pub type Images<'a, I> = Vec<I, &'a Heap>;

/// The images of an array's dies with what they are made with, and the image that stands beside them.
#[derive(Drop)]
pub struct Yard<'a, I: DieImage> {
    /// The folder of images in files.
    pub folder: &'a str,
    /// The geometry of the images that were made last.
    pub geometry: Option<Geometry>,
    /// The images of the array's dies.
    pub images: Images<'a, I>,
    /// The image beside those of the array.
    pub bare: Option<I>,
}

/// The formatted images of an array, by their dies, with headers of format 1 where they are old. None where they are not had.
pub fn new_images<'a, I: DieImage>(
    rt: &HostRuntime,
    heap: &'a Heap,
    folder: &str,
    geometry: Geometry,
    is_old: bool,
) -> Option<Images<'a, I>> {
    let mut images = erased_images::<I>(rt, heap, folder, geometry).ok()?;
    if format_all(&mut images, geometry, is_old) {
        Some(images)
    } else {
        None
    }
}

/// Formats images, with headers of format 1 where they are old. Whether that was possible.
fn format_all<I: Image>(images: &mut [I], geometry: Geometry, is_old: bool) -> bool
    requires long { length images.old ≡ geometry.dies }
    requires shape { AllByRecursion (λ image. (I.view image).geometry ≡ geometry) images.old }
{
    let formatted = if is_old {
        format_1(images, geometry, ARRAY)
    } else {
        format(images, geometry, ARRAY)
    };
    formatted.is_ok()
}

/// An erased image for each die. The error is that they are not had.
fn erased_images<'a, I: DieImage>(
    rt: &HostRuntime,
    heap: &'a Heap,
    folder: &str,
    geometry: Geometry,
) -> Result<Images<'a, I>, AllocError>
    ensures long { IfOk result (λ images. length images.items ≡ geometry.dies) }
    ensures shape { IfOk result (λ images. AllByRecursion (λ image. (I.view image).geometry ≡ geometry) images.items) }
{
    let mut images = Vec::new(heap);
    for die in 0..geometry.dies {
        images.push(erased_image::<I>(rt, folder, die, geometry)?)?;
    }
    Ok(images)
}

/// An erased image. The error is that it is not had.
fn erased_image<I: DieImage>(
    rt: &HostRuntime,
    folder: &str,
    die: u32,
    geometry: Geometry,
) -> Result<I, AllocError>
    ensures { IfOk result (λ image. (I.view image).geometry ≡ geometry) }
{
    let name = name_of_die(rt.alloc(), die)?;
    match I::make(rt, folder, name.as_str(), geometry) {
        Some(image) if image.geometry() == geometry => Ok(image),
        _ => Err(AllocError),
    }
}

/// The name of the file of a die's image. The error is out of memory.
fn name_of_die(alloc: Global, die: u32) -> Result<String, AllocError> {
    format!(in alloc; "die-{die}")
}

/// Rigs the image at a place. False where there is none.
pub(crate) fn rig<I: DieImage>(
    images: &mut Images<'_, I>,
    place: usize,
    call: u64,
    read: u64,
) -> bool {
    if images.len() <= place {
        return false;
    }
    let image = images.remove(place).rigged(call, read);
    // A list that has just lost an image has room for it.
    images.insert(place, image).is_ok()
}

/// Two images change their places. False where one of them is not there.
pub fn swap<I: Image>(images: &mut [I], one: usize, other: usize) -> bool {
    if one < images.len() && other < images.len() {
        images.swap(one, other);
        return true;
    }
    false
}

/// Drops the image at a place. False where there is none.
pub fn drop_image<I: Image>(images: &mut Images<'_, I>, place: usize) -> bool {
    if images.len() <= place {
        return false;
    }
    let _ = images.remove(place);
    true
}

/// How many programs met a slot that was not erased, on all images.
pub(crate) fn overwrites<I: DieImage>(images: &[I]) -> u64 {
    let mut count = 0u64;
    for image in images {
        count = count.saturating_add(image.marks().overwrites);
    }
    count
}
