//! Lines that are about images, whether an array is there or not.
use crate::looks::show_map;
use crate::seen::show_mounted;
use fa_image::Image;
use fa_map_calls::Map;
use fa_mount::{MountedArray, mount, recover};
use fa_mount_headers::MountRefused;
use fa_shared::discard;
use fa_types::Copies;
use flasharr_lab_parts::{DieImage, Images, Tools, copies_of, show_unmounted, touch};
use flasharr_lab_words::{Deed, Order, Output, number_at};
use std::alloc::Allocator;

/// Does what a line asks of images, and tells it.
pub(crate) fn touch_images<I: DieImage>(
    order: &Order,
    deed: Deed,
    tools: &mut Tools<'_>,
    images: &mut Images<'_, I>,
) {
    match deed {
        Deed::Try { unclean } => {
            let copies = number_at(order.numbers.as_slice(), 0);
            try_mount(images.as_mut_slice(), tools, copies, unclean);
        }
        Deed::Recover => {
            let copies = number_at(order.numbers.as_slice(), 0);
            try_recover(images.as_mut_slice(), tools, copies);
        }
        _ => touch(order, deed, tools.alloc, images, &mut tools.output),
    }
}

/// Mounts the images with this number of copies beside an array, tells what was mounted, and drops it.
fn try_mount<I: Image>(images: &mut [I], tools: &mut Tools<'_>, number: u64, unclean: bool) {
    if let Some(copies) = copies_of(number, images, &mut tools.output) {
        try_copies(images, tools, copies, unclean);
    }
}

/// The same where an array on the images can have this number of copies.
fn try_copies<I: Image>(images: &mut [I], tools: &mut Tools<'_>, copies: Copies, unclean: bool) {
    let start = tools.meter.start();
    let made = mount(tools.heap(), images, copies, unclean);
    tools.meter.stop(start);
    show_tried(made, &mut tools.output);
}

/// Recovers the images with this number of copies beside an array, tells what was recovered, and drops it.
fn try_recover<I: Image>(images: &mut [I], tools: &mut Tools<'_>, number: u64) {
    if let Some(copies) = copies_of(number, images, &mut tools.output) {
        let start = tools.meter.start();
        let made = recover(tools.heap(), images, copies);
        tools.meter.stop(start);
        show_tried(made, &mut tools.output);
    }
}

/// Tells what was mounted, or why nothing was, and drops it.
fn show_tried<M: Map + Drop, A: Allocator + Copy>(
    made: Result<MountedArray<M, A>, MountRefused>,
    output: &mut Output,
) {
    match made {
        Ok(mounted) => show_beside(mounted, output),
        Err(refused) => show_unmounted(&refused, output),
    }
}

/// Tells what was mounted, and drops it.
fn show_beside<M: Map + Drop, A: Allocator + Copy>(
    mounted: MountedArray<M, A>,
    output: &mut Output,
) {
    show_mounted(&mounted.array, output);
    show_map(&mounted.array, output);
    let MountedArray { array, .. } = mounted;
    discard(array);
}
