//! Images that are scanned: their page map is made, and no array.
use fa_image::Image;
use fa_map_calls::Map;
use fa_mount_headers::MountRefused;
use fa_mount_scan::{Mounted, scan, scan_side_by_side};
use fa_types::Copies;
use flasharr_lab_parts::{Tools, copies_of, show_unmounted};
use flasharr_lab_words::{Output, number_at};
use std::alloc::Allocator;
use std::thread::Threads;

/// Scans the images with a thread for each, and tells how many pages were written.
pub(crate) fn scan_together<T: Threads + Sync, I: Image + Send>(
    threads: &T,
    numbers: &[u64],
    images: &mut [I],
    tools: &mut Tools<'_>,
) {
    if let Some(copies) = copies_of(number_at(numbers, 0), images, &mut tools.output) {
        let start = tools.meter.start();
        let found = scan_side_by_side(threads, tools.alloc, images, copies, false);
        tools.meter.stop(start);
        show_scanned(found, copies, &mut tools.output);
    }
}

/// Scans the images in one thread, and tells how many pages were written.
pub(crate) fn scan_alone<I: Image>(
    numbers: &[u64],
    images: &mut [I],
    tools: &mut Tools<'_>,
    unclean: bool,
) {
    if let Some(copies) = copies_of(number_at(numbers, 0), images, &mut tools.output) {
        scan_apart(images, tools, copies, unclean);
    }
}

/// Scans images in one thread, compiled apart from what asks for it.
#[inline(never)]
fn scan_apart<I: Image>(images: &mut [I], tools: &mut Tools<'_>, copies: Copies, unclean: bool) {
    let start = tools.meter.start();
    let found = scan(tools.alloc, images, copies, unclean);
    tools.meter.stop(start);
    show_scanned(found, copies, &mut tools.output);
}

/// Tells how many pages were written, or why the images were not scanned.
fn show_scanned<M: Map + Drop, A: Allocator>(
    found: Result<Mounted<M, A>, MountRefused>,
    copies: Copies,
    output: &mut Output,
) {
    match &found {
        Ok(mounted) => output.pair("scanned", mounted.report(copies).written),
        Err(refused) => show_unmounted(refused, output),
    }
}
