//! An array, mounted from its images in one call.
ghost use Rattle.std.specs.Prelude.{◌≡◌, List, IfOk, MatchResult, length, map};
ghost use Rattle.fa_core.specs.Array.{IsWhole, number_of, state_of};
ghost use Rattle.fa_mount_headers.specs.Found.{AreFound, AreOnlyRead, IsReadOf};
ghost use Rattle.fa_map.specs.PageView.{page_view};
ghost use Rattle.fa_mount.specs.MountsArray.{MountsArray, MountsArrayBy, RefusesArray};

use crate::array::MountedArray;
use crate::beginning::begin;
use fa_image::Image;
use fa_map::PageMap;
use fa_mount_headers::{Found, MountRefused};
use fa_mount_scan::{scan, scan_found, scan_found_side_by_side};
use fa_types::Copies;
use std::alloc::Allocator;
use std::thread::Threads;

/// The array that images are, whose pages are to have so many copies: what [`fa_mount_scan::scan`] mounts of them, with an epoch one above
/// the greatest of their headers. Nothing is written. The images may be in any order, and those that are left aside are named by
/// `unclean` as there.
///
/// The refusals are those of [`fa_mount_scan::scan`], in its order, and last of all 1 where the greatest epoch is above 2^62 - 256, also
/// with `unclean`; 8 at any point.
pub fn mount<I: Image, A: Allocator + Copy>(
    alloc: A,
    images: &mut [I],
    copies: Copies,
    unclean: bool,
) -> Result<MountedArray<PageMap<A>, A>, MountRefused>
    ensures mounts { MatchResult result
        (λ mounted. MountsArray A I.view I.made copies.number unclean images.old images.new
        (number_of mounted.array) mounted.dies.items (state_of page_view mounted.array))
        (RefusesArray A I.view I.made copies.number unclean images.old images.new) }
    ensures dies { IfOk result (λ mounted. length mounted.dies.items
        ≡ (state_of page_view mounted.array).page_map.geometry.dies) }
    ensures whole { IfOk result (λ mounted. IsWhole page_view mounted.array) }
    ensures only_read { AreOnlyRead (map I.view images.old) (map I.view images.new) }
{
    match scan(alloc, images, copies, unclean) {
        Ok(scanned) => begin(alloc, scanned, copies),
        Err(refused) => Err(refused),
    }
}

/// As [`mount`], of images whose headers were read: `founds` is what was found of them. No header is read again.
pub fn mount_found<I: Image, A: Allocator + Copy>(
    alloc: A,
    images: &mut [I],
    founds: &[Found],
    copies: Copies,
    unclean: bool,
) -> Result<MountedArray<PageMap<A>, A>, MountRefused>
    requires found { AreFound I.view I.made images.old founds.now }
    ensures mounts { (before : List I) → IsReadOf I.view I.made before images.old founds.now → MatchResult result
        (λ mounted. MountsArrayBy A I.view I.made copies.number unclean before images.new founds.now
        (number_of mounted.array) mounted.dies.items (state_of page_view mounted.array))
        (RefusesArray A I.view I.made copies.number unclean before images.new) }
    ensures dies { IfOk result (λ mounted. length mounted.dies.items
        ≡ (state_of page_view mounted.array).page_map.geometry.dies) }
    ensures whole { IfOk result (λ mounted. IsWhole page_view mounted.array) }
    ensures only_read { AreOnlyRead (map I.view images.old) (map I.view images.new) }
{
    match scan_found(alloc, images, founds, copies, unclean) {
        Ok(scanned) => begin(alloc, scanned, copies),
        Err(refused) => Err(refused),
    }
}

/// As [`mount_found`], with the slots of each die read in a thread of its own where there is one to be had.
pub fn mount_found_side_by_side<R: Threads + Sync, I: Image + Send, A: Allocator + Copy + Send>(
    rt: &R,
    alloc: A,
    images: &mut [I],
    founds: &[Found],
    copies: Copies,
    unclean: bool,
) -> Result<MountedArray<PageMap<A>, A>, MountRefused>
    requires found { AreFound I.view I.made images.old founds.now }
    ensures mounts { (before : List I) → IsReadOf I.view I.made before images.old founds.now → MatchResult result
        (λ mounted. MountsArrayBy A I.view I.made copies.number unclean before images.new founds.now
        (number_of mounted.array) mounted.dies.items (state_of page_view mounted.array))
        (RefusesArray A I.view I.made copies.number unclean before images.new) }
    ensures dies { IfOk result (λ mounted. length mounted.dies.items
        ≡ (state_of page_view mounted.array).page_map.geometry.dies) }
    ensures whole { IfOk result (λ mounted. IsWhole page_view mounted.array) }
    ensures only_read { AreOnlyRead (map I.view images.old) (map I.view images.new) }
{
    match scan_found_side_by_side(rt, alloc, images, founds, copies, unclean) {
        Ok(scanned) => begin(alloc, scanned, copies),
        Err(refused) => Err(refused),
    }
}
