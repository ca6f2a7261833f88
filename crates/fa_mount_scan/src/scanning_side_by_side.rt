//! An array's images, mounted in one call that reads their slots side by side.
ghost use Rattle.std.specs.Prelude.{◌≡◌, List, IfOk, MatchResult, length, map};
ghost use Rattle.fa_map.specs.PageView.{page_view};
ghost use Rattle.fa_mount_headers.specs.Found.{AreFound, AreOnlyRead, IsReadOf};
ghost use Rattle.fa_mount_scan.specs.Mounting.{Mounts, MountsBy, RefusesMount};

use crate::mounted::Mounted;
use crate::slots::scan::scan_slots_side_by_side;
use fa_image::Image;
use fa_map::PageMap;
use fa_mount_headers::{Found, MountFault, MountRefused, judge, read_headers};
use fa_types::Copies;
use std::alloc::Allocator;
use std::thread::Threads;

/// As [`crate::scan`], with the slots of each die read in a thread of its own where there is one to be
/// had: what is mounted, and what is refused, are the same.
pub fn scan_side_by_side<R: Threads + Sync, I: Image + Send, A: Allocator + Copy + Send>(
    rt: &R,
    alloc: A,
    images: &mut [I],
    copies: Copies,
    unclean: bool,
) -> Result<Mounted<PageMap<A>, A>, MountRefused>
    ensures mounts { MatchResult result
        (λ mounted. Mounts A I.view I.made copies.number unclean images.old images.new
        mounted.array mounted.epoch mounted.clean mounted.dies.items (page_view mounted.map))
        (RefusesMount A I.view I.made copies.number unclean images.old images.new) }
    ensures dies { IfOk result (λ mounted. length mounted.dies.items ≡ (page_view mounted.map).geometry.dies) }
    ensures only_read { AreOnlyRead (map I.view images.old) (map I.view images.new) }
{
    match read_headers(alloc, images) {
        Ok(founds) => scan_found_side_by_side(
            rt,
            alloc,
            images,
            founds.as_slice(),
            copies,
            unclean,
        ),
        Err(_) => Err(MountRefused::of_nobody(MountFault::NoMemory)),
    }
}

/// As [`scan_side_by_side`], of images whose headers were read: `founds` is what was found of them. No header
/// is read again.
pub fn scan_found_side_by_side<R: Threads + Sync, I: Image + Send, A: Allocator + Copy + Send>(
    rt: &R,
    alloc: A,
    images: &mut [I],
    founds: &[Found],
    copies: Copies,
    unclean: bool,
) -> Result<Mounted<PageMap<A>, A>, MountRefused>
    requires found { AreFound I.view I.made images.old founds.now }
    ensures mounts { (before : List I) → IsReadOf I.view I.made before images.old founds.now → MatchResult result
        (λ mounted. MountsBy A I.view I.made copies.number unclean before images.new founds.now
        mounted.array mounted.epoch mounted.clean mounted.dies.items (page_view mounted.map))
        (RefusesMount A I.view I.made copies.number unclean before images.new) }
    ensures dies { IfOk result (λ mounted. length mounted.dies.items ≡ (page_view mounted.map).geometry.dies) }
    ensures only_read { AreOnlyRead (map I.view images.old) (map I.view images.new) }
{
    let judged = judge(alloc, founds, copies, unclean)?;
    match PageMap::new(alloc, judged.geometry) {
        Ok(map) => scan_slots_side_by_side(rt, alloc, images, judged, map, unclean),
        Err(_) => Err(MountRefused::of_nobody(MountFault::NoMemory)),
    }
}
