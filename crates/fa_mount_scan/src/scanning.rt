//! An array's images, mounted in one call.
ghost use Rattle.std.specs.Prelude.{◌≡◌, List, IfOk, MatchResult, length, map};
ghost use Rattle.fa_map.specs.PageView.{page_view};
ghost use Rattle.fa_mount_headers.specs.Found.{AreFound, AreOnlyRead, IsReadOf};
ghost use Rattle.fa_mount_scan.specs.Mounting.{Mounts, MountsBy, RefusesMount};

use crate::mounted::Mounted;
use crate::slots::scan::scan_slots;
use fa_image::Image;
use fa_map::PageMap;
use fa_mount_headers::{Found, MountFault, MountRefused, judge, read_headers};
use fa_types::Copies;
use std::alloc::Allocator;

/// Reads the headers of images and the slots of the dies in use and of the spares, and mounts what they
/// hold, for an array whose pages are to have so many copies. The images may be in any order. With
/// `unclean` an image whose header is not read or is none is left aside, a die that refuses a read is out,
/// and the dies need not have been closed. Nothing is written.
///
/// The refusal is the first that applies: 7 and 1 for the headers, 2 for the numbers of arrays, 3, 4, 2 for
/// the masks, 5 and 6, and then 7 and 6 for the slots; 8 at any point.
pub fn scan<I: Image, A: Allocator + Copy>(
    alloc: A,
    images: &mut [I],
    copies: Copies,
    unclean: bool,
) -> Result<Mounted<PageMap<A>, A>, MountRefused>
    ensures mounts { MatchResult result
        (λ mounted. Mounts A I.view I.made copies.number unclean images.old images.new
        mounted.array mounted.epoch mounted.clean mounted.dies.items (page_view mounted.map))
        (RefusesMount A I.view I.made copies.number unclean images.old images.new) }
    ensures dies { IfOk result (λ mounted. length mounted.dies.items ≡ (page_view mounted.map).geometry.dies) }
    ensures only_read { AreOnlyRead (map I.view images.old) (map I.view images.new) }
{
    match read_headers(alloc, images) {
        Ok(founds) => scan_found(alloc, images, founds.as_slice(), copies, unclean),
        Err(_) => Err(MountRefused::of_nobody(MountFault::NoMemory)),
    }
}

/// As [`scan`], of images whose headers were read: `founds` is what was found of them. No header is read again.
pub fn scan_found<I: Image, A: Allocator + Copy>(
    alloc: A,
    images: &mut [I],
    founds: &[Found],
    copies: Copies,
    unclean: bool,
) -> Result<Mounted<PageMap<A>, A>, MountRefused>
    requires found { AreFound I.view I.made images.old founds.now }
    ensures mounts { (before : List I) → IsReadOf I.view I.made before images.old founds.now → MatchResult result
        (λ mounted. MountsBy A I.view I.made copies.number unclean before images.new founds.now
        mounted.array mounted.epoch mounted.clean mounted.dies.items (page_view mounted.map))
        (RefusesMount A I.view I.made copies.number unclean before images.new) }
    ensures dies { IfOk result (λ mounted. length mounted.dies.items ≡ (page_view mounted.map).geometry.dies) }
    ensures only_read { AreOnlyRead (map I.view images.old) (map I.view images.new) }
{
    let judged = judge(alloc, founds, copies, unclean)?;
    match PageMap::new(alloc, judged.geometry) {
        Ok(map) => scan_slots(alloc, images, judged, map, unclean),
        Err(_) => Err(MountRefused::of_nobody(MountFault::NoMemory)),
    }
}
