//! An array that was not closed, mounted where its dies are all there.
ghost use Rattle.std.specs.Prelude.{◌≡◌, List, IfOk, MatchResult, length, map};
ghost use Rattle.fa_map.specs.PageView.{page_view};
ghost use Rattle.fa_mount_headers.specs.Found.{AreFound, AreOnlyRead, IsReadOf};
ghost use Rattle.fa_mount_scan.specs.Recovering.{RecoversBy, RefusesRecovery};

use crate::mounted::Mounted;
use crate::slots::recover::{recover_slots, recover_slots_side_by_side};
use fa_image::Image;
use fa_map::PageMap;
use fa_mount_headers::{Found, MountFault, MountRefused, judge_whole};
use fa_types::Copies;
use std::alloc::Allocator;
use std::thread::Threads;

/// As [`crate::scan_found`] with `unclean`, but refused where a die is not there that may have what no other one has: fault 5 where no
/// image has a header of a die of the greatest epoch's mask, where such a die has the mark of a spare and was used, and where as many dies
/// are out, which are neither in that mask nor unused spares, as each page has copies, or more; fault 7 where a read of the slots of a die
/// of the mask is refused.
pub fn recover_found<I: Image, A: Allocator + Copy>(
    alloc: A,
    images: &mut [I],
    founds: &[Found],
    copies: Copies,
) -> Result<Mounted<PageMap<A>, A>, MountRefused>
    requires found { AreFound I.view I.made images.old founds.now }
    ensures recovers { (before : List I) → IsReadOf I.view I.made before images.old founds.now → MatchResult result
        (λ mounted. RecoversBy A I.view I.made copies.number before images.new founds.now
        mounted.array mounted.epoch mounted.clean mounted.dies.items (page_view mounted.map))
        (RefusesRecovery A I.view I.made copies.number before images.new) }
    ensures dies { IfOk result (λ mounted. length mounted.dies.items ≡ (page_view mounted.map).geometry.dies) }
    ensures only_read { AreOnlyRead (map I.view images.old) (map I.view images.new) }
{
    let judged = judge_whole(alloc, founds, copies)?;
    match PageMap::new(alloc, judged.geometry) {
        Ok(map) => recover_slots(alloc, images, judged, map, copies),
        Err(_) => Err(MountRefused::of_nobody(MountFault::NoMemory)),
    }
}

/// As [`recover_found`], with the slots of each die read in a thread of its own where there is one to be had.
pub fn recover_found_side_by_side<R: Threads + Sync, I: Image + Send, A: Allocator + Copy + Send>(
    rt: &R,
    alloc: A,
    images: &mut [I],
    founds: &[Found],
    copies: Copies,
) -> Result<Mounted<PageMap<A>, A>, MountRefused>
    requires found { AreFound I.view I.made images.old founds.now }
    ensures recovers { (before : List I) → IsReadOf I.view I.made before images.old founds.now → MatchResult result
        (λ mounted. RecoversBy A I.view I.made copies.number before images.new founds.now
        mounted.array mounted.epoch mounted.clean mounted.dies.items (page_view mounted.map))
        (RefusesRecovery A I.view I.made copies.number before images.new) }
    ensures dies { IfOk result (λ mounted. length mounted.dies.items ≡ (page_view mounted.map).geometry.dies) }
    ensures only_read { AreOnlyRead (map I.view images.old) (map I.view images.new) }
{
    let judged = judge_whole(alloc, founds, copies)?;
    match PageMap::new(alloc, judged.geometry) {
        Ok(map) => recover_slots_side_by_side(rt, alloc, images, judged, map, copies),
        Err(_) => Err(MountRefused::of_nobody(MountFault::NoMemory)),
    }
}
