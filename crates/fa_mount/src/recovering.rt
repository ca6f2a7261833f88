//! An array that was not closed, mounted from its images where its dies are all there.
ghost use Rattle.std.specs.Prelude.{◌≡◌, List, IfOk, MatchResult, length, map};
ghost use Rattle.fa_core.specs.Array.{IsWhole, number_of, state_of};
ghost use Rattle.fa_mount_headers.specs.Found.{AreFound, AreOnlyRead, IsReadOf};
ghost use Rattle.fa_map.specs.PageView.{page_view};
ghost use Rattle.fa_mount.specs.RecoversArray.{RecoversArray, RecoversArrayBy, RefusesRecovered};

use crate::array::MountedArray;
use crate::beginning::begin;
use fa_image::Image;
use fa_map::PageMap;
use fa_mount_headers::{Found, MountFault, MountRefused, read_headers};
use fa_mount_scan::{
    recover_found as scan_whole, recover_found_side_by_side as scan_whole_side_by_side,
};
use fa_types::Copies;
use std::alloc::Allocator;
use std::thread::Threads;

/// The array that images are, as [`crate::mount`] with `unclean` gives it, but refused where a die is not there that may have what no other
/// one has. Older epochs and missing marks of a clean close are no refusal, and images without a header that no die of the mask needs are
/// left aside. Where the images were synced before, nothing that was flushed is lost in what is recovered. Nothing is written.
///
/// The refusals are those of [`crate::mount`] with `unclean`, and beside them, in this order: 5 where no image has a header of a die of the
/// greatest epoch's mask, with that die; 7 where a read of the slots of a die of the mask is refused, with the die and its image; 5 where a
/// die of the mask has the mark of a spare and was used, with the die and its image; and 5 where as many dies are neither in the mask nor
/// unused spares as each page has copies, or more, with no die.
pub fn recover<I: Image, A: Allocator + Copy>(
    alloc: A,
    images: &mut [I],
    copies: Copies,
) -> Result<MountedArray<PageMap<A>, A>, MountRefused>
    ensures recovers { MatchResult result
        (λ mounted. RecoversArray A I.view I.made copies.number images.old images.new
        (number_of mounted.array) mounted.dies.items (state_of page_view mounted.array))
        (RefusesRecovered A I.view I.made copies.number images.old images.new) }
    ensures dies { IfOk result (λ mounted. length mounted.dies.items
        ≡ (state_of page_view mounted.array).page_map.geometry.dies) }
    ensures whole { IfOk result (λ mounted. IsWhole page_view mounted.array) }
    ensures only_read { AreOnlyRead (map I.view images.old) (map I.view images.new) }
{
    match read_headers(alloc, images) {
        Ok(founds) => recover_found(alloc, images, founds.as_slice(), copies),
        Err(_) => Err(MountRefused::of_nobody(MountFault::NoMemory)),
    }
}

/// As [`recover`], of images whose headers were read: `founds` is what was found of them. No header is read again.
pub fn recover_found<I: Image, A: Allocator + Copy>(
    alloc: A,
    images: &mut [I],
    founds: &[Found],
    copies: Copies,
) -> Result<MountedArray<PageMap<A>, A>, MountRefused>
    requires found { AreFound I.view I.made images.old founds.now }
    ensures recovers { (before : List I) → IsReadOf I.view I.made before images.old founds.now → MatchResult result
        (λ mounted. RecoversArrayBy A I.view I.made copies.number before images.new founds.now
        (number_of mounted.array) mounted.dies.items (state_of page_view mounted.array))
        (RefusesRecovered A I.view I.made copies.number before images.new) }
    ensures dies { IfOk result (λ mounted. length mounted.dies.items
        ≡ (state_of page_view mounted.array).page_map.geometry.dies) }
    ensures whole { IfOk result (λ mounted. IsWhole page_view mounted.array) }
    ensures only_read { AreOnlyRead (map I.view images.old) (map I.view images.new) }
{
    match scan_whole(alloc, images, founds, copies) {
        Ok(scanned) => begin(alloc, scanned, copies),
        Err(refused) => Err(refused),
    }
}

/// As [`recover_found`], with the slots of each die read in a thread of its own where there is one to be had.
pub fn recover_found_side_by_side<R: Threads + Sync, I: Image + Send, A: Allocator + Copy + Send>(
    rt: &R,
    alloc: A,
    images: &mut [I],
    founds: &[Found],
    copies: Copies,
) -> Result<MountedArray<PageMap<A>, A>, MountRefused>
    requires found { AreFound I.view I.made images.old founds.now }
    ensures recovers { (before : List I) → IsReadOf I.view I.made before images.old founds.now → MatchResult result
        (λ mounted. RecoversArrayBy A I.view I.made copies.number before images.new founds.now
        (number_of mounted.array) mounted.dies.items (state_of page_view mounted.array))
        (RefusesRecovered A I.view I.made copies.number before images.new) }
    ensures dies { IfOk result (λ mounted. length mounted.dies.items
        ≡ (state_of page_view mounted.array).page_map.geometry.dies) }
    ensures whole { IfOk result (λ mounted. IsWhole page_view mounted.array) }
    ensures only_read { AreOnlyRead (map I.view images.old) (map I.view images.new) }
{
    match scan_whole_side_by_side(rt, alloc, images, founds, copies) {
        Ok(scanned) => begin(alloc, scanned, copies),
        Err(refused) => Err(refused),
    }
}
