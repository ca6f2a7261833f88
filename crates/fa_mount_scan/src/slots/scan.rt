//! The array that images hold.
ghost use Rattle.std.specs.Prelude.{◌≡◌, ◌≤◌, ◌⊎◌, List, map, true, false, length, MatchResult, IfOk, IfErr};
ghost use Rattle.fa_map_calls.specs.Changes.{new_map};
ghost use Rattle.fa_mount_headers.specs.Rules as rules;
ghost use Rattle.fa_mount_scan.specs.Content.{AreContents, Contents, IsMountedContent};
ghost use Rattle.fa_mount_scan.specs.ContentReading.{AreOutcomes, AreReadable};
ghost use Rattle.fa_mount_headers.specs.Found.{AreOnlyRead};
ghost use Rattle.fa_mount_scan.specs.Scanned.{AreSettled, IsScan, IsScanRefused, Outcome, any_live as any_live_of};
ghost use Rattle.fa_mount_headers.specs.declared.judging.Standing.{Standing};

use crate::mounted::Mounted;
use crate::slots::dies::{DieRead, read_dies};
use crate::slots::map::mount_content;
use crate::slots::settle::{Settled, any_live, image_refusal, settle};
use crate::slots::side_by_side::read_dies_side_by_side;
use fa_image::Image;
use fa_map_calls::Map;
use fa_mount_headers::{Judged, MountFault, MountRefused};
use std::alloc::Allocator;
use std::thread::Threads;

/// Reads the slots of the judged array's dies, each slot once and die by die, and mounts what they hold
/// in the page map, which has no live die and no page. Nothing is written. An image that refuses a read is
/// the fault, unless the array may be mounted unclean: then its die is out.
pub(crate) fn scan_slots<I: Image, M: Map + Drop, A: Allocator + Copy>(
    alloc: A,
    images: &mut [I],
    judged: Judged<A>,
    page_map: M,
    unclean: bool,
) -> Result<Mounted<M, A>, MountRefused>
    requires map { M.view page_map ≡ new_map judged.geometry }
    requires images { AreReadable I.view judged.geometry judged.dies.items images.old }
    ensures scanned { MatchResult result
        (λ mounted. (outcomes : List Outcome) × AreOutcomes I.made judged.geometry images.old images.new judged.dies.items outcomes
        × IsScan judged.geometry judged.dies.items unclean outcomes mounted.dies.items (M.view mounted.map))
        (λ refusal. (refusal ≡ rules.refused MountFault.NoMemory)
        ⊎ ((outcomes : List Outcome) × AreOutcomes I.made judged.geometry images.old images.new judged.dies.items outcomes
        × IsScanRefused judged.dies.items unclean outcomes refusal)) }
    ensures dies { IfOk result (λ mounted. length mounted.dies.items ≡ (M.view mounted.map).geometry.dies) }
    ensures array { IfOk result (λ mounted.
        (mounted.array ≡ judged.array) × (mounted.epoch ≡ judged.epoch) × (mounted.clean ≡ judged.clean)) }
    ensures only_read { AreOnlyRead (map I.view images.old) (map I.view images.new) }
{
    match read_dies(alloc, images, judged.geometry, judged.dies.as_slice()) {
        Ok(outcomes) => mount_outcomes(alloc, judged, outcomes, page_map, unclean),
        Err(_) => Err(MountRefused::of_nobody(MountFault::NoMemory)),
    }
}

/// As [`scan_slots`], with the slots of each die read in a thread of its own where there is one to be had.
pub(crate) fn scan_slots_side_by_side<
    R: Threads + Sync,
    I: Image + Send,
    M: Map + Drop,
    A: Allocator + Copy + Send,
>(
    rt: &R,
    alloc: A,
    images: &mut [I],
    judged: Judged<A>,
    page_map: M,
    unclean: bool,
) -> Result<Mounted<M, A>, MountRefused>
    requires map { M.view page_map ≡ new_map judged.geometry }
    requires images { AreReadable I.view judged.geometry judged.dies.items images.old }
    ensures scanned { MatchResult result
        (λ mounted. (outcomes : List Outcome) × AreOutcomes I.made judged.geometry images.old images.new judged.dies.items outcomes
        × IsScan judged.geometry judged.dies.items unclean outcomes mounted.dies.items (M.view mounted.map))
        (λ refusal. (refusal ≡ rules.refused MountFault.NoMemory)
        ⊎ ((outcomes : List Outcome) × AreOutcomes I.made judged.geometry images.old images.new judged.dies.items outcomes
        × IsScanRefused judged.dies.items unclean outcomes refusal)) }
    ensures dies { IfOk result (λ mounted. length mounted.dies.items ≡ (M.view mounted.map).geometry.dies) }
    ensures array { IfOk result (λ mounted.
        (mounted.array ≡ judged.array) × (mounted.epoch ≡ judged.epoch) × (mounted.clean ≡ judged.clean)) }
    ensures only_read { AreOnlyRead (map I.view images.old) (map I.view images.new) }
{
    let standings = judged.dies.as_slice();
    match read_dies_side_by_side(rt, alloc, images, judged.geometry, standings) {
        Ok(outcomes) => mount_outcomes(alloc, judged, outcomes, page_map, unclean),
        Err(_) => Err(MountRefused::of_nobody(MountFault::NoMemory)),
    }
}

/// Mounts what came of reading each die.
pub(crate) fn mount_outcomes<M: Map + Drop, A: Allocator + Copy>(
    alloc: A,
    judged: Judged<A>,
    outcomes: Vec<Option<DieRead<A>>, A>,
    map: M,
    unclean: bool,
) -> Result<Mounted<M, A>, MountRefused>
    requires map { M.view map ≡ new_map judged.geometry }
    requires few { length judged.dies.items ≤ 64 }
    requires each { length outcomes.items ≡ length judged.dies.items }
    requires contents { (dies : List Standing) (contents : Contents) → AreSettled judged.dies.items outcomes.items dies contents
        → AreContents judged.geometry contents }
    ensures scanned { MatchResult result
        (λ mounted. IsScan judged.geometry judged.dies.items unclean outcomes.items mounted.dies.items (M.view mounted.map))
        (λ refusal. (refusal ≡ rules.refused MountFault.NoMemory) ⊎ IsScanRefused judged.dies.items unclean outcomes.items refusal) }
    ensures array { IfOk result (λ mounted.
        (mounted.array ≡ judged.array) × (mounted.epoch ≡ judged.epoch) × (mounted.clean ≡ judged.clean)) }
{
    if let Some(refusal) = image_refusal(unclean, judged.dies.as_slice(), outcomes.as_slice()) {
        return Err(refusal);
    }
    match settle(alloc, judged.dies.as_slice(), outcomes) {
        Ok(settled) => mount_settled(alloc, judged, settled, map),
        Err(_) => Err(MountRefused::of_nobody(MountFault::NoMemory)),
    }
}

/// Mounts the contents of the dies that are live, if any is.
fn mount_settled<M: Map + Drop, A: Allocator + Copy>(
    alloc: A,
    judged: Judged<A>,
    settled: Settled<A>,
    mut map: M,
) -> Result<Mounted<M, A>, MountRefused>
    requires map { M.view map ≡ new_map judged.geometry }
    requires contents { AreContents judged.geometry settled.contents.items }
    ensures live { IfOk result (λ mounted. any_live_of settled.contents.items ≡ true) }
    ensures dies { IfOk result (λ mounted. mounted.dies ≡ settled.dies) }
    ensures mounted { IfOk result (λ mounted. IsMountedContent judged.geometry settled.contents.items (M.view mounted.map)) }
    ensures array { IfOk result (λ mounted.
        (mounted.array ≡ judged.array) × (mounted.epoch ≡ judged.epoch) × (mounted.clean ≡ judged.clean)) }
    ensures refused { IfErr result (λ refusal. (refusal ≡ rules.refused MountFault.NoMemory)
        ⊎ ((any_live_of settled.contents.items ≡ false) × (refusal ≡ rules.refused MountFault.NoDieLive))) }
{
    if !any_live(settled.contents.as_slice()) {
        return Err(MountRefused::of_nobody(MountFault::NoDieLive));
    }
    match mount_content(alloc, &mut map, settled.contents.as_slice()) {
        Ok(()) => Ok(Mounted {
            map,
            array: judged.array,
            epoch: judged.epoch,
            clean: judged.clean,
            dies: settled.dies,
        }),
        Err(_) => Err(MountRefused::of_nobody(MountFault::NoMemory)),
    }
}
