//! The array that images hold, where its dies have to be all there.
ghost use Rattle.std.specs.Prelude.{◌≡◌, ◌≤◌, ◌⊎◌, List, None, map, true, length, MatchResult, IfOk};
ghost use Rattle.fa_map_calls.specs.Changes.{new_map};
ghost use Rattle.fa_mount_headers.specs.Rules as rules;
ghost use Rattle.fa_mount_scan.specs.Content.{AreContents, Contents};
ghost use Rattle.fa_mount_scan.specs.ContentReading.{AreOutcomes, AreReadable};
ghost use Rattle.fa_mount_headers.specs.Found.{AreOnlyRead};
ghost use Rattle.fa_mount_scan.specs.Recovering.{AreSlotsRefused, slots_refusal as refusal_of_slots};
ghost use Rattle.fa_mount_scan.specs.Scanned.{AreSettled, IsScan, Outcome};
ghost use Rattle.fa_mount_headers.specs.declared.judging.Standing.{Standing};

use crate::mounted::Mounted;
use crate::slots::dies::{DieRead, read_dies};
use crate::slots::missing::slots_refusal;
use crate::slots::scan::mount_outcomes;
use crate::slots::side_by_side::read_dies_side_by_side;
use fa_image::Image;
use fa_map_calls::Map;
use fa_mount_headers::{Judged, MountFault, MountRefused};
use fa_types::Copies;
use std::alloc::Allocator;
use std::thread::Threads;

/// As [`crate::slots::scan::scan_slots`] where the array may be unclean, but refused where a die of the mask refused a read or is a used
/// spare, and where as many dies are out as each page has copies, or more.
pub(crate) fn recover_slots<I: Image, M: Map + Drop, A: Allocator + Copy>(
    alloc: A,
    images: &mut [I],
    judged: Judged<A>,
    page_map: M,
    copies: Copies,
) -> Result<Mounted<M, A>, MountRefused>
    requires map { M.view page_map ≡ new_map judged.geometry }
    requires images { AreReadable I.view judged.geometry judged.dies.items images.old }
    ensures scanned { MatchResult result
        (λ mounted. (outcomes : List Outcome) × AreOutcomes I.made judged.geometry images.old images.new judged.dies.items outcomes
        × IsScan judged.geometry judged.dies.items true outcomes mounted.dies.items (M.view mounted.map)
        × (refusal_of_slots copies.number judged.mask judged.dies.items outcomes ≡ None))
        (λ refusal. (refusal ≡ rules.refused MountFault.NoMemory)
        ⊎ ((outcomes : List Outcome) × AreOutcomes I.made judged.geometry images.old images.new judged.dies.items outcomes
        × AreSlotsRefused copies.number judged.mask judged.dies.items outcomes refusal)) }
    ensures dies { IfOk result (λ mounted. length mounted.dies.items ≡ (M.view mounted.map).geometry.dies) }
    ensures array { IfOk result (λ mounted.
        (mounted.array ≡ judged.array) × (mounted.epoch ≡ judged.epoch) × (mounted.clean ≡ judged.clean)) }
    ensures only_read { AreOnlyRead (map I.view images.old) (map I.view images.new) }
{
    match read_dies(alloc, images, judged.geometry, judged.dies.as_slice()) {
        Ok(outcomes) => recover_outcomes(alloc, judged, outcomes, page_map, copies),
        Err(_) => Err(MountRefused::of_nobody(MountFault::NoMemory)),
    }
}

/// As [`recover_slots`], with the slots of each die read in a thread of its own where there is one to be had.
pub(crate) fn recover_slots_side_by_side<
    R: Threads + Sync,
    I: Image + Send,
    M: Map + Drop,
    A: Allocator + Copy + Send,
>(
    rt: &R,
    alloc: A,
    images: &mut [I],
    judged: Judged<A>,
    page_map: M,
    copies: Copies,
) -> Result<Mounted<M, A>, MountRefused>
    requires map { M.view page_map ≡ new_map judged.geometry }
    requires images { AreReadable I.view judged.geometry judged.dies.items images.old }
    ensures scanned { MatchResult result
        (λ mounted. (outcomes : List Outcome) × AreOutcomes I.made judged.geometry images.old images.new judged.dies.items outcomes
        × IsScan judged.geometry judged.dies.items true outcomes mounted.dies.items (M.view mounted.map)
        × (refusal_of_slots copies.number judged.mask judged.dies.items outcomes ≡ None))
        (λ refusal. (refusal ≡ rules.refused MountFault.NoMemory)
        ⊎ ((outcomes : List Outcome) × AreOutcomes I.made judged.geometry images.old images.new judged.dies.items outcomes
        × AreSlotsRefused copies.number judged.mask judged.dies.items outcomes refusal)) }
    ensures dies { IfOk result (λ mounted. length mounted.dies.items ≡ (M.view mounted.map).geometry.dies) }
    ensures array { IfOk result (λ mounted.
        (mounted.array ≡ judged.array) × (mounted.epoch ≡ judged.epoch) × (mounted.clean ≡ judged.clean)) }
    ensures only_read { AreOnlyRead (map I.view images.old) (map I.view images.new) }
{
    let standings = judged.dies.as_slice();
    match read_dies_side_by_side(rt, alloc, images, judged.geometry, standings) {
        Ok(outcomes) => recover_outcomes(alloc, judged, outcomes, page_map, copies),
        Err(_) => Err(MountRefused::of_nobody(MountFault::NoMemory)),
    }
}

/// Mounts what came of reading each die, where the dies are all there.
fn recover_outcomes<M: Map + Drop, A: Allocator + Copy>(
    alloc: A,
    judged: Judged<A>,
    outcomes: Vec<Option<DieRead<A>>, A>,
    map: M,
    copies: Copies,
) -> Result<Mounted<M, A>, MountRefused>
    requires map { M.view map ≡ new_map judged.geometry }
    requires few { length judged.dies.items ≤ 64 }
    requires each { length outcomes.items ≡ length judged.dies.items }
    requires contents { (dies : List Standing) (contents : Contents) → AreSettled judged.dies.items outcomes.items dies contents
        → AreContents judged.geometry contents }
    ensures scanned { MatchResult result
        (λ mounted. IsScan judged.geometry judged.dies.items true outcomes.items mounted.dies.items (M.view mounted.map)
        × (refusal_of_slots copies.number judged.mask judged.dies.items outcomes.items ≡ None))
        (λ refusal. (refusal ≡ rules.refused MountFault.NoMemory)
        ⊎ AreSlotsRefused copies.number judged.mask judged.dies.items outcomes.items refusal) }
    ensures array { IfOk result (λ mounted.
        (mounted.array ≡ judged.array) × (mounted.epoch ≡ judged.epoch) × (mounted.clean ≡ judged.clean)) }
{
    let standings = judged.dies.as_slice();
    match slots_refusal(copies, judged.mask, standings, outcomes.as_slice()) {
        Some(refusal) => Err(refusal),
        None => mount_outcomes(alloc, judged, outcomes, map, true),
    }
}
