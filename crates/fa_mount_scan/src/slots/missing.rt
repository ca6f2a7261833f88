//! Whether the dies of an array that was not closed are all there, by what was read of their slots.
ghost use Rattle.std.specs.Prelude.{◌≡◌, ◌<◌, ◌≤◌, count_by, find, if◌then◌else◌, length, IfSome};
ghost use Rattle.fa_machine.specs.Maps.{below};
ghost use Rattle.fa_mount_scan.specs.Recovering as recovering;
ghost use Rattle.fa_mount_scan.specs.Scanned.{is_refused as refused_outcome};

use crate::slots::dies::DieRead;
use crate::slots::settle::{fault_at, is_blank};
use fa_mount_headers::{MountFault, MountRefused, Standing, is_in};
use fa_types::Copies;
use std::alloc::Allocator;

/// Why what was read of an array's dies keeps it from being recovered, if it does: 7 where a die of the mask refused a read; 5 where a die
/// of the mask has the mark of a spare and was used; and 5 where as many dies are out as each page has copies, or more.
pub(crate) fn slots_refusal<A: Allocator>(
    copies: Copies,
    mask: u64,
    standings: &[Standing],
    outcomes: &[Option<DieRead<A>>],
) -> Option<MountRefused>
    requires few { length standings.now ≤ 64 }
    requires each { length outcomes.now ≡ length standings.now }
    ensures { result ≡ recovering.slots_refusal copies.number mask standings.now outcomes.now }
{
    if let Some(die) = first_unread(mask, standings, outcomes) {
        return Some(fault_at(standings, die));
    }
    if let Some(die) = first_used_spare(mask, standings, outcomes) {
        return Some(used_spare_at(standings, die));
    }
    too_few(copies, count_gone(mask, standings, outcomes))
}

/// The refusal where so many dies are out.
fn too_few(copies: Copies, gone: u32) -> Option<MountRefused>
    ensures { result ≡ recovering.too_few copies.number gone }
{
    if copies.number <= gone {
        Some(MountRefused::of_nobody(MountFault::Unclean))
    } else {
        None
    }
}

/// The refusal for a spare of the mask that was used.
fn used_spare_at(standings: &[Standing], die: usize) -> MountRefused
    requires die { die < length standings.now }
    requires few { length standings.now ≤ 64 }
    ensures { result ≡ recovering.used_spare_at standings.now die }
{
    MountRefused {
        fault: MountFault::Unclean,
        ..fault_at(standings, die)
    }
}

/// The first die of the mask whose image refused a read.
#[tactic(auto, using(fa_mount_headers::proofs::Numbers::range_more))]
fn first_unread<A: Allocator>(
    mask: u64,
    standings: &[Standing],
    outcomes: &[Option<DieRead<A>>],
) -> Option<usize>
    requires few { length standings.now ≤ 64 }
    requires each { length outcomes.now ≡ length standings.now }
    ensures first { result ≡ find (recovering.is_unread_die mask standings.now outcomes.now) (below (length standings.now)) }
    ensures within { IfSome result (λ die. die < length standings.now) }
{
    for die in 0..standings.len() {
        if is_unread_die(mask, standings, outcomes, die) {
            return Some(die);
        }
    }
    None
}

/// Whether a die of the mask refused a read.
fn is_unread_die<A: Allocator>(
    mask: u64,
    standings: &[Standing],
    outcomes: &[Option<DieRead<A>>],
    die: usize,
) -> bool
    requires few { length standings.now ≤ 64 }
    requires each { length outcomes.now ≡ length standings.now }
    requires die { die < length standings.now }
    ensures { result ≡ recovering.is_unread_die mask standings.now outcomes.now die }
{
    is_in(mask, die as u8) && is_refused(&outcomes[die])
}

/// Whether the image of a die refused a read.
fn is_refused<A: Allocator>(outcome: &Option<DieRead<A>>) -> bool
    ensures { result ≡ refused_outcome outcome.now }
{
    matches!(outcome, Some(Err(_)))
}

/// The first die of the mask that has the mark of a spare and was used.
#[tactic(auto, using(fa_mount_headers::proofs::Numbers::range_more))]
fn first_used_spare<A: Allocator>(
    mask: u64,
    standings: &[Standing],
    outcomes: &[Option<DieRead<A>>],
) -> Option<usize>
    requires few { length standings.now ≤ 64 }
    requires each { length outcomes.now ≡ length standings.now }
    ensures first { result ≡ find (recovering.is_used_spare mask standings.now outcomes.now) (below (length standings.now)) }
    ensures within { IfSome result (λ die. die < length standings.now) }
{
    for die in 0..standings.len() {
        if is_used_spare(mask, standings, outcomes, die) {
            return Some(die);
        }
    }
    None
}

/// Whether a die of the mask has the mark of a spare and was used.
fn is_used_spare<A: Allocator>(
    mask: u64,
    standings: &[Standing],
    outcomes: &[Option<DieRead<A>>],
    die: usize,
) -> bool
    requires few { length standings.now ≤ 64 }
    requires each { length outcomes.now ≡ length standings.now }
    requires die { die < length standings.now }
    ensures { result ≡ recovering.is_used_spare mask standings.now outcomes.now die }
{
    is_in(mask, die as u8)
        && matches!(standings[die], Standing::Spare(_))
        && !is_unused(standings[die], &outcomes[die])
}

/// Whether this is a spare each of whose slots is erased.
fn is_unused<A: Allocator>(standing: Standing, outcome: &Option<DieRead<A>>) -> bool
    ensures { result ≡ recovering.is_unused standing outcome.now }
{
    match (standing, outcome) {
        (Standing::Spare(_), Some(Ok(found))) => is_blank(found.slots()),
        _ => false,
    }
}

/// How many dies are out: neither in the mask nor unused spares.
fn count_gone<A: Allocator>(
    mask: u64,
    standings: &[Standing],
    outcomes: &[Option<DieRead<A>>],
) -> u32
    requires few { length standings.now ≤ 64 }
    requires each { length outcomes.now ≡ length standings.now }
    ensures { result ≡ count_by (recovering.is_gone mask standings.now outcomes.now) (below (length standings.now)) }
{
    let mut gone = 0;
    for die in 0..standings.len() {
        gone += one_if_gone(mask, standings, outcomes, die);
    }
    gone
}

/// One where a die is out, and nothing otherwise.
fn one_if_gone<A: Allocator>(
    mask: u64,
    standings: &[Standing],
    outcomes: &[Option<DieRead<A>>],
    die: usize,
) -> u32
    requires few { length standings.now ≤ 64 }
    requires each { length outcomes.now ≡ length standings.now }
    requires die { die < length standings.now }
    ensures { result ≡ (if recovering.is_gone mask standings.now outcomes.now die then 1 else 0) }
{
    if !is_in(mask, die as u8) && !is_unused(standings[die], &outcomes[die]) {
        1
    } else {
        0
    }
}
