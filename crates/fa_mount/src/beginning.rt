//! The array over what was mounted.
ghost use Rattle.std.specs.Prelude.{◌≡◌, ◌+◌, ◌-◌, ◌*◌, ◌^◌, ◌<◌, ◌≤◌, ◌⊎◌, if◌then◌else◌, length, IfErr, IfOk};
ghost use Rattle.std.specs.FinMap.{get, insert};
ghost use Rattle.fa_core.specs.Array.{IsWhole, number_of, state_of};
ghost use Rattle.fa_mount_headers.specs.Rules as rules;
ghost use Rattle.fa_mount.specs.Begins.{AreSpares, IsBegun, IsGreatestNumber, MayBegin, number_in};
ghost use Rattle.fa_mount_scan.specs.Reported.{is_spare as is_spare_die};
ghost use Rattle.fa_set.specs.Members.{bound_of, members};

use crate::array::MountedArray;
use fa_core::Array;
use fa_map_calls::Map;
use fa_mount_headers::{MountFault, MountRefused, Standing};
use fa_mount_scan::Mounted;
use fa_set::NumberSet;
use fa_types::{Copies, Page, Seq};
use std::alloc::{AllocError, Allocator};

/// The greatest epoch of headers over which an array is made, so that its epoch can rise with each die that goes out or comes in.
const MAX_EPOCH: u64 = (1 << 62) - 256;

/// The array over what was mounted: its epoch is one more than the headers' greatest, its spares are the dies that stand as
/// spares, and its last number is the greatest of a page. Refusal 1 where the headers' greatest epoch is above 2^62 - 256, and 8 out
/// of memory.
pub(crate) fn begin<M: Map + Drop, A: Allocator + Copy>(
    alloc: A,
    scanned: Mounted<M, A>,
    copies: Copies,
) -> Result<MountedArray<M, A>, MountRefused>
    requires { MayBegin copies.number scanned.dies.items (M.view scanned.map) }
    ensures low { IfOk result (λ mounted. scanned.epoch ≤ 2 ^ 62 - 256) }
    ensures begun { IfOk result (λ mounted. IsBegun copies.number (M.view scanned.map) scanned.dies.items scanned.epoch
        (state_of M.view mounted.array)) }
    ensures dies { IfOk result (λ mounted. mounted.dies.items ≡ scanned.dies.items) }
    ensures number { IfOk result (λ mounted. number_of mounted.array ≡ scanned.array) }
    ensures whole { IfOk result (λ mounted. IsWhole M.view mounted.array) }
    ensures refused { IfErr result (λ refusal. (refusal ≡ rules.refused MountFault.NoMemory)
        ⊎ ((2 ^ 62 - 256 < scanned.epoch) × (refusal ≡ rules.refused MountFault.HeaderBad))) }
{
    if scanned.epoch > MAX_EPOCH {
        return Err(MountRefused::of_nobody(MountFault::HeaderBad));
    }
    match array_over(alloc, scanned, copies) {
        Ok(mounted) => Ok(mounted),
        Err(_) => Err(MountRefused::of_nobody(MountFault::NoMemory)),
    }
}

/// The same of headers whose greatest epoch is low. The error is out of memory.
fn array_over<M: Map + Drop, A: Allocator + Copy>(
    alloc: A,
    scanned: Mounted<M, A>,
    copies: Copies,
) -> Result<MountedArray<M, A>, AllocError>
    requires may { MayBegin copies.number scanned.dies.items (M.view scanned.map) }
    requires low { scanned.epoch ≤ 2 ^ 62 - 256 }
    ensures begun { IfOk result (λ mounted. IsBegun copies.number (M.view scanned.map) scanned.dies.items scanned.epoch
        (state_of M.view mounted.array)) }
    ensures dies { IfOk result (λ mounted. mounted.dies.items ≡ scanned.dies.items) }
    ensures number { IfOk result (λ mounted. number_of mounted.array ≡ scanned.array) }
    ensures whole { IfOk result (λ mounted. IsWhole M.view mounted.array) }
{
    let geometry = scanned.map.geometry();
    prove!(geometry.dies <= 64);
    let spares = spares_of(alloc, scanned.dies.as_slice())?;
    let last = last_number(&scanned.map);
    let Mounted {
        map,
        array: number,
        epoch,
        clean: _,
        dies,
    } = scanned;
    let array = Array::new(alloc, map, copies, epoch + 1, spares, last, number)?;
    Ok(MountedArray { array, dies })
}

/// The dies that stand as spares, as a set. The error is out of memory.
fn spares_of<A: Allocator + Copy>(alloc: A, dies: &[Standing]) -> Result<NumberSet<A>, AllocError>
    ensures bound { IfOk result (λ spares. bound_of spares ≡ length dies.now) }
    ensures spares { IfOk result (λ spares. AreSpares dies.now (members spares)) }
{
    let mut spares = NumberSet::new(alloc, dies.len())?;
    for die in 0..dies.len() {
        add_spare(&mut spares, die, dies[die]);
    }
    Ok(spares)
}

/// The die comes in where it stands as a spare.
fn add_spare<A: Allocator>(spares: &mut NumberSet<A>, die: usize, standing: Standing)
    requires { die < bound_of spares.old }
    ensures bound { bound_of spares.new ≡ bound_of spares.old }
    ensures members { members spares.new
        ≡ (if is_spare_die standing then insert (members spares.old) die tt else members spares.old) }
{
    if matches!(standing, Standing::Spare(_)) {
        spares.insert(die);
    }
}

/// The greatest number of a page: 0 where none was written.
fn last_number<M: Map>(map: &M) -> Seq
    ensures { IsGreatestNumber (M.view map.now) result.0 }
{
    let mut last = 0;
    for page in 0..map.geometry().pages {
        last = last.max(number_at(map, Page(page)));
    }
    Seq(last)
}

/// The number of a page: 0 where it was never written.
fn number_at<M: Map>(map: &M, page: Page) -> u64
    requires { page.0 < (M.view map.now).geometry.pages }
    ensures { result ≡ number_in (get (M.view map.now).versions page.0) }
{
    match map.seq(page) {
        Some(seq) => seq.0,
        None => 0,
    }
}
