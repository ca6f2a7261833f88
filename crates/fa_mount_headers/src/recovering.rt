//! An array that was not closed, and whose dies are all there.
ghost use Rattle.std.specs.Prelude.{◌≡◌, ◌≤◌, ◌⊎◌, ◌==◌, true, None, Some, IfErr, IfOk, OnOk};
ghost use Rattle.std.specs.List.{list_any};
ghost use Rattle.std.specs.Result.{result_err};
ghost use Rattle.fa_mount_headers.specs.Judged.{HaveImages, IsJudged, first_seen};
ghost use Rattle.fa_mount_headers.specs.Recovering as recovering;
ghost use Rattle.fa_mount_headers.specs.Rules.{header_refusal, refused as refused_by, seen_from};

use crate::fault::{MountFault, MountRefused};
use crate::found::Found;
use crate::judging::{Judged, judgement, one_array};
use crate::rules::{greatest_epoch, is_in, mask_in, of_die};
use crate::seen::{Seen, all_seen};
use fa_types::Copies;
use std::alloc::Allocator;

/// Judges what was found of the headers of all images as [`crate::judge`] does where an unclean array may be mounted, and then whether
/// each die of the mask of the greatest epoch has an image with a header: fault 5, with the first die that has none.
pub fn judge_whole<A: Allocator + Copy>(
    alloc: A,
    founds: &[Found],
    copies: Copies,
) -> Result<Judged<A>, MountRefused>
    ensures ok { OnOk result (recovering.recovery_refusal copies.number founds.now ≡ None) }
    ensures unclean { OnOk result (header_refusal copies.number true founds.now ≡ None) }
    ensures judged { IfOk result (λ judged. IsJudged (seen_from 0 founds.now) judged) }
    ensures images { IfOk result (HaveImages founds.now) }
    ensures refused { IfErr result (λ refused. (recovering.recovery_refusal copies.number founds.now ≡ Some refused)
        ⊎ (refused ≡ refused_by MountFault.NoMemory)) }
{
    let Ok(seen) = all_seen(alloc, founds) else {
        return Err(MountRefused::of_nobody(MountFault::NoMemory));
    };
    let first = whole_array(&seen, copies)?;
    match judgement(alloc, &first, &seen) {
        Ok(judged) => Ok(judged),
        Err(_) => Err(MountRefused::of_nobody(MountFault::NoMemory)),
    }
}

/// The first of these images, if they are of one array that can be recovered.
fn whole_array(seen: &[Seen], copies: Copies) -> Result<Seen, MountRefused>
    ensures refused { result_err result ≡ recovering.whole_refusal copies.number seen.now }
    ensures first { IfOk result (λ first. first_seen seen.now ≡ Some first) }
{
    let first = one_array(seen, copies, true)?;
    let epoch = greatest_epoch(seen);
    let mask = mask_in(seen, epoch);
    match none_missed(seen, first.header.geometry.dies, mask) {
        Ok(()) => Ok(first),
        Err(refused) => Err(refused),
    }
}

/// Whether each of so many dies that is in the mask has an image with a header.
fn none_missed(seen: &[Seen], dies: u32, mask: u64) -> Result<(), MountRefused>
    requires { dies ≤ 64 }
    ensures { result_err result ≡ recovering.missed_of dies mask seen.now }
{
    match missed_die(seen, dies, mask) {
        Some(die) => Err(of_die(MountFault::Unclean, die)),
        None => Ok(()),
    }
}

/// Of so many dies the first in the mask for which no image has a header.
#[tactic(auto, using(crate::proofs::Numbers::range_more))]
fn missed_die(seen: &[Seen], dies: u32, mask: u64) -> Option<u8>
    requires { dies ≤ 64 }
    ensures { result ≡ recovering.missed_die dies mask seen.now }
{
    for die in 0..dies as u8 {
        if is_missed(seen, mask, die) {
            return Some(die);
        }
    }
    None
}

/// Whether a die of the mask has no image with a header.
fn is_missed(seen: &[Seen], mask: u64, die: u8) -> bool
    ensures { result ≡ recovering.is_missed_die mask seen.now die }
{
    is_in(mask, die) && !has_header(seen, die)
}

/// Whether an image has a header of this die.
fn has_header(seen: &[Seen], die: u8) -> bool
    ensures { result ≡ list_any (λ x. x.header.die.0 == die) seen.now }
{
    seen.iter().any(|x| x.header.die.0 == die)
}
