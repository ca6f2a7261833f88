//! The rules that the headers of an array keep.
ghost use Rattle.std.specs.Prelude.{◌≡◌, ◌≤◌, ◌==◌, find, position};
ghost use Rattle.std.specs.Result.{result_err};
ghost use Rattle.fa_mount_headers.specs.Rules as rules;

use crate::fault::{MountFault, MountRefused};
use crate::found::{Found, HeaderFound};
use crate::seen::Seen;
use fa_types::{Copies, Die, Geometry};

/// Whether each header was read, and is one, where all have to be.
pub(crate) fn all_read(founds: &[Found], unclean: bool) -> Result<(), MountRefused>
    ensures { result_err result ≡ rules.reading_refusal unclean founds.now }
{
    if unclean {
        return Ok(());
    }
    none_unread(founds)?;
    none_bad(founds)
}

/// Whether each header was read.
fn none_unread(founds: &[Found]) -> Result<(), MountRefused>
    ensures { result_err result ≡ rules.unread founds.now }
{
    match first_unread(founds) {
        Some(index) => Err(at(MountFault::ImageFault, index)),
        None => Ok(()),
    }
}

/// Whether each header is one.
fn none_bad(founds: &[Found]) -> Result<(), MountRefused>
    ensures { result_err result ≡ rules.bad founds.now }
{
    match first_bad(founds) {
        Some(index) => Err(at(MountFault::HeaderBad, index)),
        None => Ok(()),
    }
}

/// The first image whose header was not read.
fn first_unread(founds: &[Found]) -> Option<usize>
    ensures { result ≡ position (λ found. rules.is_unread_header found.header) founds.now }
{
    founds.iter().position(|found| is_unread(found.header))
}

/// The first image whose header is none.
fn first_bad(founds: &[Found]) -> Option<usize>
    ensures { result ≡ position (λ found. rules.is_bad_header found.header) founds.now }
{
    founds.iter().position(|found| is_bad(found.header))
}

fn is_unread(found: HeaderFound) -> bool
    ensures { result ≡ rules.is_unread_header found }
{
    match found {
        HeaderFound::Unread => true,
        HeaderFound::Bad | HeaderFound::Good(_) => false,
    }
}

fn is_bad(found: HeaderFound) -> bool
    ensures { result ≡ rules.is_bad_header found }
{
    match found {
        HeaderFound::Bad => true,
        HeaderFound::Unread | HeaderFound::Good(_) => false,
    }
}

/// Whether each header is of this array.
pub(crate) fn of_array(seen: &[Seen], array: &[u8; 16]) -> Result<(), MountRefused>
    ensures { result_err result ≡ rules.of_another_array array.now seen.now }
{
    match seen.iter().find(|x| x.header.array != *array) {
        Some(x) => Err(of_seen(MountFault::ArraysDiffer, x)),
        None => Ok(()),
    }
}

/// Whether each header has this geometry, and so has its image.
pub(crate) fn of_geometry(seen: &[Seen], geometry: Geometry) -> Result<(), MountRefused>
    ensures { result_err result ≡ rules.of_another_geometry geometry seen.now }
{
    let other = seen.iter().find(|x| {
        !(is_geometry(&x.header.geometry, &geometry) && is_geometry(&x.geometry, &geometry))
    });
    match other {
        Some(x) => Err(of_seen(MountFault::GeometryDiffers, x)),
        None => Ok(()),
    }
}

fn is_geometry(a: &Geometry, b: &Geometry) -> bool
    ensures { result ≡ rules.is_geometry a.now b.now }
{
    a == b
}

/// Whether an array with this header can hold so many copies of each page.
pub(crate) fn has_room(copies: Copies, x: &Seen) -> Result<(), MountRefused>
    ensures { result_err result ≡ rules.without_room copies.number x.now }
{
    if can_hold(copies, x.header.geometry) {
        Ok(())
    } else {
        Err(of_seen(MountFault::GeometryDiffers, x))
    }
}

fn can_hold(copies: Copies, geometry: Geometry) -> bool
    ensures { result ≡ rules.can_hold copies.number geometry }
{
    Copies::new(copies.number, geometry).is_ok()
}

/// Whether each die has one header.
pub(crate) fn no_die_twice(seen: &[Seen]) -> Result<(), MountRefused>
    ensures { result_err result ≡ rules.die_twice seen.now }
{
    match seen
        .iter()
        .find(|x| has_earlier(seen, x.header.die, x.index))
    {
        Some(x) => Err(of_seen(MountFault::DieTwice, x)),
        None => Ok(()),
    }
}

/// Whether an image before this index is the same die.
fn has_earlier(seen: &[Seen], die: Die, index: usize) -> bool
    ensures { result ≡ rules.has_earlier seen.now die.0 index }
{
    seen.iter()
        .any(|y| y.header.die.0 == die.0 && y.index < index)
}

/// The first image with a header that is this die.
pub(crate) fn image_of(seen: &[Seen], die: u8) -> Option<Seen>
    ensures { result ≡ find (λ x. x.header.die.0 == die) seen.now }
{
    seen.iter().copied().find(|x| x.header.die.0 == die)
}

/// The greatest epoch of the headers.
pub(crate) fn greatest_epoch(seen: &[Seen]) -> u64
    ensures { result ≡ rules.greatest_epoch seen.now }
{
    seen.iter().fold(0, |most, x| most.max(x.header.epoch))
}

/// The mask of this epoch, as the first header has it.
pub(crate) fn mask_in(seen: &[Seen], epoch: u64) -> u64
    ensures { result ≡ rules.mask_in epoch seen.now }
{
    match seen.iter().find(|x| x.header.epoch == epoch) {
        Some(x) => x.header.mask,
        None => 0,
    }
}

/// Whether each header of this epoch has this mask.
pub(crate) fn one_mask(seen: &[Seen], epoch: u64, mask: u64) -> Result<(), MountRefused>
    ensures { result_err result ≡ rules.of_another_mask epoch mask seen.now }
{
    match seen
        .iter()
        .find(|x| x.header.epoch == epoch && x.header.mask != mask)
    {
        Some(x) => Err(of_seen(MountFault::ArraysDiffer, x)),
        None => Ok(()),
    }
}

/// Whether a die is in a mask.
pub fn is_in(mask: u64, die: u8) -> bool
    ensures { result ≡ rules.is_in mask die }
{
    match mask.checked_shr(u32::from(die)) {
        Some(from_die_on) => from_die_on & 1 == 1,
        None => false,
    }
}

/// Whether a die was closed clean in this epoch, and is no spare.
fn is_clean(seen: &[Seen], epoch: u64, die: u8) -> bool
    ensures { result ≡ rules.is_clean epoch seen.now die }
{
    seen.iter().any(|x| {
        x.header.die.0 == die && !x.header.spare && x.header.epoch == epoch && x.header.clean
    })
}

/// Whether a die of the mask was not closed clean in this epoch.
fn is_unclean(seen: &[Seen], epoch: u64, mask: u64, die: u8) -> bool
    ensures { result ≡ rules.is_unclean_die epoch mask seen.now die }
{
    is_in(mask, die) && !is_clean(seen, epoch, die)
}

/// Of so many dies the first in the mask that was not closed clean in this epoch.
#[tactic(auto, using(crate::proofs::Numbers::range_more))]
pub(crate) fn unclean_die(seen: &[Seen], dies: u32, epoch: u64, mask: u64) -> Option<u8>
    requires { dies ≤ 64 }
    ensures { result ≡ rules.unclean_die dies epoch mask seen.now }
{
    for die in 0..dies as u8 {
        if is_unclean(seen, epoch, mask, die) {
            return Some(die);
        }
    }
    None
}

/// Whether each of so many dies that is in the mask was closed clean in this epoch, where an unclean
/// array may not be mounted.
pub(crate) fn closed_clean(
    seen: &[Seen],
    dies: u32,
    unclean: bool,
    epoch: u64,
    mask: u64,
) -> Result<(), MountRefused>
    requires { dies ≤ 64 }
    ensures { result_err result ≡ rules.unclean dies unclean epoch mask seen.now }
{
    if unclean {
        return Ok(());
    }
    match unclean_die(seen, dies, epoch, mask) {
        Some(die) => Err(of_die(MountFault::Unclean, die)),
        None => Ok(()),
    }
}

/// Whether a die of the mask is left.
pub(crate) fn live(seen: &[Seen], mask: u64) -> Result<(), MountRefused>
    ensures { result_err result ≡ rules.no_die_live mask seen.now }
{
    if has_live_die(seen, mask) {
        Ok(())
    } else {
        Err(MountRefused::of_nobody(MountFault::NoDieLive))
    }
}

/// Whether a die of the mask has an image, and is no spare.
fn has_live_die(seen: &[Seen], mask: u64) -> bool
    ensures { result ≡ rules.has_live_die mask seen.now }
{
    seen.iter()
        .any(|x| !x.header.spare && is_in(mask, x.header.die.0))
}

/// The fault of a die.
pub(crate) fn of_die(fault: MountFault, die: u8) -> MountRefused
    ensures { result ≡ rules.refused_die fault die }
{
    MountRefused {
        fault,
        image: None,
        die: Some(Die(die)),
    }
}

/// The fault of the image at an index.
fn at(fault: MountFault, index: usize) -> MountRefused
    ensures { result ≡ rules.refused_at fault index }
{
    MountRefused {
        fault,
        image: Some(index),
        die: None,
    }
}

/// The fault of an image with a header.
fn of_seen(fault: MountFault, x: &Seen) -> MountRefused
    ensures { result ≡ rules.refused_for fault x.now }
{
    MountRefused {
        fault,
        image: Some(x.index),
        die: Some(x.header.die),
    }
}
