//! The array that images are, by their headers.
ghost use Rattle.std.specs.Prelude.{◌≡◌, ◌≤◌, ◌⊎◌, Some, None, IfOk, OnOk, IfErr};
ghost use Rattle.std.specs.Result.{result_err};
ghost use Rattle.fa_mount_headers.specs.Rules as rules;
ghost use Rattle.fa_mount_headers.specs.Judged.{IsJudged, HaveImages, first_seen, standing_of as standing_by, standings_of as standings_by};

use crate::fault::{MountFault, MountRefused};
use crate::found::Found;
use crate::rules::{
    all_read, closed_clean, greatest_epoch, has_room, image_of, is_in, live, mask_in, no_die_twice,
    of_array, of_geometry, one_mask, unclean_die,
};
use crate::seen::{Seen, all_seen};
use fa_types::{Copies, Geometry};
use std::alloc::{AllocError, Allocator, Global};

/// How a die stands, by the header of its image. The number is the image's, from 0 in the list of images.
#[derive(Clone, Copy)]
pub enum Standing {
    /// It has no image.
    Missing,
    /// It is in the mask of the greatest epoch.
    Live(usize),
    /// Its image has the mark of a spare. It is a spare where all of its slots are erased, and is out
    /// otherwise.
    Spare(usize),
    /// It is not in the mask, and no spare.
    Out(usize),
}

/// What the headers of images say of their array.
#[derive(Drop)]
pub struct Judged<A: Allocator = Global> {
    /// The geometry of the array, of each header and of each image.
    pub geometry: Geometry,
    /// The number of the array.
    pub array: [u8; 16],
    /// The greatest epoch.
    pub epoch: u64,
    /// The mask of that epoch: bit `d` stands for die `d`.
    pub mask: u64,
    /// Each die of the mask was closed clean in that epoch.
    pub clean: bool,
    /// How each die stands, by its number. There are as many as the geometry has dies.
    pub dies: Vec<Standing, A>,
}

/// Judges what was found of the headers of all images. Images that have no header are left aside where
/// an unclean array may be mounted, and refused otherwise. The fault is the first that applies; that
/// memory was refused may be told in its place.
pub fn judge<A: Allocator + Copy>(
    alloc: A,
    founds: &[Found],
    copies: Copies,
    unclean: bool,
) -> Result<Judged<A>, MountRefused>
    ensures ok { OnOk result (rules.header_refusal copies.number unclean founds.now ≡ None) }
    ensures judged { IfOk result (λ judged. IsJudged (rules.seen_from 0 founds.now) judged) }
    ensures images { IfOk result (HaveImages founds.now) }
    ensures refused { IfErr result (λ refused. (rules.header_refusal copies.number unclean founds.now ≡ Some refused)
        ⊎ (refused ≡ rules.refused MountFault.NoMemory)) }
{
    all_read(founds, unclean)?;
    let seen = match all_seen(alloc, founds) {
        Ok(seen) => seen,
        Err(_) => return Err(MountRefused::of_nobody(MountFault::NoMemory)),
    };
    let first = one_array(&seen, copies, unclean)?;
    match judgement(alloc, &first, &seen) {
        Ok(judged) => Ok(judged),
        Err(_) => Err(MountRefused::of_nobody(MountFault::NoMemory)),
    }
}

/// The first of these images, if they are of one array that can be mounted.
pub(crate) fn one_array(seen: &[Seen], copies: Copies, unclean: bool) -> Result<Seen, MountRefused>
    ensures refused { result_err result ≡ rules.seen_refusal copies.number unclean seen.now }
    ensures first { IfOk result (λ first. first_seen seen.now ≡ Some first) }
{
    let Some(first) = seen.first() else {
        return Err(MountRefused::of_nobody(MountFault::NoDieLive));
    };
    of_array(seen, &first.header.array)?;
    of_geometry(seen, first.header.geometry)?;
    has_room(copies, first)?;
    no_die_twice(seen)?;
    let epoch = greatest_epoch(seen);
    let mask = mask_in(seen, epoch);
    one_epoch(seen, first.header.geometry.dies, unclean, epoch, mask)?;
    Ok(*first)
}

/// Whether the headers of the greatest epoch, in which this is the mask, are those of an array of so many
/// dies that can be mounted.
fn one_epoch(
    seen: &[Seen],
    dies: u32,
    unclean: bool,
    epoch: u64,
    mask: u64,
) -> Result<(), MountRefused>
    requires { dies ≤ 64 }
    ensures { result_err result ≡ rules.epoch_refusal dies unclean epoch mask seen.now }
{
    one_mask(seen, epoch, mask)?;
    closed_clean(seen, dies, unclean, epoch, mask)?;
    live(seen, mask)
}

/// What images of one array say of it.
pub(crate) fn judgement<A: Allocator>(
    alloc: A,
    first: &Seen,
    seen: &[Seen],
) -> Result<Judged<A>, AllocError>
    requires { first_seen seen.now ≡ Some first.now }
    ensures { IfOk result (IsJudged seen.now) }
{
    let geometry = first.header.geometry;
    let epoch = greatest_epoch(seen);
    let mask = mask_in(seen, epoch);
    let clean = unclean_die(seen, geometry.dies, epoch, mask).is_none();
    let dies = standings_of(alloc, seen, mask, geometry.dies)?;
    Ok(Judged {
        geometry,
        array: first.header.array,
        epoch,
        mask,
        clean,
        dies,
    })
}

/// How each of so many dies stands.
fn standings_of<A: Allocator>(
    alloc: A,
    seen: &[Seen],
    mask: u64,
    dies: u32,
) -> Result<Vec<Standing, A>, AllocError>
    requires { dies ≤ 64 }
    ensures { IfOk result (λ all. all.items ≡ standings_by mask seen.now dies) }
{
    let mut standings = Vec::with_capacity(alloc, dies as usize)?;
    for die in 0..dies as u8 {
        standings.push(standing_of(seen, mask, die))?;
    }
    Ok(standings)
}

/// How a die stands.
fn standing_of(seen: &[Seen], mask: u64, die: u8) -> Standing
    ensures { result ≡ standing_by mask seen.now die }
{
    match image_of(seen, die) {
        None => Standing::Missing,
        Some(x) if x.header.spare => Standing::Spare(x.index),
        Some(x) if is_in(mask, x.header.die.0) => Standing::Live(x.index),
        Some(x) => Standing::Out(x.index),
    }
}
