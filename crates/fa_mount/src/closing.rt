//! Closing an array: the images of its live dies are told that they hold all there is.
ghost use Rattle.std.specs.Prelude.{◌≡◌, ◌+◌, ◌<◌, ◌≤◌, ◌^◌, length, map};
ghost use Rattle.fa_core.specs.Array.{IsWhole, number_of, state_of};
ghost use Rattle.fa_mount_headers.specs.Rules.{is_in as rule_in};
ghost use Rattle.fa_machine.specs.State.{is_live};
ghost use Rattle.fa_mount.specs.Closing.{Closes, Ends, close_fault_number};
ghost use Rattle.fa_mount.specs.Standings.{AreApart, HaveImages};
ghost use Rattle.fa_mount.specs.Told.{IsTold};
ghost use Rattle.fa_mount.specs.Turns.{IsToldAll, IsTurn};

use crate::array::MountedArray;
use crate::losing::{live_mask, lost_page};
use crate::masks::without;
use crate::telling::{Told, mark_all, sync_all, unmark_all};
use fa_core::Array;
use fa_image::Image;
use fa_map_calls::Map;
use fa_mount_headers::Standing;
use fa_types::{Die, Page};
use std::alloc::Allocator;
use thiserror::Error;

/// Why an array was not closed: the first that applies.
#[derive(Clone, Copy, Debug, Error)]
pub enum CloseFault {
    /// Fault 1: a job, a claim, a batch or a copy of the array is open.
    #[error("busy")]
    Busy,
    /// Fault 2: no die that is left holds this page, the lowest of those. No clean mark stands.
    #[error("a page is lost")]
    Lost(Page),
    /// Fault 3: no die is left.
    #[error("no die live")]
    NoDieLive,
}

impl CloseFault {
    /// The fault's number, 1 to 3.
    pub fn number(self) -> u8
        ensures { result ≡ close_fault_number self }
    {
        match self {
            CloseFault::Busy => 1,
            CloseFault::Lost(_) => 2,
            CloseFault::NoDieLive => 3,
        }
    }
}

/// What a turn came to.
pub(crate) enum Turn {
    /// The dies that are left are closed.
    Closed,
    /// This die refused.
    DieOut(Die),
    /// This page is lost.
    PageLost(Page),
    /// No die is left.
    NoDie,
}

/// Closes an array: the images of its live dies are synced, then told with the clean mark which dies are live, and synced again. The
/// answer is the mask of these dies. A die that refuses a call is left aside, and all begins anew with the other dies and an epoch
/// that is greater by one. Where a page is lost the marks that were written are taken back, as far as the images let that be. The
/// array itself is not changed, images of other dies are not called, and no memory is taken.
pub fn close_clean<M: Map + Drop, A: Allocator + Clone, I: Image>(
    mounted: &MountedArray<M, A>,
    images: &mut [I],
) -> Result<u64, CloseFault>
    requires whole { IsWhole M.view mounted.now.array }
    requires apart { AreApart mounted.now.dies.items }
    requires have { HaveImages mounted.now.dies.items (is_live (state_of M.view mounted.now.array).page_map) (length images.old) }
    ensures closes { Closes I.made (state_of M.view mounted.now.array) (number_of mounted.now.array) mounted.now.dies.items
        images.old images.new result }
    ensures slots { map (λ image. (I.view image).slots) images.new ≡ map (λ image. (I.view image).slots) images.old }
    ensures honest { map I.honest images.new ≡ map I.honest images.old }
{
    if mounted.array.is_busy() {
        return Err(CloseFault::Busy);
    }
    close_idle(&mounted.array, mounted.dies.as_slice(), images)
}

/// The same of an array with nothing open.
fn close_idle<M: Map, A: Allocator + Clone, I: Image>(
    array: &Array<M, A>,
    dies: &[Standing],
    images: &mut [I],
) -> Result<u64, CloseFault>
    requires whole { IsWhole M.view array.now }
    requires apart { AreApart dies.now }
    requires have { HaveImages dies.now (is_live (state_of M.view array.now).page_map) (length images.old) }
    ensures { Ends I.made (state_of M.view array.now) (number_of array.now) dies.now images.old images.new result }
{
    let mut told = Told {
        geometry: array.geometry(),
        array: array.array_id(),
        epoch: array.epoch(),
        mask: live_mask(array),
    };
    let mut marked = 0;
    loop {
        match take_turn(array, dies, &told, &mut marked, images) {
            Turn::Closed => return Ok(told.mask),
            Turn::PageLost(page) => return Err(CloseFault::Lost(page)),
            Turn::NoDie => return Err(CloseFault::NoDieLive),
            Turn::DieOut(die) => {
                told.epoch += 1;
                told.mask = without(told.mask, u32::from(die.0));
            }
        }
    }
}

/// One turn with the dies that are left. `marked` are those whose headers were written with the clean mark.
fn take_turn<M: Map, A: Allocator + Clone, I: Image>(
    array: &Array<M, A>,
    dies: &[Standing],
    told: &Told,
    marked: &mut u64,
    images: &mut [I],
) -> Turn
    requires apart { AreApart dies.now }
    requires have { HaveImages dies.now (rule_in told.now.mask) (length images.old) }
    requires told { IsTold told.now }
    ensures { IsTurn I.made dies.now told.now marked.old marked.new images.old images.new (state_of M.view array.now).page_map
        result }
{
    if let Some(page) = lost_page(array, told.mask) {
        unmark_all(images, dies, told, *marked);
        return Turn::PageLost(page);
    }
    if told.mask == 0 {
        return Turn::NoDie;
    }
    match tell_all(images, dies, told, marked) {
        Ok(()) => Turn::Closed,
        Err(die) => Turn::DieOut(die),
    }
}

/// Syncs the dies that are left, tells them, and syncs them again. The error is the first die that refused.
fn tell_all<I: Image>(
    images: &mut [I],
    dies: &[Standing],
    told: &Told,
    marked: &mut u64,
) -> Result<(), Die>
    requires apart { AreApart dies.now }
    requires have { HaveImages dies.now (rule_in told.now.mask) (length images.old) }
    requires told { IsTold told.now }
    ensures { IsToldAll I.made dies.now told.now marked.old marked.new images.old images.new result }
{
    sync_all(images, dies, told)?;
    mark_all(images, dies, told, marked)?;
    sync_all(images, dies, told)
}
