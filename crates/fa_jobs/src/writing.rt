//! The jobs that program, erase and sync.
ghost use Rattle.std.specs.Prelude.{◌≡◌, ◌<◌, ℕ, Bool, List, IfErr, OnOk, length};
ghost use Rattle.fa_core_outcome.specs.Outcomes.{outcome_of};
ghost use Rattle.fa_image.specs.Image.{Done, Erasing, Refused, Syncing, slot_bytes};
ghost use Rattle.fa_machine.specs.declared.jobs.Flight.TheVariants.{Program, Erase, Sync};
ghost use Rattle.fa_jobs.specs.Made.{Ran};
ghost use Rattle.fa_core_outcome.specs.Fits.{IsSlotFor};

use crate::gate::{Gate, ImageCallKind};
use fa_core_outcome::Outcome;
use fa_image::{Image, ImageFault};
use fa_machine::{Block, Version};
use fa_tag::{Payload, Tag};
use fa_types::{Die, Page, Slot};
use std::alloc::Allocator;

/// Programs a payload with its tag, and syncs it where the program is lasting. Its bytes are put together in `scratch`.
pub(crate) fn run_program<I: Image, G: Gate, A: Allocator>(
    die: Die,
    image: &mut I,
    page: Page,
    version: Version,
    slot: Slot,
    payload: &Payload<A>,
    lasting: bool,
    scratch: &mut [u8],
    gate: &G,
) -> Outcome
    requires job { IsSlotFor (I.view image.old).geometry page.0 version die.0 slot.0 payload.now }
    requires scratch { length scratch.old ≡ slot_bytes (I.view image.old).geometry }
    ensures ran { (array bytes : List ℕ) → Ran I.made (I.view image.old).geometry array die.0
        (record { flight = Program page version slot; payload = payload.now; lasting = lasting }) (outcome_of result bytes)
        image.old image.new }
    ensures geometry { (I.view image.new).geometry ≡ (I.view image.old).geometry }
    ensures scratch { length scratch.new ≡ length scratch.old }
{
    let tag = Tag {
        page,
        seq: version.seq,
        kind: version.kind,
        die,
        slot,
    };
    payload.seal(tag, scratch);
    gate.before(die, ImageCallKind::Program);
    let programmed = image.program(slot, scratch);
    gate.after(die, ImageCallKind::Program);
    match programmed {
        Ok(()) => {
            if lasting {
                match sync_image(die, image, gate) {
                    Ok(()) => Outcome::Programmed,
                    Err(fault) => Outcome::Fault(fault),
                }
            } else {
                Outcome::Programmed
            }
        }
        Err(fault) => Outcome::Fault(fault),
    }
}

/// Erases a block behind a sync, so that what replaces its slots is durable before they are gone.
pub(crate) fn run_erase<I: Image, G: Gate>(
    die: Die,
    image: &mut I,
    block: Block,
    gate: &G,
) -> Outcome
    requires { block.0 < (I.view image.old).geometry.blocks }
    ensures ran { (array payload bytes : List ℕ) (lasting : Bool) → Ran I.made (I.view image.old).geometry array die.0
        (record { flight = Erase block; payload = payload; lasting = lasting }) (outcome_of result bytes) image.old image.new }
    ensures geometry { (I.view image.new).geometry ≡ (I.view image.old).geometry }
{
    let synced = sync_image(die, image, gate);
    match synced {
        Ok(()) => match erase_block(die, image, block, gate) {
            Ok(()) => Outcome::Erased,
            Err(fault) => Outcome::Fault(fault),
        },
        Err(fault) => Outcome::Fault(fault),
    }
}

/// Erases the block. The error is the image's.
fn erase_block<I: Image, G: Gate>(
    die: Die,
    image: &mut I,
    block: Block,
    gate: &G,
) -> Result<(), ImageFault>
    requires { block.0 < (I.view image.old).geometry.blocks }
    ensures done { OnOk result (I.made image.old (Erasing block.0) Done image.new) }
    ensures refused { IfErr result (λ fault. I.made image.old (Erasing block.0) (Refused fault) image.new) }
    ensures geometry { (I.view image.new).geometry ≡ (I.view image.old).geometry }
{
    gate.before(die, ImageCallKind::EraseBlock);
    let erased = image.erase_block(block.0);
    gate.after(die, ImageCallKind::EraseBlock);
    erased
}

/// Syncs the image, for a flush.
pub(crate) fn run_sync<I: Image, G: Gate>(die: Die, image: &mut I, gate: &G) -> Outcome
    ensures ran { (flushes : ℕ) (array payload bytes : List ℕ) (lasting : Bool) → Ran I.made (I.view image.old).geometry array die.0
        (record { flight = Sync flushes; payload = payload; lasting = lasting }) (outcome_of result bytes) image.old image.new }
    ensures geometry { (I.view image.new).geometry ≡ (I.view image.old).geometry }
{
    match sync_image(die, image, gate) {
        Ok(()) => Outcome::Synced,
        Err(fault) => Outcome::Fault(fault),
    }
}

/// Syncs the image. The error is the image's.
fn sync_image<I: Image, G: Gate>(die: Die, image: &mut I, gate: &G) -> Result<(), ImageFault>
    ensures done { OnOk result (I.made image.old Syncing Done image.new) }
    ensures refused { IfErr result (λ fault. I.made image.old Syncing (Refused fault) image.new) }
    ensures geometry { (I.view image.new).geometry ≡ (I.view image.old).geometry }
{
    gate.before(die, ImageCallKind::Sync);
    let synced = image.sync();
    gate.after(die, ImageCallKind::Sync);
    synced
}
