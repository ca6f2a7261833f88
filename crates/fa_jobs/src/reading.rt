//! The job that reads a slot.
ghost use Rattle.std.specs.Prelude.{◌≡◌, ◌<◌, ◌≤◌, ℕ, Bool, List, IfErr, OnOk, length};
ghost use Rattle.fa_core_outcome.specs.Outcomes.{outcome_of};
ghost use Rattle.fa_image.specs.Image.{Gave, ReadingSlot, Refused, slot_bytes, slot_count};
ghost use Rattle.fa_machine.specs.declared.jobs.Flight.TheVariants.{Read};
ghost use Rattle.fa_jobs.specs.Opens.{Opens};
ghost use Rattle.fa_jobs.specs.Made.{Ran};

use crate::gate::{Gate, ImageCallKind};
use crate::handing::hand_over;
use fa_core_outcome::Outcome;
use fa_image::{Image, ImageFault};
use fa_machine::{BatchId, Version};
use fa_tag::open;
use fa_types::{Die, Page, Slot};
use std::alloc::Allocator;

/// Reads a slot into `scratch`, and hands its payload out in `buffer`.
pub(crate) fn run_read<I: Image, G: Gate, B: Allocator>(
    die: Die,
    image: &mut I,
    slot: Slot,
    scratch: &mut Vec<u8, B>,
    buffer: &mut Vec<u8, B>,
    gate: &G,
) -> Outcome
    requires slot { slot.0 < slot_count (I.view image.old).geometry }
    requires scratch { length scratch.old.items ≡ slot_bytes (I.view image.old).geometry }
    requires buffer { length buffer.old.items ≡ (I.view image.old).geometry.page_bytes }
    ensures ran { (batch : BatchId) (page : Page) (version : Version) (array payload : List ℕ) (lasting : Bool)
        → Ran I.made (I.view image.old).geometry array die.0
        (record { flight = Read batch page version slot; payload = payload; lasting = lasting }) (outcome_of result buffer.new.items)
        image.old image.new }
    ensures geometry { (I.view image.new).geometry ≡ (I.view image.old).geometry }
    ensures scratch { length scratch.new.items ≡ length scratch.old.items }
    ensures buffer { length buffer.new.items ≡ length buffer.old.items }
{
    match begin_read(die, image, slot, scratch, gate) {
        Ok(()) => end_read(scratch, buffer),
        Err(fault) => Outcome::Fault(fault),
    }
}

/// Reads a slot into `scratch`. The error is the image's.
pub fn begin_read<I: Image, G: Gate, B: Allocator>(
    die: Die,
    image: &mut I,
    slot: Slot,
    scratch: &mut Vec<u8, B>,
    gate: &G,
) -> Result<(), ImageFault>
    requires slot { slot.0 < slot_count (I.view image.old).geometry }
    requires scratch { length scratch.old.items ≡ slot_bytes (I.view image.old).geometry }
    ensures gave { OnOk result (I.made image.old (ReadingSlot slot.0) (Gave scratch.new.items) image.new) }
    ensures refused { IfErr result (λ fault. I.made image.old (ReadingSlot slot.0) (Refused fault) image.new) }
    ensures geometry { (I.view image.new).geometry ≡ (I.view image.old).geometry }
    ensures scratch { length scratch.new.items ≡ length scratch.old.items }
{
    gate.before(die, ImageCallKind::ReadSlot);
    let read = image.read_slot(slot, scratch.as_mut_slice());
    gate.after(die, ImageCallKind::ReadSlot);
    match read {
        Ok(()) => Ok(()),
        Err(fault) => Err(fault),
    }
}

/// Opens the slot that was read, and hands its payload out.
pub(crate) fn end_read<B: Allocator>(scratch: &mut Vec<u8, B>, buffer: &mut Vec<u8, B>) -> Outcome
    requires { length buffer.old.items ≤ length scratch.old.items }
    ensures opens { Opens scratch.old.items (length buffer.old.items) result buffer.new.items }
    ensures scratch { length scratch.new.items ≡ length scratch.old.items }
    ensures buffer { length buffer.new.items ≡ length buffer.old.items }
{
    let opened = open(scratch.as_slice());
    hand_over(scratch, buffer);
    Outcome::Read(opened)
}
