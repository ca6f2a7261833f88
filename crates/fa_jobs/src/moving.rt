//! The job that moves a copy.
ghost use Rattle.std.specs.Prelude.{◌≡◌, ◌<◌, ℕ, Bool, List, is_some, length};
ghost use Rattle.fa_core_outcome.specs.Outcomes.{cell_of, outcome_of};
ghost use Rattle.fa_image.specs.Image.{Gave, ReadingSlot, slot_bytes, slot_count};
ghost use Rattle.fa_machine.specs.declared.jobs.Flight.TheVariants.{Move};
ghost use Rattle.fa_machine.specs.Cells.{moved_payload};
ghost use Rattle.fa_tag.specs.SlotGrammar.{IsOpened, IsPayloadOf, IsTag, payload_of};
ghost use Rattle.fa_jobs.specs.Made.{ProgramsMoved, Ran};
ghost use Rattle.fa_core_outcome.specs.Fits.{tag_of};

use crate::gate::{Gate, ImageCallKind};
use fa_core_outcome::Outcome;
use fa_image::Image;
use fa_machine::Version;
use fa_tag::{Opened, PayloadDigest, Tag, open_begun, reseal};
use fa_types::{Die, Page, Slot};

/// Reads the slot that a copy is in, and programs its payload with a new tag into another. It programs nothing where what it read is
/// not that copy.
pub(crate) fn run_move<I: Image, G: Gate>(
    die: Die,
    image: &mut I,
    page: Page,
    version: Version,
    from: Slot,
    to: Slot,
    scratch: &mut [u8],
    gate: &G,
) -> Outcome
    requires tag { IsTag (tag_of page.0 version die.0 to.0) }
    requires from { from.0 < slot_count (I.view image.old).geometry }
    requires to { to.0 < slot_count (I.view image.old).geometry }
    requires scratch { length scratch.old ≡ slot_bytes (I.view image.old).geometry }
    ensures ran { (array payload bytes : List ℕ) (lasting : Bool) → Ran I.made (I.view image.old).geometry array die.0
        (record { flight = Move page version from to; payload = payload; lasting = lasting }) (outcome_of result bytes)
        image.old image.new }
    ensures geometry { (I.view image.new).geometry ≡ (I.view image.old).geometry }
    ensures scratch { length scratch.new ≡ length scratch.old }
{
    gate.before(die, ImageCallKind::ReadSlot);
    let read = image.read_slot(from, scratch);
    gate.after(die, ImageCallKind::ReadSlot);
    match read {
        Ok(()) => {
            let (opened, digest) = open_begun(scratch);
            end_move(
                die, image, page, version, from, to, opened, &digest, scratch, gate,
            )
        }
        Err(fault) => Outcome::Fault(fault),
    }
}

/// Goes on with a move whose slot was read into `scratch` and opened, with the digest of its payload begun: programs the payload with a new
/// tag into another slot. It programs nothing where what was read is not the copy that is to be moved.
pub fn end_move<I: Image, G: Gate>(
    die: Die,
    image: &mut I,
    page: Page,
    version: Version,
    from: Slot,
    to: Slot,
    opened: Opened,
    digest: &PayloadDigest,
    scratch: &mut [u8],
    gate: &G,
) -> Outcome
    requires tag { IsTag (tag_of page.0 version die.0 to.0) }
    requires to { to.0 < slot_count (I.view image.old).geometry }
    requires scratch { length scratch.old ≡ slot_bytes (I.view image.old).geometry }
    requires opened { IsOpened scratch.old opened }
    requires begun { digest.now ≡ payload_of scratch.old }
    ensures ran { (before : I) (array payload bytes : List ℕ) (lasting : Bool)
        → I.made before (ReadingSlot from.0) (Gave scratch.old) image.old → Ran I.made (I.view image.old).geometry array die.0
        (record { flight = Move page version from to; payload = payload; lasting = lasting }) (outcome_of result bytes) before image.new }
    ensures geometry { (I.view image.new).geometry ≡ (I.view image.old).geometry }
    ensures scratch { length scratch.new ≡ length scratch.old }
{
    if is_copy(opened, page, version, die, from) {
        program_moved(die, image, page, version, to, digest, scratch, gate)
    } else {
        Outcome::Wrong
    }
}

/// Whether what stands in the slot is the copy that is to be moved.
fn is_copy(opened: Opened, page: Page, version: Version, die: Die, from: Slot) -> bool
    ensures { (payload : List ℕ)
        → result ≡ is_some (moved_payload page.0 version die.0 from.0 (cell_of opened payload)) }
{
    match opened {
        Opened::Good(tag) => {
            tag.kind == version.kind
                && tag.page == page
                && tag.seq == version.seq
                && tag.die == die
                && tag.slot == from
        }
        _ => false,
    }
}

/// Gives the payload that was read, whose digest was begun, its new tag, and programs it.
fn program_moved<I: Image, G: Gate>(
    die: Die,
    image: &mut I,
    page: Page,
    version: Version,
    to: Slot,
    digest: &PayloadDigest,
    scratch: &mut [u8],
    gate: &G,
) -> Outcome
    requires tag { IsTag (tag_of page.0 version die.0 to.0) }
    requires to { to.0 < slot_count (I.view image.old).geometry }
    requires scratch { length scratch.old ≡ slot_bytes (I.view image.old).geometry }
    requires kind { IsPayloadOf version.kind (payload_of scratch.old) }
    requires begun { digest.now ≡ payload_of scratch.old }
    ensures programmed { (array : List ℕ) → ProgramsMoved I.made (I.view image.old).geometry array die.0 page.0 version to.0
        (payload_of scratch.old) result image.old image.new }
    ensures geometry { (I.view image.new).geometry ≡ (I.view image.old).geometry }
    ensures scratch { length scratch.new ≡ length scratch.old }
{
    let tag = Tag {
        page,
        seq: version.seq,
        kind: version.kind,
        die,
        slot: to,
    };
    reseal(digest, tag, scratch);
    gate.before(die, ImageCallKind::Move);
    let programmed = image.program(to, scratch);
    gate.after(die, ImageCallKind::Move);
    match programmed {
        Ok(()) => Outcome::Moved,
        Err(fault) => Outcome::Fault(fault),
    }
}
