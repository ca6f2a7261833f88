//! The slots of one die, read.
ghost use Rattle.std.specs.Prelude.{◌≡◌, ◌+◌, ◌-◌, ◌*◌, ◌%◌, ◌^◌, ◌<◌, ◌≤◌, All, ℕ, List, Ok, Err, None, Some, IfErr, IfSome, OnOk};
ghost use Rattle.std.specs.Prelude.{length, take, drop, slice_index_or};
ghost use Rattle.fa_image.specs.Image.{ReadingSlot, Refused, slot_bytes, slot_count};
ghost use Rattle.fa_lanes.specs.Lanes.{message};
ghost use Rattle.fa_mount_scan.specs.ContentReading.{IsContentOf, ReadsDie, ReadsSlots, StopsAfter, StopsReading};
ghost use Rattle.fa_mount_scan.specs.ReadingAhead.{ReadsAhead, slot_of};

use crate::slots::content::{SlotContent, content_of_opened};
use fa_image::{Image, ImageFault};
use fa_tag::{Opened, open_all};
use fa_types::{Die, Slot};
use std::alloc::Allocator;

/// How many slots are read ahead and opened together.
pub(crate) const AHEAD: usize = 8;

/// How far the slots were read: how many, and the fault of the read that was refused.
#[derive(Drop)]
struct Ahead {
    read: usize,
    fault: Option<ImageFault>,
}

/// Reads each slot of a die once, from slot 0 on, up to the first read that is refused. What was found in
/// them goes into `contents`. It takes no memory: `buffer` has the bytes of eight slots, `contents` as many
/// entries as the die has slots.
pub(crate) fn read_die<I: Image, A: Allocator>(
    image: &mut I,
    die: Die,
    buffer: &mut [u8],
    contents: &mut Vec<SlotContent, A>,
) -> Result<(), ImageFault>
    requires buffer { length buffer.old ≡ 8 * slot_bytes (I.view image.old).geometry }
    requires contents { length contents.old.items ≡ slot_count (I.view image.old).geometry }
    ensures read { OnOk result (ReadsDie I.made (I.view image.old).geometry die.0 (Ok contents.new.items) image.old image.new) }
    ensures refused { IfErr result (λ fault. ReadsDie I.made (I.view image.old).geometry die.0 (Err fault) image.old image.new) }
    ensures geometry { (I.view image.new).geometry ≡ (I.view image.old).geometry }
    ensures contents { length contents.new.items ≡ length contents.old.items }
{
    let pages = image.geometry().pages;
    read_slots(image, pages, die, contents.as_mut_slice(), buffer)
}

/// Reads the slots from 0 on, eight at a time, and what is left over.
fn read_slots<I: Image>(
    image: &mut I,
    pages: u64,
    die: Die,
    contents: &mut [SlotContent],
    buffer: &mut [u8],
) -> Result<(), ImageFault>
    requires buffer { length buffer.old ≡ 8 * slot_bytes (I.view image.old).geometry }
    requires contents { length contents.old ≤ slot_count (I.view image.old).geometry }
    ensures read { OnOk result (ReadsSlots I.made pages die.0 0 contents.new image.old image.new) }
    ensures refused { IfErr result (λ fault. StopsReading I.made pages die.0 fault image.old image.new) }
    ensures geometry { (I.view image.new).geometry ≡ (I.view image.old).geometry }
{
    let first = AHEAD * (contents.len() / AHEAD);
    let (eights, rest) = contents.split_at_mut(first);
    match read_eights(image, pages, die, eights, buffer) {
        Ok(()) => read_some(image, pages, die, first, rest, buffer),
        Err(fault) => Err(fault),
    }
}

/// Reads the slots from 0 on, eight at a time.
fn read_eights<I: Image>(
    image: &mut I,
    pages: u64,
    die: Die,
    contents: &mut [SlotContent],
    buffer: &mut [u8],
) -> Result<(), ImageFault>
    requires buffer { length buffer.old ≡ 8 * slot_bytes (I.view image.old).geometry }
    requires contents { length contents.old ≤ slot_count (I.view image.old).geometry }
    requires whole { length contents.old % 8 ≡ 0 }
    ensures read { OnOk result (ReadsSlots I.made pages die.0 0 contents.new image.old image.new) }
    ensures refused { IfErr result (λ fault. StopsReading I.made pages die.0 fault image.old image.new) }
    ensures geometry { (I.view image.new).geometry ≡ (I.view image.old).geometry }
{
    'eights: for i in 0..contents.len() / AHEAD {
        let first = AHEAD * i;
        let some = &mut contents[first..first + AHEAD];
        match read_some(image, pages, die, first, some, buffer) {
            Ok(()) => {}
            Err(fault) => return Err(fault),
        }
    }
    Ok(())
}

/// Reads at most eight slots, from the first on, and opens them together.
fn read_some<I: Image>(
    image: &mut I,
    pages: u64,
    die: Die,
    first: usize,
    found: &mut [SlotContent],
    buffer: &mut [u8],
) -> Result<(), ImageFault>
    requires few { length found.old ≤ 8 }
    requires within { first + length found.old ≤ slot_count (I.view image.old).geometry }
    requires buffer { length buffer.old ≡ 8 * slot_bytes (I.view image.old).geometry }
    ensures read { OnOk result (ReadsSlots I.made pages die.0 first found.new image.old image.new) }
    ensures refused { IfErr result (λ fault. StopsAfter I.made pages die.0 first fault image.old image.new) }
    ensures geometry { (I.view image.new).geometry ≡ (I.view image.old).geometry }
{
    let bytes = buffer.len() / AHEAD;
    let ahead = read_ahead(image, first, found.len(), bytes, buffer);
    open_some(pages, die, first, bytes, buffer, &mut found[..ahead.read]);
    match ahead.fault {
        None => Ok(()),
        Some(fault) => Err(fault),
    }
}

/// Reads so many slots, from the first on, into one part of the buffer after the other, up to the first read that is
/// refused.
fn read_ahead<I: Image>(
    image: &mut I,
    first: usize,
    count: usize,
    bytes: usize,
    buffer: &mut [u8],
) -> Ahead
    requires within { first + count ≤ slot_count (I.view image.old).geometry }
    requires bytes { bytes ≡ slot_bytes (I.view image.old).geometry }
    requires room { count * bytes ≤ length buffer.old }
    ensures few { result.read ≤ count }
    ensures all { result.fault ≡ None → (result.read ≡ count) × ReadsAhead I.made bytes first count buffer.new image.old image.new }
    ensures refused { IfSome result.fault (λ fault. (middle : I) × ReadsAhead I.made bytes first result.read buffer.new image.old middle
        × I.made middle (ReadingSlot (first + result.read)) (Refused fault) image.new) }
    ensures geometry { (I.view image.new).geometry ≡ (I.view image.old).geometry }
{
    if count == 0 {
        return Ahead {
            read: 0,
            fault: None,
        };
    }
    let (part, rest) = buffer.split_at_mut(bytes);
    match image.read_slot(Slot(first as u32), part) {
        Ok(()) => one_more(read_ahead(image, first + 1, count - 1, bytes, rest)),
        Err(fault) => Ahead {
            read: 0,
            fault: Some(fault),
        },
    }
}

/// The same, with one slot more in front.
fn one_more(ahead: Ahead) -> Ahead
    requires { ahead.read < 2 ^ 32 }
    ensures read { result.read ≡ ahead.read + 1 }
    ensures fault { result.fault ≡ ahead.fault }
{
    Ahead {
        read: ahead.read + 1,
        fault: ahead.fault,
    }
}

/// Opens slots that were read, from the first on.
fn open_some(
    pages: u64,
    die: Die,
    first: usize,
    bytes: usize,
    buffer: &[u8],
    found: &mut [SlotContent],
)
    requires few { length found.old ≤ 8 }
    requires fits { first + length found.old ≤ 2 ^ 32 }
    requires buffer { length buffer.now ≡ 8 * bytes }
    ensures { (i : ℕ) → i < length found.new
        → IsContentOf (slot_of bytes buffer.now i) pages die.0 (first + i) (slice_index_or found.new i SlotContent.Stale) }
{
    let count = found.len();
    let slots = parts(buffer, bytes);
    let mut opened = [Opened::Bad; AHEAD];
    open_all(&slots[..count], &mut opened[..count]);
    'found: for i in 0..count {
        let slot = Slot((first + i) as u32);
        found[i] = content_of_opened(opened[i], pages, die, slot);
    }
}

/// The buffer in eight parts.
fn parts(buffer: &[u8], bytes: usize) -> [&[u8]; AHEAD]
    requires { length buffer.now ≡ 8 * bytes }
    ensures size { length result ≡ 8 }
    ensures parts { (i : ℕ) → i < 8 → message result i ≡ slot_of bytes buffer.now i }
{
    [
        &buffer[..bytes],
        &buffer[bytes..2 * bytes],
        &buffer[2 * bytes..3 * bytes],
        &buffer[3 * bytes..4 * bytes],
        &buffer[4 * bytes..5 * bytes],
        &buffer[5 * bytes..6 * bytes],
        &buffer[6 * bytes..7 * bytes],
        &buffer[7 * bytes..],
    ]
}
