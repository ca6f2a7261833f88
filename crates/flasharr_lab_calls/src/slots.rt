//! Slots that are sealed and opened.
ghost use Rattle.std.specs.Prelude.{◌≡◌, ◌<◌, length};
ghost use Rattle.fa_types.specs.declared.kind.Kind.TheVariants.{Data};
ghost use Rattle.fa_tag.specs.SlotGrammar.{IsTag};

use fa_lanes::LANES;
use fa_tag::{Opened, Tag, open, open_all, seal};
use fa_types::{Die, Kind, Page, Seq, Slot, TAG_BYTES};
use flasharr_lab_parts::Tools;
use flasharr_lab_words::{first_length, full_page, number_at, small_at};
use std::alloc::{AllocError, Global};

/// What each page is full of.
const BYTE: u64 = 0x5a;

/// The greatest number of slots that there is room for.
const MAX_SLOTS: u64 = 1_048_576;

/// Makes room for slots, and tells that.
pub(crate) fn make_slots(numbers: &[u64], tools: &mut Tools<'_>, slots: &mut Vec<Vec<u8>>) {
    let count = number_at(numbers, 0).min(MAX_SLOTS);
    match slots_of(tools.alloc, count, small_at(numbers, 1).min(4096) as usize) {
        Ok(made) => {
            *slots = made;
            tools.output.word("made");
        }
        Err(_) => tools.output.word("refused: out of memory"),
    }
}

/// A number of slots of pages of this length. The error is out of memory.
fn slots_of(alloc: Global, count: u64, page_bytes: usize) -> Result<Vec<Vec<u8>>, AllocError> {
    let mut slots = Vec::new(alloc);
    for _ in 0..count {
        slots.push(vec![in alloc; 0u8; page_bytes.saturating_add(TAG_BYTES)]?)?;
    }
    Ok(slots)
}

/// Seals a page into each slot, and tells how many there are.
pub(crate) fn seal_all_slots(tools: &mut Tools<'_>, slots: &mut [Vec<u8>]) {
    let bytes = first_length(slots);
    let page_bytes = u32::try_from(bytes.saturating_sub(TAG_BYTES)).unwrap_or(0);
    match full_page(tools.alloc, BYTE, page_bytes) {
        Ok(payload) => seal_payload(payload.as_slice(), tools, slots),
        Err(_) => tools.output.fail(),
    }
}

/// Seals a page with these bytes into each slot, and tells how many there are.
fn seal_payload(payload: &[u8], tools: &mut Tools<'_>, slots: &mut [Vec<u8>]) {
    let start = tools.meter.start();
    let count = seal_each(slots, payload);
    tools.meter.stop(start);
    tools.output.pair("sealed", count);
}

/// Seals a page into each slot that has its length, with a tag of its own, and gives the number of these slots.
fn seal_each(slots: &mut [Vec<u8>], payload: &[u8]) -> u64 {
    let mut count = 0u64;
    for (number, slot) in slots.iter_mut().enumerate() {
        if seal_one(number as u64, payload, slot.as_mut_slice()) {
            count = count.saturating_add(1);
        }
    }
    count
}

/// Seals a page with the tag of a number. False where the slot has another length.
fn seal_one(number: u64, payload: &[u8], slot: &mut [u8]) -> bool {
    if payload.len() > 4096 || slot.len() != payload.len() + TAG_BYTES || number >= MAX_SLOTS {
        return false;
    }
    seal(tag_of(number as u32), payload, slot);
    true
}

/// The tag of a number, and of no other: that of data.
fn tag_of(number: u32) -> Tag
    requires { number < 1048576 }
    ensures tag { IsTag result }
    ensures data { result.kind ≡ Data }
{
    Tag {
        page: Page(u64::from(number)),
        seq: Seq(u64::from(number) + 1),
        kind: Kind::Data,
        die: Die((number % 64) as u8),
        slot: Slot(number),
    }
}

/// Opens each slot, one by one or eight at once, and tells how many are good.
pub(crate) fn open_all_slots(tools: &mut Tools<'_>, slots: &[Vec<u8>], together: bool) {
    let start = tools.meter.start();
    let good = if together {
        count_good_together(slots)
    } else {
        count_good(slots)
    };
    tools.meter.stop(start);
    tools.output.pair("good", good);
}

/// How many of these slots are good.
fn count_good(slots: &[Vec<u8>]) -> u64 {
    let mut good = 0u64;
    for slot in slots {
        good = good.saturating_add(good_one(&open(slot.as_slice())));
    }
    good
}

/// 1 of a good slot, and else 0.
fn good_one(opened: &Opened) -> u64 {
    match opened {
        Opened::Good(_) => 1,
        _ => 0,
    }
}

/// The same, opened eight at once. No clause says what it counts; a script compares it.
fn count_good_together(slots: &[Vec<u8>]) -> u64 {
    let mut good = 0u64;
    for i in 0..slots.len() / LANES {
        let first = LANES * i;
        good = good.saturating_add(count_good_of_eight(&slots[first..first + LANES]));
    }
    good
}

/// How many of eight slots are good.
fn count_good_of_eight(slots: &[Vec<u8>]) -> u64
    requires { length slots.now ≡ 8 }
{
    let eight: [&[u8]; LANES] = [
        slots[0].as_slice(),
        slots[1].as_slice(),
        slots[2].as_slice(),
        slots[3].as_slice(),
        slots[4].as_slice(),
        slots[5].as_slice(),
        slots[6].as_slice(),
        slots[7].as_slice(),
    ];
    let mut opened = [Opened::Bad; LANES];
    open_all(&eight, &mut opened);
    let mut good = 0u64;
    for answer in &opened {
        good = good.saturating_add(good_one(answer));
    }
    good
}
