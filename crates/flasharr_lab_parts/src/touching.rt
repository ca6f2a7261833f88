//! What is done to the images themselves, and looks at them.
ghost use Rattle.std.specs.Prelude.{◌≡◌, IsTrue};
ghost use Rattle.fa_types.specs.declared.kind.Kind.TheVariants.{Data};
ghost use Rattle.fa_tag.specs.SlotGrammar.{IsTag};

use crate::die_image::DieImage;
use crate::images::{Images, overwrites, rig};
use fa_image::Image;
use fa_machine::Version;
use fa_tag::{Opened, Tag, open, open_header, seal, seal_1};
use fa_types::{HEADER_BYTES, Kind, Page, Seq, Slot, TAG_BYTES};
use flasharr_lab_words::{
    Deed, Order, Output, bytes_of, die_of, full_page, index_of, number_at, show_content, show_live,
    show_version, small_at,
};
use std::alloc::{AllocError, Global};

/// The byte of a header that has its format.
const FORMAT_AT: usize = 11;

/// The bytes of a page, and room for its slot.
#[derive(Drop)]
struct PageWithSlot {
    payload: Vec<u8>,
    slot: Vec<u8>,
}

/// Does what a line asks of images, and tells it.
pub fn touch<I: DieImage>(
    order: &Order,
    deed: Deed,
    alloc: Global,
    images: &mut Images<'_, I>,
    output: &mut Output,
) {
    let numbers = order.numbers.as_slice();
    let place = index_of(number_at(numbers, 0));
    match deed {
        Deed::Overwrites => output.pair("overwrites", overwrites(images.as_slice())),
        Deed::Faults => show_faults(images.as_slice(), output),
        Deed::Rig => {
            let is_rigged = rig(images, place, number_at(numbers, 1), number_at(numbers, 2));
            show_armed(is_rigged, output);
        }
        Deed::Lie => {
            let is_rigged = rig(images, place, 0, number_at(numbers, 1));
            show_armed(is_rigged, output);
        }
        _ => touch_at(order, deed, alloc, images.get_mut(place), output),
    }
}

fn show_armed(is_armed: bool, output: &mut Output) {
    output.word(if is_armed { "armed" } else { "no die" });
}

/// Does what a line asks of the image at a place, and tells it, or that there is none.
fn touch_at<I: DieImage>(
    order: &Order,
    deed: Deed,
    alloc: Global,
    image: Option<&mut I>,
    output: &mut Output,
) {
    match image {
        Some(image) => touch_one(order, deed, alloc, image, output),
        None => output.word(match deed {
            Deed::Put { .. } => "not written",
            _ => "no die",
        }),
    }
}

/// Does what a line asks of one image, and tells it.
fn touch_one<I: DieImage>(
    order: &Order,
    deed: Deed,
    alloc: Global,
    image: &mut I,
    output: &mut Output,
) {
    let numbers = order.numbers.as_slice();
    match deed {
        Deed::Put { is_old } => {
            let is_written = put(alloc, image, numbers, is_old);
            show_written(is_written, output);
        }
        Deed::Slot => show_slot(alloc, image, Slot(small_at(numbers, 1)), output),
        Deed::Header => show_header(image, output),
        Deed::ReadHeader => show_header_bytes(alloc, image, output),
        Deed::WriteHeader => write_header(alloc, image, order.text.as_str(), output),
        _ => {
            image.set_fuse(number_at(numbers, 1));
            output.word("armed");
        }
    }
}

fn show_written(is_written: bool, output: &mut Output) {
    output.word(if is_written { "written" } else { "not written" });
}

/// Tells how often each image refused a call, how often its second fuse did, and whether it gave wrong bytes.
fn show_faults<I: DieImage>(images: &[I], output: &mut Output) {
    output.word("faults");
    for image in images {
        let marks = image.marks();
        output.number(image.faults());
        output.number(marks.second_faults);
        output.number(u64::from(marks.has_lied));
    }
}

/// Programs a slot of the die that has the image's place, with a page of the last number. Whether that was possible.
fn put<I: Image>(alloc: Global, image: &mut I, numbers: &[u64], is_old: bool) -> bool {
    let tag = Tag {
        page: Page(number_at(numbers, 2)),
        seq: Seq(number_at(numbers, 3)),
        kind: Kind::Data,
        die: die_of(number_at(numbers, 0)),
        slot: Slot(small_at(numbers, 1)),
    };
    match page_with_slot(alloc, number_at(numbers, 4), image.geometry().page_bytes) {
        Ok(mut both) => put_slot(
            image,
            tag,
            both.payload.as_slice(),
            both.slot.as_mut_slice(),
            is_old,
        ),
        Err(_) => false,
    }
}

/// The page of a number, and room for its slot. The error is out of memory.
fn page_with_slot(alloc: Global, number: u64, page_bytes: u32) -> Result<PageWithSlot, AllocError> {
    let slot_bytes = (page_bytes as usize).saturating_add(TAG_BYTES);
    let payload = full_page(alloc, number, page_bytes)?;
    let slot = vec![in alloc; 0u8; slot_bytes]?;
    Ok(PageWithSlot { payload, slot })
}

/// Programs data with its tag into its slot, in version 1 where it is old. Whether that was possible.
fn put_slot<I: Image>(
    image: &mut I,
    tag: Tag,
    payload: &[u8],
    slot: &mut [u8],
    is_old: bool,
) -> bool {
    let geometry = image.geometry();
    let page_bytes = geometry.page_bytes as usize;
    if geometry.blocks * geometry.slots <= tag.slot.0
        || payload.len() != page_bytes
        || slot.len() != page_bytes + TAG_BYTES
        || !is_data_tag(tag)
    {
        return false;
    }
    if is_old {
        seal_1(tag, payload, slot);
    } else {
        seal(tag, payload, slot);
    }
    image.program(tag.slot, slot).is_ok()
}

/// Whether a slot can have this tag, which is of data.
fn is_data_tag(tag: Tag) -> bool
    ensures fields { IsTrue result → IsTag tag }
    ensures data { IsTrue result → tag.kind ≡ Data }
{
    tag.kind == Kind::Data
        && tag.page.0 < 1_048_576
        && tag.seq.0 >= 1
        && tag.seq.0 < 1 << 62
        && tag.die.0 < 64
        && tag.slot.0 < 1_048_576
}

/// Tells what the header of an image says.
fn show_header<I: Image>(image: &mut I, output: &mut Output) {
    let mut bytes = [0; HEADER_BYTES];
    match image.read_header(&mut bytes) {
        Ok(()) => show_opened(&bytes, output),
        Err(fault) => output.refusal(&fault),
    }
}

/// Tells what the bytes of a header say.
fn show_opened(bytes: &[u8; HEADER_BYTES], output: &mut Output) {
    match open_header(bytes) {
        Some(header) => {
            output.pair("format", u64::from(bytes[FORMAT_AT]));
            output.pair("epoch", header.epoch);
            show_live(header.mask, output);
            output.word(if header.clean { "clean" } else { "not clean" });
        }
        None => output.word("no header"),
    }
}

/// Tells the bytes of an image's header.
fn show_header_bytes<I: Image>(alloc: Global, image: &mut I, output: &mut Output) {
    let mut bytes = [0; HEADER_BYTES];
    match image.read_header(&mut bytes) {
        Ok(()) => {
            output.word("header");
            output.bytes(alloc, bytes.as_slice());
        }
        Err(fault) => output.refusal(&fault),
    }
}

/// Gives an image's header the bytes that digits spell.
fn write_header<I: Image>(alloc: Global, image: &mut I, digits: &str, output: &mut Output) {
    let mut bytes = [0; HEADER_BYTES];
    if is_spelled(alloc, digits, &mut bytes) {
        match image.write_header(&bytes) {
            Ok(()) => output.word("written"),
            Err(fault) => output.refusal(&fault),
        }
    } else {
        output.word("not written");
    }
}

/// Whether digits spell a header, whose bytes these are then.
fn is_spelled(alloc: Global, digits: &str, bytes: &mut [u8; HEADER_BYTES]) -> bool {
    match bytes_of(alloc, digits) {
        Some(found) if found.len() == HEADER_BYTES => {
            bytes.copy_from_slice(found.as_slice());
            true
        }
        _ => false,
    }
}

/// Tells what stands in a slot of an image.
fn show_slot<I: Image>(alloc: Global, image: &mut I, slot: Slot, output: &mut Output) {
    let page_bytes = image.geometry().page_bytes as usize;
    match vec![in alloc; 0u8; page_bytes.saturating_add(TAG_BYTES)] {
        Ok(scratch) => {
            let mut scratch = scratch;
            show_slot_in(image, slot, scratch.as_mut_slice(), output);
        }
        Err(_) => output.fail(),
    }
}

/// The same with these bytes for the slot.
fn show_slot_in<I: Image>(image: &mut I, slot: Slot, scratch: &mut [u8], output: &mut Output) {
    let geometry = image.geometry();
    let page_bytes = geometry.page_bytes as usize;
    if geometry.blocks * geometry.slots <= slot.0 || scratch.len() != page_bytes + TAG_BYTES {
        output.word("no slot");
        return;
    }
    match image.read_slot(slot, scratch) {
        Ok(()) => show_found(open(scratch), &scratch[..page_bytes], output),
        Err(fault) => output.refusal(&fault),
    }
}

/// Tells what a slot was found to be, and the page of a good one.
fn show_found(opened: Opened, page: &[u8], output: &mut Output) {
    match opened {
        Opened::Good(tag) => {
            output.pair("page", tag.page.0);
            show_version(
                Version {
                    seq: tag.seq,
                    kind: tag.kind,
                },
                output,
            );
            show_content("of", page, output);
        }
        Opened::Erased => output.word("erased"),
        Opened::Bad => output.word("bad"),
    }
}
