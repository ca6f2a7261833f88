//! An image beside those of an array, and its bare calls.
ghost use Rattle.std.specs.Prelude.{◌≡◌, ◌<◌, length, IsTrue};
ghost use Rattle.fa_image.specs.Image.{slot_bytes, slot_count};

use fa_image::Image;
use fa_types::{Slot, TAG_BYTES};
use flasharr_lab_parts::{DieImage, Tools, Yard};
use flasharr_lab_words::{Bare, small_at};
use sha2::{Digest, Sha256};
use std::alloc::{AllocError, Global};

/// How many bytes a digest has (SHA-256, FIPS 180-4).
const DIGEST_BYTES: usize = 32;

/// The buffers of calls and jobs on an image.
#[derive(Drop)]
pub struct Buffers {
    /// The bytes of a slot.
    pub scratch: Vec<u8>,
    /// Those of a page.
    pub page: Vec<u8>,
}

/// What is done with slots: from which one on, of how many pages, and how many slots each page is written to.
#[derive(Clone, Copy)]
pub struct Run {
    pub first: u32,
    pub count: u32,
    pub copies: u32,
}

/// The run of these numbers.
pub fn run_of(numbers: &[u64]) -> Run {
    Run {
        first: small_at(numbers, 0),
        count: small_at(numbers, 1),
        copies: small_at(numbers, 2),
    }
}

/// Makes the image, of the geometry of those that were made last, and tells that.
pub fn make_bare<I: DieImage>(tools: &mut Tools<'_>, yard: &mut Yard<'_, I>) {
    yard.bare = match yard.geometry {
        Some(geometry) => I::make(tools.meter.rt, yard.folder, "bare", geometry),
        None => None,
    };
    tools.output.word(if yard.bare.is_some() {
        "made"
    } else {
        "refused: no images"
    });
}

/// Makes bare calls of an image, and gives the word for how that went.
pub fn use_bare<I: Image>(
    wish: Bare,
    image: &mut I,
    run: Run,
    tools: &mut Tools<'_>,
    buffers: &mut Buffers,
) -> &'static str {
    let start = tools.meter.start();
    let is_done = match wish {
        Bare::Read => read_bare(image, run, buffers),
        Bare::Write => write_bare(image, run, buffers),
        _ => erase_bare(image, run),
    };
    tools.meter.stop(start);
    if is_done { "done" } else { "no slot" }
}

/// Memory for a slot, and for a page that has room for a slot. The error is out of memory.
pub fn buffers_of(alloc: Global, page_bytes: u32) -> Result<Buffers, AllocError> {
    let slot_bytes = (page_bytes as usize).saturating_add(TAG_BYTES);
    let scratch = vec![in alloc; 0x5au8; slot_bytes]?;
    let mut page = vec![in alloc; 0u8; slot_bytes]?;
    page.truncate(page_bytes as usize);
    Ok(Buffers { scratch, page })
}

/// Reads slots, one behind the other, and hashes each. False where there is no such slot, or it is not read.
fn read_bare<I: Image>(image: &mut I, run: Run, buffers: &mut Buffers) -> bool {
    let mut slot = run.first;
    for _ in 0..run.count {
        if !fits(image, slot, buffers)
            || image
                .read_slot(Slot(slot), buffers.scratch.as_mut_slice())
                .is_err()
        {
            return false;
        }
        hash(buffers);
        slot = next_slot(image, slot);
    }
    true
}

/// Hashes pages, and programs each to the next slots. False where there is no such slot, or it is not programmed.
fn write_bare<I: Image>(image: &mut I, run: Run, buffers: &mut Buffers) -> bool {
    let mut slot = run.first;
    for _ in 0..run.count {
        hash(buffers);
        for _ in 0..run.copies {
            if !program_bare(image, slot, buffers) {
                return false;
            }
            slot = next_slot(image, slot);
        }
    }
    true
}

/// Programs the bytes of a slot. False where there is no such slot, or it is not programmed.
fn program_bare<I: Image>(image: &mut I, slot: u32, buffers: &mut Buffers) -> bool {
    fits(image, slot, buffers)
        && image
            .program(Slot(slot), buffers.scratch.as_slice())
            .is_ok()
}

/// Erases blocks, one behind the other. False where there is no such block, or it is not erased.
fn erase_bare<I: Image>(image: &mut I, run: Run) -> bool {
    for later in 0..run.count {
        let block = run.first.saturating_add(later);
        if image.geometry().blocks <= block || image.erase_block(block).is_err() {
            return false;
        }
    }
    true
}

/// The slot behind one, and the first behind the last.
pub fn next_slot<I: Image>(image: &I, slot: u32) -> u32 {
    let geometry = image.geometry();
    let next = slot.saturating_add(1);
    if geometry.blocks * geometry.slots <= next {
        0
    } else {
        next
    }
}

/// Whether the image has the slot, and the buffers are as long as its calls want them.
pub fn fits<I: Image>(image: &I, slot: u32, buffers: &Buffers) -> bool
    ensures slot { IsTrue result → slot < slot_count (I.view image.now).geometry }
    ensures few { IsTrue result → slot < 1048576 }
    ensures scratch { IsTrue result → length buffers.now.scratch.items ≡ slot_bytes (I.view image.now).geometry }
    ensures page { IsTrue result → length buffers.now.page.items ≡ (I.view image.now).geometry.page_bytes }
{
    let geometry = image.geometry();
    let page_bytes = geometry.page_bytes as usize;
    slot < geometry.blocks * geometry.slots
        && slot < 1_048_576
        && buffers.scratch.len() == page_bytes + TAG_BYTES
        && buffers.page.len() == page_bytes
}

/// Hashes the bytes of a slot in front of its own digest. The digest stands at the end, so that it is not left out.
fn hash(buffers: &mut Buffers) {
    let bytes = buffers.scratch.as_mut_slice();
    let first = bytes.len().saturating_sub(DIGEST_BYTES);
    let mut hasher = Sha256::new();
    hasher.update(&bytes[..first]);
    let digest = hasher.finalize();
    for (byte, from) in bytes[first..].iter_mut().zip(digest.iter()) {
        *byte = *from;
    }
}
