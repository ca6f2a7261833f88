//! Jobs on an image beside those of an array.
ghost use Rattle.std.specs.Prelude.{◌≡◌, ◌+◌, ◌<◌};
ghost use Rattle.fa_types.specs.declared.kind.Kind.TheVariants.{Data};

use fa_core_outcome::{Job, Outcome};
use fa_image::Image;
use fa_jobs::{Open, run_job};
use fa_machine::{BatchId, Flight, Version};
use fa_tag::{Opened, Payload};
use fa_types::{Die, Kind, Page, Seq, Slot};
use flasharr_lab_calls::{Buffers, Run, buffers_of, fits, make_bare, next_slot, run_of, use_bare};
use flasharr_lab_parts::{ARRAY, DieImage, Tools, Yard};
use flasharr_lab_words::{Bare, full_page};
use std::alloc::{AllocError, Global};

/// The die that the image is of.
const DIE: Die = Die(0);

/// Does what a line asks of the image beside those of the array, and tells it.
pub fn do_bare<I: DieImage>(
    wish: Bare,
    numbers: &[u64],
    tools: &mut Tools<'_>,
    yard: &mut Yard<'_, I>,
) {
    match wish {
        Bare::New => make_bare(tools, yard),
        _ => use_image(wish, run_of(numbers), tools, &mut yard.bare),
    }
}

/// Does what a line asks of an image, if there is one, and tells how that went.
fn use_image<I: Image>(wish: Bare, run: Run, tools: &mut Tools<'_>, image: &mut Option<I>) {
    let word = match image {
        Some(image) => use_buffered(wish, image, run, tools),
        None => "no slot",
    };
    tools.output.word(word);
}

/// Does what a line asks of an image with buffers for it, and gives the word for how that went.
fn use_buffered<I: Image>(
    wish: Bare,
    image: &mut I,
    run: Run,
    tools: &mut Tools<'_>,
) -> &'static str {
    match buffers_of(tools.alloc, image.geometry().page_bytes) {
        Ok(mut buffers) => use_with(wish, image, run, tools, &mut buffers),
        Err(_) => "failed",
    }
}

/// The same with these buffers.
fn use_with<I: Image>(
    wish: Bare,
    image: &mut I,
    run: Run,
    tools: &mut Tools<'_>,
    buffers: &mut Buffers,
) -> &'static str {
    match wish {
        Bare::ReadJob => read_all(image, run, tools, buffers),
        Bare::ProgramJob => program_all(image, run, tools, buffers),
        _ => use_bare(wish, image, run, tools, buffers),
    }
}

/// Makes a Program job of each slot. The payload of its page is made within its time, and freed behind all times.
fn program_all<I: Image>(
    image: &mut I,
    run: Run,
    tools: &mut Tools<'_>,
    buffers: &mut Buffers,
) -> &'static str {
    let mut written = Vec::new(tools.alloc);
    match pages_of(
        tools.alloc,
        run.count,
        image.geometry().page_bytes,
        &mut written,
    ) {
        Ok(mut pages) => {
            let start = tools.meter.start();
            let is_done = program_each(image, run, &mut pages, &mut written, buffers);
            tools.meter.stop(start);
            if is_done { "done" } else { "failed" }
        }
        Err(_) => "failed",
    }
}

/// The pages that are programmed, and room for their payloads. The error is out of memory.
fn pages_of(
    alloc: Global,
    count: u32,
    page_bytes: u32,
    written: &mut Vec<Payload>,
) -> Result<Vec<Vec<u8>>, AllocError> {
    let mut pages = Vec::new(alloc);
    for number in 0..count {
        pages.push(full_page(alloc, u64::from(number % 256), page_bytes)?)?;
    }
    written.reserve(pages.len())?;
    Ok(pages)
}

/// A Program job of each slot. False where one is not done.
fn program_each<I: Image>(
    image: &mut I,
    run: Run,
    pages: &mut Vec<Vec<u8>>,
    written: &mut Vec<Payload>,
    buffers: &mut Buffers,
) -> bool {
    let mut slot = run.first;
    for _ in 0..run.count {
        if !program_next(image, slot, pages, written, buffers) {
            return false;
        }
        slot = next_slot(image, slot);
    }
    true
}

/// A Program job of the next page. False where there is none, or it is not done.
fn program_next<I: Image>(
    image: &mut I,
    slot: u32,
    pages: &mut Vec<Vec<u8>>,
    written: &mut Vec<Payload>,
    buffers: &mut Buffers,
) -> bool {
    match pages.pop() {
        Some(page) => program_page(image, slot, page, written, buffers),
        None => false,
    }
}

/// Makes a payload of a page, and a Program job of it. False where that is not done.
fn program_page<I: Image>(
    image: &mut I,
    slot: u32,
    page: Vec<u8>,
    written: &mut Vec<Payload>,
    buffers: &mut Buffers,
) -> bool {
    match payload_of(page, written) {
        Ok(payload) => program(image, slot, payload, buffers) == Some(Outcome::Programmed),
        Err(_) => false,
    }
}

/// The payload of a page. It is kept, as for whoever writes the page's other copy. The error is out of memory.
fn payload_of(page: Vec<u8>, written: &mut Vec<Payload>) -> Result<Payload, AllocError> {
    let payload = Payload::new(page)?;
    written.push(payload.share()?)?;
    Ok(payload)
}

/// A Program job of a slot. None where the image has no such slot, or pages of another length.
fn program<I: Image>(
    image: &mut I,
    slot: u32,
    payload: Payload,
    buffers: &mut Buffers,
) -> Option<Outcome> {
    let page_bytes = image.geometry().page_bytes as usize;
    if payload.bytes().len() != page_bytes || !fits(image, slot, buffers) {
        return None;
    }
    let job = Job {
        flight: Flight::Program {
            page: Page(u64::from(slot)),
            version: version_of(slot),
            slot: Slot(slot),
        },
        payload: Some(payload),
        lasting: false,
    };
    Some(run_job(
        DIE,
        image,
        &ARRAY,
        &job,
        &mut buffers.scratch,
        &mut buffers.page,
        &Open,
    ))
}

/// Makes a Read job of each slot.
fn read_all<I: Image>(
    image: &mut I,
    run: Run,
    tools: &mut Tools<'_>,
    buffers: &mut Buffers,
) -> &'static str {
    let start = tools.meter.start();
    let is_done = read_each(image, run, buffers);
    tools.meter.stop(start);
    if is_done { "done" } else { "no slot" }
}

/// A Read job of each slot. False where one gives no good slot.
fn read_each<I: Image>(image: &mut I, run: Run, buffers: &mut Buffers) -> bool {
    let mut slot = run.first;
    for _ in 0..run.count {
        match read(image, slot, buffers) {
            Some(Outcome::Read(Opened::Good(_))) => {}
            _ => return false,
        }
        slot = next_slot(image, slot);
    }
    true
}

/// A Read job of a slot. None where the image has no such slot, or pages of another length.
fn read<I: Image>(image: &mut I, slot: u32, buffers: &mut Buffers) -> Option<Outcome> {
    if !fits(image, slot, buffers) {
        return None;
    }
    let job: Job = Job {
        flight: Flight::Read {
            batch: BatchId(0),
            page: Page(u64::from(slot)),
            version: version_of(slot),
            slot: Slot(slot),
        },
        payload: None,
        lasting: false,
    };
    Some(run_job(
        DIE,
        image,
        &ARRAY,
        &job,
        &mut buffers.scratch,
        &mut buffers.page,
        &Open,
    ))
}

/// The write that a slot holds.
fn version_of(slot: u32) -> Version
    requires { slot < 1048576 }
    ensures { result ≡ record { seq = record { 0 = slot + 1 }; kind = Data } }
{
    Version {
        seq: Seq(u64::from(slot) + 1),
        kind: Kind::Data,
    }
}
