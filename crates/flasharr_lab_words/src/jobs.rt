//! What a die is at, in words.
use crate::dies::show_live;
use crate::output::Output;
use crate::pages::show_version;
use fa_image::ImageFault;
use fa_machine::{Flight, Version};
use fa_types::{Page, Slot};

/// What a job is to do.
pub fn show_flight(flight: Flight, output: &mut Output) {
    match flight {
        Flight::Header { epoch, live } => {
            output.pair("header epoch", epoch);
            show_live(live, output);
        }
        Flight::Move {
            page,
            version,
            from,
            to,
        } => show_move(page, version, from, to, output),
        Flight::Erase { block } => output.pair("erase", u64::from(block.0)),
        Flight::Read {
            page,
            version,
            slot,
            ..
        } => show_slot("read page", page, version, slot, output),
        Flight::Program {
            page,
            version,
            slot,
        } => show_slot("program page", page, version, slot, output),
        Flight::Sync { .. } => output.word("sync"),
    }
}

fn show_move(page: Page, version: Version, from: Slot, to: Slot, output: &mut Output) {
    output.pair("move page", page.0);
    show_version(version, output);
    output.pair("from", u64::from(from.0));
    output.pair("to", u64::from(to.0));
}

fn show_slot(word: &str, page: Page, version: Version, slot: Slot, output: &mut Output) {
    output.pair(word, page.0);
    show_version(version, output);
    output.pair("slot", u64::from(slot.0));
}

/// The call that an image refused.
pub fn call_word(fault: ImageFault) -> &'static str {
    match fault {
        ImageFault::ReadSlot => "read",
        ImageFault::Program => "program",
        ImageFault::EraseBlock => "erase",
        ImageFault::ReadHeader => "read header",
        ImageFault::WriteHeader => "header",
        ImageFault::Sync => "sync",
    }
}
