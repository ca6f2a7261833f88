//! How jobs end.
use fa_core_outcome::Outcome;
use fa_image::ImageFault;
use fa_machine::{Flight, Version};
use fa_tag::{Opened, Tag};
use fa_types::{Die, Page, Slot};
use flasharr_lab_words::Ending;

/// How a die's job ends by a line's word.
pub fn outcome_of(die: Die, flight: Option<Flight>, ending: Ending) -> Outcome {
    match ending {
        Ending::Well => outcome_without_data(flight),
        Ending::Data => Outcome::Read(slot_read(die, flight, 0)),
        Ending::OtherPage => Outcome::Read(slot_read(die, flight, 1)),
        Ending::Erased => Outcome::Read(Opened::Erased),
        Ending::Bad => Outcome::Read(Opened::Bad),
        Ending::Wrong => Outcome::Wrong,
        Ending::Fault => Outcome::Fault(ImageFault::ReadSlot),
    }
}

/// What a job that gives no data ends with where all went well.
fn outcome_without_data(flight: Option<Flight>) -> Outcome {
    match flight {
        Some(Flight::Header { .. }) => Outcome::HeaderWritten,
        Some(Flight::Move { .. }) => Outcome::Moved,
        Some(Flight::Erase { .. }) => Outcome::Erased,
        Some(Flight::Program { .. }) => Outcome::Programmed,
        Some(Flight::Sync { .. }) | Some(Flight::Read { .. }) | None => Outcome::Synced,
    }
}

/// What any job ends with where all went well.
pub(crate) fn good_outcome(die: Die, flight: Flight) -> Outcome {
    match flight {
        Flight::Read { .. } => Outcome::Read(slot_read(die, Some(flight), 0)),
        _ => outcome_without_data(Some(flight)),
    }
}

/// The slot that a read asks for, as its tag says, or with another page where `further` is not 0.
pub(crate) fn slot_read(die: Die, flight: Option<Flight>, further: u64) -> Opened {
    match flight {
        Some(
            Flight::Read {
                page,
                version,
                slot,
                ..
            },
        ) => Opened::Good(tag_of(die, Page(page.0 ^ further), version, slot)),
        _ => Opened::Bad,
    }
}

/// The tag of a page's copy.
fn tag_of(die: Die, page: Page, version: Version, slot: Slot) -> Tag {
    Tag {
        page,
        seq: version.seq,
        kind: version.kind,
        die,
        slot,
    }
}
