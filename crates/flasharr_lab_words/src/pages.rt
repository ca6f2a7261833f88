//! What is seen of a page, in words.
use crate::output::Output;
use fa_machine::Version;
use fa_types::{Kind, Page, Slot};

/// The greatest number of dies that an array has.
pub const MAX_DIES: usize = 64;

/// What is seen of a page.
#[derive(Clone, Copy)]
pub struct PageSeen {
    /// Its last write.
    pub version: Option<Version>,
    /// The slot of its current copy on each die.
    pub copies: [Option<Slot>; MAX_DIES],
}

/// The dies that hold a page, as a mask.
fn holders(seen: &PageSeen) -> u64 {
    let mut mask = 0;
    for (die, copy) in seen.copies.iter().enumerate() {
        if copy.is_some() {
            mask |= bit_of(die);
        }
    }
    mask
}

/// The bit of a die in a mask.
pub fn bit_of(die: usize) -> u64 {
    if die < MAX_DIES { 1 << die } else { 0 }
}

/// A page with its last write and its current copies, or that there is no such page.
pub fn show_page(page: Page, seen: &Option<PageSeen>, output: &mut Output) {
    output.pair("page", page.0);
    match seen {
        Some(seen) => show_seen(seen, output),
        None => output.word("none"),
    }
}

/// A page's last write and its current copies.
fn show_seen(seen: &PageSeen, output: &mut Output) {
    match seen.version {
        Some(version) => {
            show_version(version, output);
            show_copies(seen.copies.as_slice(), output);
        }
        None => output.word("never written"),
    }
}

/// The current copies of a page, of which each die may have one.
fn show_copies(copies: &[Option<Slot>], output: &mut Output) {
    for (die, copy) in copies.iter().enumerate() {
        if let Some(slot) = copy {
            output.pair("at", die as u64);
            output.number(u64::from(slot.0));
        }
    }
}

/// The number of a page's last write, and the dies that hold it. Nothing where there is no such page.
pub fn show_page_word(seen: &Option<PageSeen>, output: &mut Output) {
    if let Some(seen) = seen {
        show_version_word(seen.version, output);
        output.join(":");
        output.digits(holders(seen));
    }
}

/// The number of a page's last write, and an `h` where it made the page a hole. 0 where the page was never written.
fn show_version_word(version: Option<Version>, output: &mut Output) {
    match version {
        Some(version) => {
            output.number(version.seq.0);
            output.join(match version.kind {
                Kind::Hole => "h",
                Kind::Data => "",
            });
        }
        None => output.number(0),
    }
}

/// A write of a page: its number, and whether it made the page a hole.
pub fn show_version(version: Version, output: &mut Output) {
    output.pair("seq", version.seq.0);
    match version.kind {
        Kind::Hole => output.word("hole"),
        Kind::Data => {}
    }
}
