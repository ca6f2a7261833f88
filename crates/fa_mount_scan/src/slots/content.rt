//! What is found in the slots of a die.
ghost use Rattle.std.specs.Prelude.{◌≡◌};
ghost use Rattle.fa_mount_scan.specs.Content.{content_of};

use fa_machine::Version;
use fa_tag::Opened;
use fa_types::{Die, Page, Slot};
use std::alloc::{Allocator, Global};
use std::marker::Model;

/// What was found in a slot of a die.
#[derive(Clone, Copy)]
pub enum SlotContent {
    /// Nothing was written there since the last erase of its block.
    Erased,
    /// A page of the array, with a tag that names this die and this slot.
    Copy {
        /// The page.
        page: Page,
        /// The write of the page that it is a copy of.
        version: Version,
    },
    /// Anything else: it is of no use, and goes at the next erase of its block.
    Stale,
}

/// What was found in the slots of a die, in their order. Contracts see the list of it.
#[derive(Drop)]
pub struct DieContents<A: Allocator = Global> {
    slots: Vec<SlotContent, A>,
}

impl<A: Allocator> Model for DieContents<A> {
    ghost use Rattle.std.specs.Prelude.{List};
    ghost use Rattle.fa_mount_scan.specs.declared.slots.content.SlotContent.{SlotContent};

    ghost Value = { List SlotContent };

    ghost view = { λ contents. contents.slots.items };
}

impl<A: Allocator> DieContents<A> {
    /// The contents of a die, slot by slot.
    pub(crate) fn new(slots: Vec<SlotContent, A>) -> DieContents<A>
        ensures { result ≡ slots.items }
    {
        DieContents { slots }
    }

    /// What was found in each slot.
    pub fn slots(&self) -> &[SlotContent]
        ensures { result.now ≡ self.now }
    {
        self.slots.as_slice()
    }
}

/// What opened bytes are to an array of so many pages.
pub(crate) fn content_of_opened(opened: Opened, pages: u64, die: Die, slot: Slot) -> SlotContent
    ensures { result ≡ content_of pages die.0 slot.0 opened }
{
    match opened {
        Opened::Erased => SlotContent::Erased,
        Opened::Good(tag) => {
            if tag.page.0 < pages && tag.die.0 == die.0 && tag.slot.0 == slot.0 {
                SlotContent::Copy {
                    page: tag.page,
                    version: Version {
                        seq: tag.seq,
                        kind: tag.kind,
                    },
                }
            } else {
                SlotContent::Stale
            }
        }
        Opened::Bad => SlotContent::Stale,
    }
}
