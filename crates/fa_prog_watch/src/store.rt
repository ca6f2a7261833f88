//! The store of an array that tells nobody of a lost page before that stands in the file of lost pages.
ghost use Rattle.std.specs.Prelude.{◌≡◌};

use crate::losses::Losses;
use crate::watched::Watched;
use fa_prog_clients::Networked;
use fa_types::{BlockFault, Blocks};
use std::alloc::Allocator;

/// A store over an array that is watched. Each of its calls is the one of the store within; an answer that a page is lost waits for the file.
#[derive(Drop)]
pub struct TellingStore<'a, R, W, B: Blocks + Drop> {
    blocks: B,
    rt: &'a R,
    watched: &'a W,
    losses: &'a Losses<'a>,
}

impl<'a, R: Networked, W: Watched, B: Blocks + Drop> TellingStore<'a, R, W, B> {
    /// The store over an array, with what is known of its lost pages.
    pub fn new(
        rt: &'a R,
        watched: &'a W,
        losses: &'a Losses<'a>,
        blocks: B,
    ) -> TellingStore<'a, R, W, B>
        ensures { result.blocks ≡ blocks }
    {
        TellingStore {
            blocks,
            rt,
            watched,
            losses,
        }
    }

    /// The store within.
    pub fn into_blocks(self) -> B
        ensures { result ≡ self.entry.blocks }
    {
        let TellingStore { blocks, .. } = self;
        blocks
    }

    /// Where an answer tells of a lost page, has it in the file before.
    fn before<T>(&self, answer: &Result<T, BlockFault>) {
        if matches!(answer, Err(BlockFault::Lost)) {
            self.losses.keep_before_answer(self.rt, self.watched);
        }
    }
}

impl<R: Networked, W: Watched, B: Blocks + Drop> Blocks for TellingStore<'_, R, W, B> {
    ghost view = { λ store. B.view store.blocks };

    ghost made = { λ before call answer after. B.made before.blocks call answer after.blocks };

    ghost meets = { λ before after call answer made. B.meets before.blocks after.blocks call answer made };

    ghost whole = { λ store. B.whole store.blocks };

    fn size(&self) -> u64 {
        self.blocks.size()
    }

    fn page_bytes(&self) -> u32 {
        self.blocks.page_bytes()
    }

    fn read<A: Allocator>(
        &mut self,
        alloc: A,
        offset: u64,
        len: u64,
    ) -> Result<Vec<u8, A>, BlockFault> {
        let answer = self.blocks.read(alloc, offset, len);
        self.before(&answer);
        answer
    }

    fn write(&mut self, offset: u64, bytes: &[u8], fua: bool) -> Result<(), BlockFault> {
        let answer = self.blocks.write(offset, bytes, fua);
        self.before(&answer);
        answer
    }

    fn zero(&mut self, offset: u64, len: u64, fua: bool, hole: bool) -> Result<(), BlockFault> {
        let answer = self.blocks.zero(offset, len, fua, hole);
        self.before(&answer);
        answer
    }

    fn trim(&mut self, offset: u64, len: u64, fua: bool) -> Result<(), BlockFault> {
        let answer = self.blocks.trim(offset, len, fua);
        self.before(&answer);
        answer
    }

    fn flush(&mut self) -> Result<(), BlockFault> {
        let answer = self.blocks.flush();
        self.before(&answer);
        answer
    }
}
