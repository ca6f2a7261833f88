//! A store whose calls are counted.
ghost use Rattle.std.specs.Prelude.{◌≡◌};

use crate::commands::Command;
use crate::sessions::SessionCounts;
use fa_types::{BlockFault, Blocks};
use std::alloc::Allocator;
use std::time::{Clock, Duration, Instant};

/// A store whose calls a session counts. Each of its calls is the one of the store within.
#[derive(Drop)]
pub struct CountingStore<'a, R, B: Blocks + Drop> {
    blocks: B,
    rt: &'a R,
    counts: Option<&'a SessionCounts>,
}

impl<'a, R: Clock, B: Blocks + Drop> CountingStore<'a, R, B> {
    /// The store, whose calls are counted there.
    pub fn new(rt: &'a R, counts: Option<&'a SessionCounts>, blocks: B) -> CountingStore<'a, R, B>
        ensures { result.blocks ≡ blocks }
    {
        CountingStore { blocks, rt, counts }
    }

    /// The store within.
    pub fn into_blocks(self) -> B
        ensures { result ≡ self.entry.blocks }
    {
        let CountingStore { blocks, .. } = self;
        blocks
    }

    /// When a call begins. None where the clock does not tell.
    fn begin(&self) -> Option<Instant> {
        Instant::now(self.rt).ok()
    }

    /// Counts a call that began then.
    fn end(&self, command: Command, bytes: u64, began: Option<Instant>) {
        let Some(counts) = self.counts else {
            return;
        };
        counts.note_request(command, bytes, took_since(self.rt, began));
    }
}

/// How long it is since then. Nothing where the clock does not tell.
fn took_since<R: Clock>(rt: &R, began: Option<Instant>) -> Duration {
    match began {
        Some(began) => began.elapsed(rt).unwrap_or(Duration::ZERO),
        None => Duration::ZERO,
    }
}

impl<R: Clock, B: Blocks + Drop> Blocks for CountingStore<'_, R, B> {
    ghost view = { λ store. B.view store.blocks };

    ghost made = { λ before call answer after. B.made before.blocks call answer after.blocks };

    ghost meets = { λ before after call answer made. B.meets before.blocks after.blocks call answer made };

    ghost whole = { λ store. B.whole store.blocks };

    fn size(&self) -> u64 {
        self.blocks.size()
    }

    fn page_bytes(&self) -> u32 {
        self.blocks.page_bytes()
    }

    fn read<A: Allocator>(
        &mut self,
        alloc: A,
        offset: u64,
        len: u64,
    ) -> Result<Vec<u8, A>, BlockFault> {
        let began = self.begin();
        let answer = self.blocks.read(alloc, offset, len);
        self.end(Command::Read, len, began);
        answer
    }

    fn write(&mut self, offset: u64, bytes: &[u8], fua: bool) -> Result<(), BlockFault> {
        let began = self.begin();
        let answer = self.blocks.write(offset, bytes, fua);
        self.end(Command::Write, bytes.len() as u64, began);
        answer
    }

    fn zero(&mut self, offset: u64, len: u64, fua: bool, hole: bool) -> Result<(), BlockFault> {
        let began = self.begin();
        let answer = self.blocks.zero(offset, len, fua, hole);
        self.end(Command::Zero, len, began);
        answer
    }

    fn trim(&mut self, offset: u64, len: u64, fua: bool) -> Result<(), BlockFault> {
        let began = self.begin();
        let answer = self.blocks.trim(offset, len, fua);
        self.end(Command::Trim, len, began);
        answer
    }

    fn flush(&mut self) -> Result<(), BlockFault> {
        let began = self.begin();
        let answer = self.blocks.flush();
        self.end(Command::Flush, 0, began);
        answer
    }
}
