//! The plain store: bytes in memory, with no dies.
#![tactic(auto)]

ghost use Rattle.std.specs.Prelude.{◌≡◌, ◌+◌, ◌≤◌, length, replicate, IfOk};
ghost use Rattle.fa_plain_store.specs.Memory.{without_pages};

use fa_types::bytes::{fill, part, put};
use fa_types::{BlockFault, Blocks};
use std::alloc::{AllocError, Allocator, Global};
use std::marker::Model;

/// How many bytes a page of the plain store has.
const PAGE_BYTES: usize = 512;

/// A store whose bytes lie in memory. It loses nothing, and only a read can be refused, where it is out
/// of memory.
#[derive(Drop)]
pub struct MemBlocks<A: Allocator = Global> {
    bytes: Vec<u8, A>,
}

impl<A: Allocator> Model for MemBlocks<A> {
    ghost use Rattle.std.specs.Prelude.{List, ℕ};

    ghost Value = { List ℕ };

    ghost view = { λ s. s.bytes.items };
}

impl<A: Allocator> MemBlocks<A> {
    /// A store of so many zero bytes.
    pub fn new(alloc: A, size: u64) -> Result<MemBlocks<A>, AllocError>
        ensures { IfOk result (λ store. store ≡ replicate size 0) }
    {
        let bytes = vec![in alloc; 0u8; size as usize]?;
        Ok(MemBlocks { bytes })
    }
}

impl<A: Allocator> Blocks for MemBlocks<A> {
    ghost use Rattle.fa_plain_store.specs.Memory.{memory_view, MemoryMade};
    ghost use Rattle.fa_plain_store.specs.MemoryMeets.{memory_meets, memory_whole};

    ghost view = { memory_view };

    ghost made = { MemoryMade };

    ghost meets = { λ before after call answer made. memory_meets before after call answer made };

    ghost whole = { memory_whole };

    fn size(&self) -> u64 {
        self.bytes.len() as u64
    }

    fn page_bytes(&self) -> u32 {
        PAGE_BYTES as u32
    }

    fn read<B: Allocator>(
        &mut self,
        alloc: B,
        offset: u64,
        len: u64,
    ) -> Result<Vec<u8, B>, BlockFault> {
        let bytes = part(self.bytes.as_slice(), offset as usize, len as usize);
        Vec::from_slice(alloc, bytes).map_err(|_| BlockFault::NoMemory)
    }

    fn write(&mut self, offset: u64, bytes: &[u8], _fua: bool) -> Result<(), BlockFault> {
        put(self.bytes.as_mut_slice(), offset as usize, bytes);
        Ok(())
    }

    fn zero(&mut self, offset: u64, len: u64, _fua: bool, _hole: bool) -> Result<(), BlockFault> {
        fill(self.bytes.as_mut_slice(), offset as usize, len as usize, 0);
        Ok(())
    }

    fn trim(&mut self, offset: u64, len: u64, _fua: bool) -> Result<(), BlockFault> {
        clear_pages(self.bytes.as_mut_slice(), offset as usize, len as usize);
        Ok(())
    }

    fn flush(&mut self) -> Result<(), BlockFault> {
        Ok(())
    }
}

/// Makes zeros of the pages that lie wholly among the `len` bytes from an offset.
fn clear_pages(bytes: &mut [u8], offset: usize, len: usize)
    requires { offset + len ≤ length bytes.old }
    ensures { bytes.new ≡ without_pages offset len bytes.old }
{
    let first = offset.div_ceil(PAGE_BYTES);
    let past = (offset + len) / PAGE_BYTES;
    if first < past {
        fill(bytes, first * PAGE_BYTES, (past - first) * PAGE_BYTES, 0);
    }
}
