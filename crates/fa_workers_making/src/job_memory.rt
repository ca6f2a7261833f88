//! Memory for the jobs of a die.
ghost use Rattle.std.specs.Prelude.{◌≡◌, ◌+◌, IfOk, length};

use fa_types::TAG_BYTES;
use std::alloc::{AllocError, Allocator, Global};

/// Memory for the jobs of a die. It is made before the die's thread is started.
#[derive(Drop)]
pub struct JobMemory<A: Allocator = Global> {
    /// A slot's bytes.
    pub scratch: Vec<u8, A>,
    /// A page's bytes, with memory for a slot's.
    pub buffer: Vec<u8, A>,
}

impl<A: Allocator + Copy> JobMemory<A> {
    /// Memory for the jobs of a die whose pages have so many bytes. The error is out of memory.
    pub fn new(alloc: A, page_bytes: u32) -> Result<JobMemory<A>, AllocError>
        ensures scratch { IfOk result (λ memory. length memory.scratch.items ≡ page_bytes + 64) }
        ensures buffer { IfOk result (λ memory. length memory.buffer.items ≡ page_bytes) }
    {
        let page = page_bytes as usize;
        let scratch = vec![in alloc; 0u8; page + TAG_BYTES]?;
        let mut buffer = vec![in alloc; 0u8; page + TAG_BYTES]?;
        buffer.truncate(page);
        Ok(JobMemory { scratch, buffer })
    }
}
