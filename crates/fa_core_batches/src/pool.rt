//! Buffers of pages and lists that no batch has.
ghost use Rattle.std.specs.Prelude.{◌≡◌, ◌≤◌, [], true, IfOk, length, replicate, vec_capacity};

use fa_types::{Page, TAG_BYTES};
use std::alloc::{AllocError, Allocator, Global};

/// How many buffers are kept at most: those of a batch of the most pages.
const MAX_BUFFERS: usize = 1024;

/// How many lists of each kind are kept at most: more batches are seldom open at once, and a list may have room for 1,024 pages.
const MAX_LISTS: usize = 64;

/// Buffers and lists that batches had and batches to come may have, so that a batch does not ask for memory that another has just freed.
/// What is in the pool is in no clause.
#[derive(Drop)]
pub(crate) struct Pool<A: Allocator = Global> {
    buffers: Vec<Vec<u8, A>, A>,
    // Lists of pages.
    pages: Vec<Vec<Page, A>, A>,
    // Lists of answers.
    answers: Vec<Vec<(Page, Vec<u8, A>), A>, A>,
}

impl<A: Allocator + Copy> Pool<A> {
    /// An empty pool.
    pub(crate) fn new(alloc: A) -> Pool<A> {
        Pool {
            buffers: Vec::new(alloc),
            pages: Vec::new(alloc),
            answers: Vec::new(alloc),
        }
    }
}

impl<A: Allocator + Clone> Pool<A> {
    /// A buffer of so many bytes, all of them zero where that is asked for. It is one of the pool's, or else a new one. The error is out
    /// of memory.
    pub(crate) fn take(
        &mut self,
        alloc: A,
        len: usize,
        zeros: bool,
    ) -> Result<Vec<u8, A>, AllocError>
        ensures length { IfOk result (λ buffer. length buffer.items ≡ len) }
        ensures zeros { IfOk result (λ buffer. zeros ≡ true → buffer.items ≡ replicate len 0) }
    {
        match self.buffers.pop() {
            Some(buffer) => {
                if buffer.len() == len {
                    Ok(cleared(buffer, zeros))
                } else {
                    new_buffer(alloc, len)
                }
            }
            None => new_buffer(alloc, len),
        }
    }

    /// An empty list of pages with room for so many. It is one of the pool's, or else a new one. The error is out of memory.
    pub(crate) fn take_pages(&mut self, alloc: A, room: usize) -> Result<Vec<Page, A>, AllocError>
        ensures empty { IfOk result (λ list. list.items ≡ []) }
        ensures wide { IfOk result (λ list. room ≤ vec_capacity list) }
    {
        take_kept(&mut self.pages, alloc, room)
    }

    /// An empty list of answers with room for so many. It is one of the pool's, or else a new one. The error is out of memory.
    pub(crate) fn take_answers(
        &mut self,
        alloc: A,
        room: usize,
    ) -> Result<Vec<(Page, Vec<u8, A>), A>, AllocError>
        ensures empty { IfOk result (λ list. list.items ≡ []) }
        ensures wide { IfOk result (λ list. room ≤ vec_capacity list) }
    {
        take_kept(&mut self.answers, alloc, room)
    }

    /// This list of pages comes in, if there is place and memory for it.
    pub(crate) fn put_pages(&mut self, pages: Vec<Page, A>) {
        put_kept(&mut self.pages, pages);
    }

    /// These buffers come in, as many as there is place and memory for, and so does their list. The others are dropped.
    pub(crate) fn put(&mut self, buffers: Vec<(Page, Vec<u8, A>), A>) {
        let mut buffers = buffers;
        for (_, buffer) in buffers.drain(..) {
            if self.buffers.len() < MAX_BUFFERS {
                let _ = self.buffers.push(buffer);
            }
        }
        put_kept(&mut self.answers, buffers);
    }
}

/// An empty list with room for so many: one of those that are kept, or else a new one.
fn take_kept<T: Drop, A: Allocator + Clone>(
    kept: &mut Vec<Vec<T, A>, A>,
    alloc: A,
    room: usize,
) -> Result<Vec<T, A>, AllocError>
    ensures empty { IfOk result (λ list. list.items ≡ []) }
    ensures wide { IfOk result (λ list. room ≤ vec_capacity list) }
{
    match kept.pop() {
        Some(list) => widened(list, room),
        None => Vec::with_capacity(alloc, room),
    }
}

/// The list, emptied, with room for so many.
fn widened<T: Drop, A: Allocator + Clone>(
    list: Vec<T, A>,
    room: usize,
) -> Result<Vec<T, A>, AllocError>
    ensures empty { IfOk result (λ list. list.items ≡ []) }
    ensures wide { IfOk result (λ list. room ≤ vec_capacity list) }
{
    let mut list = list;
    list.clear();
    list.reserve(room)?;
    Ok(list)
}

/// The list is kept, emptied, if it has room for anything, and if there is place and memory for it.
fn put_kept<T: Drop, A: Allocator + Clone>(kept: &mut Vec<Vec<T, A>, A>, list: Vec<T, A>) {
    let mut list = list;
    list.clear();
    if list.capacity() != 0 && kept.len() < MAX_LISTS {
        let _ = kept.push(list);
    }
}

/// A new buffer of so many bytes, all of them zero. It has room for a slot's tag behind them, so that a worker can read a whole slot
/// into it and leave the page.
fn new_buffer<A: Allocator + Clone>(alloc: A, len: usize) -> Result<Vec<u8, A>, AllocError>
    ensures { IfOk result (λ buffer. buffer.items ≡ replicate len 0) }
{
    let Some(slot) = len.checked_add(TAG_BYTES) else {
        return Err(AllocError);
    };
    let mut buffer = vec![in alloc; 0u8; slot]?;
    buffer.truncate(len);
    Ok(buffer)
}

/// The buffer, all of its bytes zero where that is asked for.
fn cleared<A: Allocator>(buffer: Vec<u8, A>, zeros: bool) -> Vec<u8, A>
    ensures length { length result.items ≡ length buffer.items }
    ensures zeros { zeros ≡ true → result.items ≡ replicate (length buffer.items) 0 }
{
    let mut buffer = buffer;
    if zeros {
        buffer.as_mut_slice().fill(0);
    }
    buffer
}
