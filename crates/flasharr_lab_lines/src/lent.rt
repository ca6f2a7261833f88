//! What events and jobs are lent, and what comes back of it.
use fa_tag::Payload;
use fa_types::{Page, TAG_BYTES};
use flasharr_lab_parts::Heap;
use flasharr_lab_words::{Event, fill, full_page};
use std::alloc::{AllocError, Global};

/// The pages of a batch, the payload of a write, and buffers for jobs.
#[derive(Drop)]
pub struct Lent<'a> {
    pages: Vec<Page>,
    payload: Option<Payload<&'a Heap>>,
    /// Buffers of a page's bytes that no job has.
    buffers: Vec<Vec<u8, &'a Heap>>,
    /// The bytes of a slot, for the calls of jobs.
    scratch: Option<Vec<u8, &'a Heap>>,
}

impl<'a> Lent<'a> {
    pub(crate) fn new(alloc: Global) -> Lent<'a> {
        Lent {
            pages: Vec::new(alloc),
            payload: None,
            buffers: Vec::new(alloc),
            scratch: None,
        }
    }

    /// Another array is there, whose pages may have another size.
    pub(crate) fn forget(&mut self) {
        self.payload = None;
        self.buffers.clear();
        self.scratch = None;
    }

    /// The pages of the batch that is admitted.
    pub(crate) fn pages(&self) -> &[Page] {
        self.pages.as_slice()
    }

    /// The payload of the write that is made.
    pub(crate) fn payload(&self) -> Option<&Payload<&'a Heap>> {
        self.payload.as_ref()
    }

    /// What an event with these numbers is lent. The error is out of memory.
    pub fn lend(
        &mut self,
        heap: &'a Heap,
        event: Event,
        numbers: &[u64],
        page_bytes: u32,
    ) -> Result<(), AllocError> {
        match event {
            Event::Admit => self.lend_pages(numbers),
            Event::Reserve | Event::ReserveFewer | Event::ReserveCopy => {
                let last = numbers.last().copied().unwrap_or(0);
                self.payload = Some(payload_of(heap, last, page_bytes)?);
                Ok(())
            }
            _ => Ok(()),
        }
    }

    /// The numbers as pages. The error is out of memory.
    fn lend_pages(&mut self, numbers: &[u64]) -> Result<(), AllocError> {
        self.pages.clear();
        for number in numbers {
            self.pages.push(Page(*number))?;
        }
        Ok(())
    }

    /// A buffer of a page's bytes. The error is out of memory.
    pub(crate) fn buffer(
        &mut self,
        heap: &'a Heap,
        page_bytes: u32,
    ) -> Result<Vec<u8, &'a Heap>, AllocError> {
        match self.buffers.pop() {
            Some(buffer) => Ok(buffer),
            None => vec![in heap; 0u8; page_bytes as usize],
        }
    }

    /// A buffer with the page of a number. The error is out of memory.
    pub fn page(
        &mut self,
        heap: &'a Heap,
        number: u64,
        page_bytes: u32,
    ) -> Result<Vec<u8, &'a Heap>, AllocError> {
        let mut page = self.buffer(heap, page_bytes)?;
        fill(page.as_mut_slice(), number);
        Ok(page)
    }

    /// The bytes of a slot whose page has this length. None where there is no memory for them.
    pub(crate) fn scratch(
        &mut self,
        heap: &'a Heap,
        page_bytes: usize,
    ) -> Option<&mut Vec<u8, &'a Heap>> {
        if self.scratch.is_none() {
            self.scratch = vec![in heap; 0u8; page_bytes.saturating_add(TAG_BYTES)].ok();
        }
        self.scratch.as_mut()
    }

    /// A buffer is free again. The error is out of memory.
    pub(crate) fn keep(&mut self, buffer: Vec<u8, &'a Heap>) -> Result<(), AllocError> {
        self.buffers.push(buffer)?;
        Ok(())
    }
}

/// The payload of a page of a number. The error is out of memory.
fn payload_of<'a>(
    heap: &'a Heap,
    number: u64,
    page_bytes: u32,
) -> Result<Payload<&'a Heap>, AllocError> {
    Payload::new(full_page(heap, number, page_bytes)?)
}
