//! The store of one thread.
ghost use Rattle.std.specs.Prelude.{◌≡◌, ◌*◌, ◌^◌, ◌≤◌, IfErr, IfOk};
ghost use Rattle.fa_faults.specs.Faults.{faults_of};
ghost use Rattle.fa_solo_job.specs.Inner.{house_in, house_of};

use crate::whole::{call, call_flush, call_read};
use fa_core_calls::Events;
use fa_faults::Fault;
use fa_image::Image;
use fa_shared_steps::Request;
use fa_solo_job::{Inner, Parts};
use fa_types::{BlockFault, Blocks, Geometry, Round};
use std::alloc::{AllocError, Allocator, Global};
use std::sync::ledger::{Blank, Ledger};

/// A block store over an array that nobody else uses, and over its images. All is done within its calls, by the thread that makes them:
/// the jobs of dies, the windows of the collector, spares, and copies of thin pages.
#[derive(Drop)]
pub struct Solo<L: Ledger, E: Events<A>, I: Image, A: Allocator + Copy = Global> {
    inner: Inner<L, E, I, A>,
    bytes: u64,
    page_bytes: u32,
    ghost some_bytes: { 1 ≤ page_bytes },
    ghost small_pages: { page_bytes ≤ 4096 },
    ghost few_bytes: { bytes ≤ 4294967296 },
}

impl<L: Ledger, E: Events<A>, I: Image, A: Allocator + Copy> Solo<L, E, I, A> {
    /// The store of an array over the images from which it was mounted, with a ledger of 257 parts that nothing else names. No job, claim,
    /// batch or copy of the array is open. A window of the collector has so many rounds, 1 to 64. Where memory is refused the array and the
    /// images are handed back.
    pub fn new(
        alloc: A,
        blank: Blank,
        parts: Parts<E, I, A>,
        window_rounds: u64,
    ) -> Result<Solo<L, E, I, A>, Parts<E, I, A>>
        requires name { blank.name ≡ L.name }
        requires parts { (blank.parts ≡ L.parts) × (blank.parts ≡ 257) }
        requires whole { E.whole parts.array }
        requires window { (1 ≤ window_rounds) × (window_rounds ≤ 64) }
        ensures house { IfOk result (λ store. house_of store.inner ≡ house_in E.core parts) }
        ensures number { IfOk result (λ store. store.inner.locked.number ≡ E.number parts.array) }
        ensures dies { IfOk result (λ store. store.inner.dies ≡ parts.dies) }
        ensures bytes { IfOk result (λ store. store.bytes ≡ store.inner.locked.core.page_map.geometry.pages
            * store.inner.locked.core.page_map.geometry.page_bytes) }
        ensures page { IfOk result (λ store. store.page_bytes ≡ store.inner.locked.core.page_map.geometry.page_bytes) }
        ensures refused { IfErr result (λ back. back ≡ parts) }
    {
        let (bytes, page_bytes) = store_bytes(parts.array.geometry());
        match Inner::new(alloc, blank, parts, window_rounds) {
            Ok(inner) => Ok(Solo {
                inner,
                bytes,
                page_bytes,
            }),
            Err(parts) => Err(parts),
        }
    }

    /// The array and its images.
    pub fn into_parts(self) -> Parts<E, I, A>
        ensures whole { E.whole result.array }
        ensures house { house_in E.core result ≡ house_of self.inner }
        ensures number { E.number result.array ≡ self.inner.locked.number }
        ensures dies { result.dies ≡ self.inner.dies }
    {
        let Solo { inner, .. } = self;
        inner.into_parts()
    }

    /// The last 64 faults that took dies out, the oldest first. The error is out of memory.
    pub fn faults<B: Allocator>(&self, alloc: B) -> Result<Vec<Fault, B>, AllocError>
        ensures { IfOk result (λ faults. faults.items ≡ faults_of self.now.inner.faults) }
    {
        self.inner.faults.kept(alloc)
    }

    /// The array's round.
    pub fn now(&self) -> Round
        ensures { result.0 ≡ self.now.inner.locked.core.calendar.round }
    {
        self.inner.locked.array().now()
    }
}

/// How many bytes the store of an array has, and how many a page of it.
fn store_bytes(geometry: Geometry) -> (u64, u32)
    ensures bytes { result.0 ≡ geometry.pages * geometry.page_bytes }
    ensures most { result.0 ≤ 2 ^ 32 }
    ensures page { result.1 ≡ geometry.page_bytes }
    ensures some { 1 ≤ result.1 }
    ensures small { result.1 ≤ 4096 }
{
    let bytes = geometry.pages * u64::from(geometry.page_bytes);
    (bytes, geometry.page_bytes)
}

impl<L: Ledger, E: Events<A>, I: Image, A: Allocator + Copy> Blocks for Solo<L, E, I, A> {
    ghost use Rattle.fa_shared_request.specs.SharedStore.{shared_meets, shared_view, shared_whole};
    ghost use Rattle.fa_solo.specs.Stores.{StoreMakes};

    ghost view = { λ store. shared_view store.bytes store.page_bytes };

    ghost made = { λ before call answer after. StoreMakes I.made
        (record { bytes = before.bytes; page_bytes = before.page_bytes; inner = before.inner }) call answer
        (record { bytes = after.bytes; page_bytes = after.page_bytes; inner = after.inner }) };

    ghost meets = { λ before after call answer made.
        shared_meets before.bytes before.page_bytes after.bytes after.page_bytes call answer made.0 made.1 made.2 };

    ghost whole = { λ store. shared_whole store.bytes store.page_bytes store.some_bytes };

    fn size(&self) -> u64 {
        self.bytes
    }

    fn page_bytes(&self) -> u32 {
        self.page_bytes
    }

    fn read<B: Allocator>(
        &mut self,
        alloc: B,
        offset: u64,
        len: u64,
    ) -> Result<Vec<u8, B>, BlockFault> {
        call_read(&mut self.inner, self.page_bytes, offset, len, alloc)
    }

    fn write(&mut self, offset: u64, bytes: &[u8], fua: bool) -> Result<(), BlockFault> {
        let len = bytes.len() as u64;
        let request = Request::Write { offset, len, fua };
        call(&mut self.inner, self.page_bytes, request, bytes)
    }

    fn zero(&mut self, offset: u64, len: u64, fua: bool, hole: bool) -> Result<(), BlockFault> {
        let request = Request::Zero {
            offset,
            len,
            fua,
            hole,
        };
        call(&mut self.inner, self.page_bytes, request, &[])
    }

    fn trim(&mut self, offset: u64, len: u64, fua: bool) -> Result<(), BlockFault> {
        let request = Request::Trim { offset, len, fua };
        call(&mut self.inner, self.page_bytes, request, &[])
    }

    fn flush(&mut self) -> Result<(), BlockFault> {
        call_flush(&mut self.inner, self.page_bytes)
    }
}
