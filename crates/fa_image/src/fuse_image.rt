//! An image that fails on demand.
ghost use Rattle.std.specs.Prelude.{◌≡◌, ◌-◌, ◌==◌, is_ok, if◌then◌else◌};
ghost use Rattle.fa_image.specs.Image.{one_more};

use crate::fault::{ImageFault, refuse};
use crate::image::Image;
use fa_types::{Geometry, HEADER_BYTES, Slot};

/// An image over another one, of which one call can be made to fail.
#[derive(Drop)]
pub struct FuseImage<I: Image> {
    inner: I,
    /// How many calls there are up to the one that fails; 0 where none does.
    calls_left: u64,
    /// The faults of the image behind the fuse, and those of the fuse.
    faults: u64,
}

impl<I: Image> FuseImage<I> {
    ghost use Rattle.fa_image.specs.Fuse.{inner_of, calls_left, fused_view};

    /// The image with a fuse that is not armed.
    pub fn new(inner: I) -> FuseImage<I>
        ensures inner { inner_of result ≡ inner }
        ensures left { calls_left result ≡ 0 }
        ensures view { fused_view I.view result ≡ I.view inner }
    {
        let faults = inner.faults();
        FuseImage {
            inner,
            calls_left: 0,
            faults,
        }
    }

    /// Makes the `k`-th call from now on fail, `k` from 1, and no other. With 0 none fails.
    pub fn arm(&mut self, k: u64)
        ensures left { calls_left self.new ≡ k }
        ensures inner { inner_of self.new ≡ inner_of self.old }
        ensures view { fused_view I.view self.new ≡ fused_view I.view self.old }
    {
        self.calls_left = k;
    }

    /// The image behind the fuse.
    pub fn inner(&self) -> &I
        ensures { result.now ≡ inner_of self.now }
    {
        &self.inner
    }

    /// The image behind the fuse, without it.
    pub fn into_inner(self) -> I
        ensures { result ≡ inner_of self }
    {
        let FuseImage {
            inner,
            calls_left: _,
            faults: _,
        } = self;
        inner
    }
}

impl<I: Image> Image for FuseImage<I> {
    ghost use Rattle.fa_image.specs.Fuse.{inner_of, fused_view, FuseMade};
    ghost use Rattle.fa_image.specs.FuseMeets.{fused_whole, fused_meets};

    ghost view = { fused_view I.view };

    ghost honest = { λ image. I.honest (inner_of image) };

    ghost made = { FuseMade I.view I.made };

    ghost whole = { fused_whole I.view I.whole };

    ghost meets = { fused_meets I.view I.honest I.made I.whole I.meets };

    fn read_slot(&mut self, slot: Slot, into: &mut [u8]) -> Result<(), ImageFault> {
        if burns(&mut self.calls_left) {
            return refuse(ImageFault::ReadSlot, &mut self.faults);
        }
        count(self.inner.read_slot(slot, into), &mut self.faults)
    }

    fn program(&mut self, slot: Slot, bytes: &[u8]) -> Result<(), ImageFault> {
        if burns(&mut self.calls_left) {
            return refuse(ImageFault::Program, &mut self.faults);
        }
        count(self.inner.program(slot, bytes), &mut self.faults)
    }

    fn erase_block(&mut self, block: u32) -> Result<(), ImageFault> {
        if burns(&mut self.calls_left) {
            return refuse(ImageFault::EraseBlock, &mut self.faults);
        }
        count(self.inner.erase_block(block), &mut self.faults)
    }

    fn read_header(&mut self, into: &mut [u8; HEADER_BYTES]) -> Result<(), ImageFault> {
        if burns(&mut self.calls_left) {
            return refuse(ImageFault::ReadHeader, &mut self.faults);
        }
        count(self.inner.read_header(into), &mut self.faults)
    }

    fn write_header(&mut self, bytes: &[u8; HEADER_BYTES]) -> Result<(), ImageFault> {
        if burns(&mut self.calls_left) {
            return refuse(ImageFault::WriteHeader, &mut self.faults);
        }
        count(self.inner.write_header(bytes), &mut self.faults)
    }

    fn sync(&mut self) -> Result<(), ImageFault> {
        if burns(&mut self.calls_left) {
            return refuse(ImageFault::Sync, &mut self.faults);
        }
        count(self.inner.sync(), &mut self.faults)
    }

    fn faults(&self) -> u64 {
        self.faults
    }

    fn syncs(&self) -> u64 {
        self.inner.syncs()
    }

    fn geometry(&self) -> Geometry {
        self.inner.geometry()
    }
}

/// Whether this call is the armed one. It counts as made.
fn burns(calls_left: &mut u64) -> bool
    ensures burns { result ≡ (calls_left.old == 1) }
    ensures counts { calls_left.new ≡ calls_left.old - 1 }
{
    let burns = *calls_left == 1;
    *calls_left = calls_left.saturating_sub(1);
    burns
}

/// Hands an answer on. A fault is counted.
fn count(answer: Result<(), ImageFault>, faults: &mut u64) -> Result<(), ImageFault>
    ensures same { result ≡ answer }
    ensures counts { faults.new ≡ (if is_ok answer then faults.old else one_more faults.old) }
{
    if answer.is_err() {
        *faults = faults.wrapping_add(1);
    }
    answer
}
