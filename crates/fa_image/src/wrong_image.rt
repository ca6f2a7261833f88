//! An image that lies on demand.
ghost use Rattle.std.specs.Prelude.{◌≡◌, ◌-◌, ◌==◌};
ghost use Rattle.fa_image.specs.Wrong.{inverted};

use crate::fault::ImageFault;
use crate::image::Image;
use fa_types::{Geometry, HEADER_BYTES, Slot};

/// An image over another one, of which one read of a slot can be made to give wrong bytes.
#[derive(Drop)]
pub struct WrongImage<I: Image> {
    inner: I,
    /// How many reads of slots there are up to the wrong one; 0 where none is.
    reads_left: u64,
    /// Whether a read gave wrong bytes.
    has_lied: bool,
}

impl<I: Image> WrongImage<I> {
    ghost use Rattle.std.specs.Prelude.{false};
    ghost use Rattle.fa_image.specs.Wrong.{inner_of, reads_left, has_lied};

    /// The image, which gives no wrong bytes until it is armed.
    pub fn new(inner: I) -> WrongImage<I>
        ensures inner { inner_of result ≡ inner }
        ensures left { reads_left result ≡ 0 }
        ensures lied { has_lied result ≡ false }
    {
        WrongImage {
            inner,
            reads_left: 0,
            has_lied: false,
        }
    }

    /// Makes the `k`-th read of a slot from now on give each byte inverted, `k` from 1, and no other. With 0 none does. A read that the
    /// image behind refuses is refused.
    pub fn arm(&mut self, k: u64)
        ensures left { reads_left self.new ≡ k }
        ensures inner { inner_of self.new ≡ inner_of self.old }
        ensures lied { has_lied self.new ≡ has_lied self.old }
    {
        self.reads_left = k;
    }

    /// Whether a read gave wrong bytes.
    pub fn has_lied(&self) -> bool
        ensures { result ≡ has_lied self.now }
    {
        self.has_lied
    }

    /// The image behind it.
    pub fn inner(&self) -> &I
        ensures { result.now ≡ inner_of self.now }
    {
        &self.inner
    }

    /// The image behind it, by itself.
    pub fn into_inner(self) -> I
        ensures { result ≡ inner_of self }
    {
        let WrongImage {
            inner,
            reads_left: _,
            has_lied: _,
        } = self;
        inner
    }
}

impl<I: Image> Image for WrongImage<I> {
    ghost use Rattle.fa_image.specs.Wrong.{inner_of, wrong_view, wrong_honest, WrongMade};
    ghost use Rattle.fa_image.specs.WrongMeets.{wrong_whole, wrong_meets};

    ghost view = { wrong_view I.view };

    ghost honest = { wrong_honest I.honest };

    ghost made = { WrongMade I.made };

    ghost whole = { wrong_whole I.view I.whole };

    ghost meets = { wrong_meets I.view I.honest I.made I.meets };

    fn read_slot(&mut self, slot: Slot, into: &mut [u8]) -> Result<(), ImageFault> {
        let lies = is_last(&mut self.reads_left);
        self.inner.read_slot(slot, into)?;
        if lies {
            invert(into);
            self.has_lied = true;
        }
        Ok(())
    }

    fn program(&mut self, slot: Slot, bytes: &[u8]) -> Result<(), ImageFault> {
        self.inner.program(slot, bytes)
    }

    fn erase_block(&mut self, block: u32) -> Result<(), ImageFault> {
        self.inner.erase_block(block)
    }

    fn read_header(&mut self, into: &mut [u8; HEADER_BYTES]) -> Result<(), ImageFault> {
        self.inner.read_header(into)
    }

    fn write_header(&mut self, bytes: &[u8; HEADER_BYTES]) -> Result<(), ImageFault> {
        self.inner.write_header(bytes)
    }

    fn sync(&mut self) -> Result<(), ImageFault> {
        self.inner.sync()
    }

    fn faults(&self) -> u64 {
        self.inner.faults()
    }

    fn syncs(&self) -> u64 {
        self.inner.syncs()
    }

    fn geometry(&self) -> Geometry {
        self.inner.geometry()
    }
}

/// Whether this read is the armed one. It counts as made.
fn is_last(reads_left: &mut u64) -> bool
    ensures last { result ≡ (reads_left.old == 1) }
    ensures counts { reads_left.new ≡ reads_left.old - 1 }
{
    let is_last = *reads_left == 1;
    *reads_left = reads_left.saturating_sub(1);
    is_last
}

/// Inverts each byte.
fn invert(bytes: &mut [u8])
    ensures { bytes.new ≡ inverted bytes.old }
{
    for byte in bytes.iter_mut() {
        *byte = 0xff - *byte;
    }
}
