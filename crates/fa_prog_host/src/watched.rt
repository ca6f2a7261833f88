//! Images that tell how far a command is with them.
ghost use Rattle.std.specs.Prelude.{◌≡◌};

use fa_image::{Image, ImageFault};
use fa_types::{Geometry, HEADER_BYTES, Slot};
use std::io::Eprint;

/// After so many bytes it is told again how far a command is.
const STEP: u64 = 1 << 26;

/// An image that a command reads or erases, and that tells on standard error how far it is.
#[derive(Drop)]
pub struct Watched<'a, R, I> {
    /// The image.
    pub image: I,
    /// Where it is told.
    to: &'a R,
    /// Whether it is told.
    told: bool,
    /// What the image is called.
    name: &'a str,
    /// How many bytes were read or erased.
    done: u64,
    /// At so many it is told next.
    next: u64,
}

impl<'a, R: Eprint, I> Watched<'a, R, I> {
    /// An image of this name, of which it is told `to`, or not.
    pub(crate) fn new(image: I, name: &'a str, to: &'a R, told: bool) -> Watched<'a, R, I>
        ensures { result.image ≡ image }
    {
        Watched {
            image,
            to,
            told,
            name,
            done: 0,
            next: STEP,
        }
    }

    /// Notes that so many bytes more were read or erased.
    fn note(&mut self, bytes: u64)
        ensures { self.new.image ≡ self.old.image }
    {
        self.done = self.done.saturating_add(bytes);
        if self.done < self.next {
            return;
        }
        self.next = self.done.saturating_add(STEP);
        if self.told {
            let mib = self.done >> 20;
            let _ = self
                .to
                .eprint(format_args!("\r\x1b[K{}: {mib} MiB", self.name));
        }
    }
}

impl<R: Eprint, I: Image> Image for Watched<'_, R, I> {
    ghost view = { λ watched. I.view watched.image };

    ghost honest = { λ watched. I.honest watched.image };

    ghost made = { λ before call answer after. I.made before.image call answer after.image };

    ghost whole = { λ watched. I.whole watched.image };

    ghost meets = { λ before after call answer made. I.meets before.image after.image call answer made };

    fn read_slot(&mut self, slot: Slot, into: &mut [u8]) -> Result<(), ImageFault> {
        self.note(into.len() as u64);
        self.image.read_slot(slot, into)
    }

    fn program(&mut self, slot: Slot, bytes: &[u8]) -> Result<(), ImageFault> {
        self.image.program(slot, bytes)
    }

    fn erase_block(&mut self, block: u32) -> Result<(), ImageFault> {
        let geometry = self.image.geometry();
        self.note(u64::from(geometry.slots) * u64::from(geometry.page_bytes));
        self.image.erase_block(block)
    }

    fn read_header(&mut self, into: &mut [u8; HEADER_BYTES]) -> Result<(), ImageFault> {
        self.image.read_header(into)
    }

    fn write_header(&mut self, bytes: &[u8; HEADER_BYTES]) -> Result<(), ImageFault> {
        self.image.write_header(bytes)
    }

    fn sync(&mut self) -> Result<(), ImageFault> {
        self.image.sync()
    }

    fn faults(&self) -> u64 {
        self.image.faults()
    }

    fn syncs(&self) -> u64 {
        self.image.syncs()
    }

    fn geometry(&self) -> Geometry {
        self.image.geometry()
    }
}

/// Clears the line in which it was told, if it was.
pub fn clear<R: Eprint>(rt: &R, told: bool) {
    if told {
        let _ = rt.eprint("\r\x1b[K");
    }
}
