//! An image in memory.
ghost use Rattle.std.specs.Prelude.{◌≡◌, ◌*◌, ◌+◌, length, replicate, IfOk, if◌then◌else◌};
ghost use Rattle.fa_image.specs.Image.{one_more};

use crate::fault::ImageFault;
use crate::image::Image;
use crate::shape::{slot_bytes, slot_count};
use fa_types::bytes::{fill, is_erased, part, put};
use fa_types::{Geometry, HEADER_BYTES, Slot};
use std::alloc::{AllocError, Allocator, Global};

/// An image whose slots lie in memory. It refuses no call.
#[derive(Drop)]
pub struct MemImage<A: Allocator = Global> {
    geometry: Geometry,
    /// The slots in rising order.
    slots: Vec<u8, A>,
    header: [u8; HEADER_BYTES],
    syncs: u64,
    overwrites: u64,
    ghost sized: { length slots.items ≡ geometry.blocks * geometry.slots * (geometry.page_bytes + 64) },
    ghost headed: { length header ≡ 112 },
}

impl<A: Allocator> MemImage<A> {
    ghost use Rattle.fa_image.specs.Image.{slot_bytes as bytes_of_slot, slot_count as slots_of_die, erased_slot};
    ghost use Rattle.fa_image.specs.Memory.{mem_image_view, mem_image_overwrites};

    /// An image whose slots are all erased, and whose header is zeros.
    pub fn new(alloc: A, geometry: Geometry) -> Result<MemImage<A>, AllocError>
        ensures view { IfOk result (λ image. mem_image_view image ≡ record {
          geometry = geometry;
          slots = replicate (slots_of_die geometry) (erased_slot (bytes_of_slot geometry));
          header = replicate 112 0;
          syncs = 0;
          faults = 0;
        }) }
        ensures overwrites { IfOk result (λ image. mem_image_overwrites image ≡ 0) }
    {
        let slots = vec![in alloc; 0xffu8; slot_count(geometry) * slot_bytes(geometry)]?;
        Ok(MemImage {
            geometry,
            slots,
            header: [0; HEADER_BYTES],
            syncs: 0,
            overwrites: 0,
        })
    }

    /// How many programs met a slot that was not erased. After 2^64 - 1 comes 0.
    pub fn overwrites(&self) -> u64
        ensures { result ≡ mem_image_overwrites self.now }
    {
        self.overwrites
    }
}

impl<A: Allocator> Image for MemImage<A> {
    ghost use Rattle.std.specs.Prelude.{true};
    ghost use Rattle.fa_image.specs.Memory.{mem_image_view, mem_image_whole, MemImageMade};
    ghost use Rattle.fa_image.specs.MemoryMeets.{mem_image_meets};

    ghost view = { mem_image_view };

    ghost honest = { λ _. true };

    ghost made = { MemImageMade };

    ghost whole = { mem_image_whole };

    ghost meets = { mem_image_meets };

    fn read_slot(&mut self, slot: Slot, into: &mut [u8]) -> Result<(), ImageFault> {
        let size = slot_bytes(self.geometry);
        into.copy_from_slice(part(&self.slots, slot.0 as usize * size, size));
        Ok(())
    }

    fn program(&mut self, slot: Slot, bytes: &[u8]) -> Result<(), ImageFault> {
        let size = slot_bytes(self.geometry);
        let offset = slot.0 as usize * size;
        let erased = is_erased(part(&self.slots, offset, size));
        self.overwrites = count_unless(erased, self.overwrites);
        put(&mut self.slots, offset, bytes);
        Ok(())
    }

    fn erase_block(&mut self, block: u32) -> Result<(), ImageFault> {
        let size = slot_bytes(self.geometry);
        let slots = self.geometry.slots as usize;
        fill(
            &mut self.slots,
            block as usize * slots * size,
            slots * size,
            0xff,
        );
        Ok(())
    }

    fn read_header(&mut self, into: &mut [u8; HEADER_BYTES]) -> Result<(), ImageFault> {
        *into = self.header;
        Ok(())
    }

    fn write_header(&mut self, bytes: &[u8; HEADER_BYTES]) -> Result<(), ImageFault> {
        self.header = *bytes;
        Ok(())
    }

    fn sync(&mut self) -> Result<(), ImageFault> {
        self.syncs = self.syncs.wrapping_add(1);
        Ok(())
    }

    fn faults(&self) -> u64 {
        0
    }

    fn syncs(&self) -> u64 {
        self.syncs
    }

    fn geometry(&self) -> Geometry {
        self.geometry
    }
}

/// The count, one more where the fact is false.
fn count_unless(fact: bool, count: u64) -> u64
    ensures { result ≡ (if fact then count else one_more count) }
{
    if fact { count } else { count.wrapping_add(1) }
}
