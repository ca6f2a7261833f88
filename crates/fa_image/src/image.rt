//! The trait of an image.
ghost use Rattle.std.specs.Prelude.{◌≡◌, ◌<◌, Bool, length, IfErr, OnOk};
ghost use Rattle.fa_image.specs.Image.{ImageState, IsImage, ImageMeets, slot_bytes, slot_count};
ghost use Rattle.fa_image.specs.Image.{ImageCall, ReadingSlot, Programming, Erasing, ReadingHeader, WritingHeader, Syncing};
ghost use Rattle.fa_image.specs.Image.{ImageAnswer, Gave, Done, Refused};

use crate::fault::ImageFault;
use fa_types::{Geometry, HEADER_BYTES, Slot};

/// The image of one die: slots of a page's bytes and 64 more, in blocks, and a header.
///
/// A call answers a fault exactly where the number of faults has changed, by one. A refused read
/// changes nothing; a refused write or erase may leave what it was writing with any bytes, and
/// changes nothing else. No call takes memory.
pub trait Image: Drop {
    /// What is seen of the image.
    ghost view: { Self → ImageState };

    /// Every read so far gave what stands there. An image that can lie never says so of itself, or
    /// not after it lied.
    ghost honest: { Self → Bool };

    /// One call, with its answer, that led from an image to an image. Only the calls below make it, so
    /// who is handed such a link knows that the call was made, once.
    ghost made: { Self → ImageCall → ImageAnswer → Self → Type 0 };

    /// Reads the slot into `into`. After a fault `into` may hold any bytes.
    fn read_slot(&mut self, slot: Slot, into: &mut [u8]) -> Result<(), ImageFault>
        requires slot { slot.0 < slot_count (view self.old).geometry }
        requires length { length into.old ≡ slot_bytes (view self.old).geometry }
        ensures gave { OnOk result (made self.old (ReadingSlot slot.0) (Gave into.new) self.new) }
        ensures refused { IfErr result (λ fault. made self.old (ReadingSlot slot.0) (Refused fault) self.new) }
        ensures geometry { (view self.new).geometry ≡ (view self.old).geometry };

    /// Writes the slot, which is to be an erased one.
    fn program(&mut self, slot: Slot, bytes: &[u8]) -> Result<(), ImageFault>
        requires slot { slot.0 < slot_count (view self.old).geometry }
        requires length { length bytes.now ≡ slot_bytes (view self.old).geometry }
        ensures done { OnOk result (made self.old (Programming slot.0 bytes.now) Done self.new) }
        ensures refused { IfErr result (λ fault. made self.old (Programming slot.0 bytes.now) (Refused fault) self.new) }
        ensures geometry { (view self.new).geometry ≡ (view self.old).geometry };

    /// Makes each byte of the block `ff`.
    fn erase_block(&mut self, block: u32) -> Result<(), ImageFault>
        requires { block < (view self.old).geometry.blocks }
        ensures done { OnOk result (made self.old (Erasing block) Done self.new) }
        ensures refused { IfErr result (λ fault. made self.old (Erasing block) (Refused fault) self.new) }
        ensures geometry { (view self.new).geometry ≡ (view self.old).geometry };

    /// Reads the header into `into`. After a fault `into` may hold any bytes.
    fn read_header(&mut self, into: &mut [u8; HEADER_BYTES]) -> Result<(), ImageFault>
        ensures gave { OnOk result (made self.old ReadingHeader (Gave into.new) self.new) }
        ensures refused { IfErr result (λ fault. made self.old ReadingHeader (Refused fault) self.new) }
        ensures geometry { (view self.new).geometry ≡ (view self.old).geometry };

    /// Writes the header, and answers once it is on its medium. That counts as no sync.
    fn write_header(&mut self, bytes: &[u8; HEADER_BYTES]) -> Result<(), ImageFault>
        ensures done { OnOk result (made self.old (WritingHeader bytes.now) Done self.new) }
        ensures refused { IfErr result (λ fault. made self.old (WritingHeader bytes.now) (Refused fault) self.new) }
        ensures geometry { (view self.new).geometry ≡ (view self.old).geometry };

    /// Puts all that was written on its medium.
    fn sync(&mut self) -> Result<(), ImageFault>
        ensures done { OnOk result (made self.old Syncing Done self.new) }
        ensures refused { IfErr result (λ fault. made self.old Syncing (Refused fault) self.new) }
        ensures geometry { (view self.new).geometry ≡ (view self.old).geometry };

    /// How many calls were refused. After 2^64 - 1 comes 0.
    fn faults(&self) -> u64
        ensures { result ≡ (view self.now).faults };

    /// How many syncs were accepted. After 2^64 - 1 comes 0.
    fn syncs(&self) -> u64
        ensures { result ≡ (view self.now).syncs };

    /// The geometry that the image was made for. No call changes it.
    fn geometry(&self) -> Geometry
        ensures { result ≡ (view self.now).geometry };

    /// An image has the slots of its geometry.
    ghost whole: { (image : Self) → IsImage (view image) };

    /// Each call is one of an image.
    ghost meets: { (before after : Self) (call : ImageCall) (answer : ImageAnswer) → made before call answer after
        → ImageMeets (view before) (honest before) call answer (view after) (honest after) };
}
