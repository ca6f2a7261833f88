//! An image in a file.
ghost use Rattle.std.specs.Prelude.{◌≡◌, ◌+◌, ◌*◌, ◌≤◌, length, replicate};
ghost use Rattle.fa_ghost.specs.Contents.{Contents};
ghost use Rattle.fa_image.specs.File.{file_bytes as bytes_of_file};

use crate::fault::{ImageFault, refuse};
use crate::image::Image;
use crate::shape::{file_bytes, slot_bytes, slot_offset};
use fa_ghost::{
    FileContents, History, note_failed, note_kept, note_read, note_synced, note_written,
};
use fa_types::{Geometry, HEADER_BYTES, Slot};
use std::alloc::{AllocError, Global};
use std::fs::{File, OpenOptions};
use std::io;
use std::os::unix::fs::FileExt;
use std::path::Path;
use std::rt::Files;

/// An image in a file: 4,096 bytes of which the first 112 are the header, and then the slots in
/// rising order. Bytes behind the last slot stay as they are. Each call is one read or write of the
/// file, and that of the header is synced.
#[derive(Drop)]
pub struct FileImage {
    file: File,
    geometry: Geometry,
    /// The bytes of an erased block, made once.
    erased: Vec<u8>,
    syncs: u64,
    faults: u64,
    held: History<FileContents>,
    ghost block: { erased.items ≡ replicate (geometry.slots * (geometry.page_bytes + 64)) 0xff },
    ghost sized: { bytes_of_file geometry ≤ length held.shown.bytes },
}

impl FileImage {
    ghost use Rattle.std.specs.Prelude.{List, ℕ, IfOk, OnOk, IsTrue};
    ghost use Rattle.fa_image.specs.File.{Start, opened, state_in, of_zeros};
    ghost use Rattle.fa_image.specs.FileMade.{file_view, file_is_honest};
    ghost use Rattle.fa_image.specs.Image.{slot_bytes as bytes_of_slot, slot_count as slots_of_die};

    /// Makes a file of the image's size, or empties the one that has the name: it holds zeros. Nothing
    /// is written to it yet. The error is that of [`FileImage::open_or_create`] or of the file's length.
    pub fn create<R: Files<File = File> + AllocGlobal>(
        rt: &R,
        path: Path<'_>,
        geometry: Geometry,
    ) -> io::Result<FileImage>
        ghost lefts: { List (List ℕ) }
        ensures view { IfOk result (λ image. file_view image ≡ of_zeros geometry) }
        ensures honest { IfOk result (λ image. IsTrue (file_is_honest image)) }
    {
        let mut image = FileImage::open_or_create(rt, path, geometry)?;
        image.empty()?;
        Ok(image)
    }

    /// Opens a file that is there, as [`FileImage::open`] does, or makes an empty one of this name.
    pub fn open_or_create<R: Files<File = File> + AllocGlobal>(
        rt: &R,
        path: Path<'_>,
        geometry: Geometry,
    ) -> io::Result<FileImage>
        ghost start: { Start }
        ensures view { IfOk result (λ image. file_view image ≡ opened geometry start) }
        ensures honest { IfOk result (λ image. IsTrue (file_is_honest image)) }
    {
        let file = OpenOptions::new()
            .read(true)
            .write(true)
            .create(true)
            .open(rt, path)?;
        FileImage::locked(rt.alloc(), file, geometry)
    }

    /// Opens a file that is there, to read and to write, of whatever length, and locks it until the image
    /// is let go. What cannot be read in one that is too short is refused when it is read. The error is
    /// that of the file's call, `WouldBlock` where another process has the image, or out of memory.
    pub fn open<R: Files<File = File> + AllocGlobal>(
        rt: &R,
        path: Path<'_>,
        geometry: Geometry,
    ) -> io::Result<FileImage>
        ghost start: { Start }
        ensures view { IfOk result (λ image. file_view image ≡ opened geometry start) }
        ensures honest { IfOk result (λ image. IsTrue (file_is_honest image)) }
    {
        let file = OpenOptions::new().read(true).write(true).open(rt, path)?;
        FileImage::locked(rt.alloc(), file, geometry)
    }

    /// The image in an open file that no other process has locked, which is locked now.
    fn locked(alloc: Global, file: File, geometry: Geometry) -> io::Result<FileImage>
        ghost start: { Start }
        ensures view { IfOk result (λ image. file_view image ≡ opened geometry start) }
        ensures honest { IfOk result (λ image. IsTrue (file_is_honest image)) }
    {
        file.try_lock()?;
        Ok(FileImage::over(alloc, file, geometry)?)
    }

    /// Empties the image: the file has the image's size, and zeros. Nothing is written to it. It counts as
    /// a new image then, with no syncs and no faults. The error is that of the file's call.
    pub fn empty(&mut self) -> io::Result<()>
        ghost lefts: { List (List ℕ) }
        ensures view { OnOk result (file_view self.new ≡ of_zeros self.old.geometry) }
        ensures honest { OnOk result (IsTrue (file_is_honest self.new)) }
        ensures geometry { self.new.geometry ≡ self.old.geometry }
    {
        self.file.set_len(0)?;
        self.file.set_len(file_bytes(self.geometry))?;
        self.held = History::begin(&self.geometry);
        self.syncs = 0;
        self.faults = 0;
        Ok(())
    }

    /// Whether the file is as long as an image of the geometry is.
    pub fn has_its_length(&self) -> io::Result<bool> {
        Ok(self.file.metadata()?.len() == file_bytes(self.geometry))
    }

    /// The image in an open file, whatever the file holds: that is its start, and its contract holds
    /// for each. The error is out of memory.
    pub fn over(alloc: Global, file: File, geometry: Geometry) -> Result<FileImage, AllocError>
        ghost start: { Start }
        ensures view { IfOk result (λ image. file_view image ≡ opened geometry start) }
        ensures honest { IfOk result (λ image. IsTrue (file_is_honest image)) }
    {
        FileImage::holding(alloc, file, geometry)
    }

    /// The image in an open file that holds these contents.
    fn holding(alloc: Global, file: File, geometry: Geometry) -> Result<FileImage, AllocError>
        ghost contents: { Contents }
        requires { bytes_of_file geometry ≤ length contents.bytes }
        ensures view { IfOk result (λ image. file_view image ≡ state_in geometry contents.bytes 0 0) }
        ensures honest { IfOk result (λ image. file_is_honest image ≡ contents.honest) }
    {
        let erased = vec![in alloc; 0xffu8; geometry.slots as usize * slot_bytes(geometry)]?;
        let held = History::new();
        Ok(FileImage {
            file,
            geometry,
            erased,
            syncs: 0,
            faults: 0,
            held,
        })
    }
}

// Each method makes one call of the file and tells `held` what came of it, at the offset and with the
// bytes of that call. No clause can tie the two: that they are the same is for the reader, and for tests.
impl Image for FileImage {
    ghost use Rattle.fa_image.specs.FileMade.{file_view, file_is_honest, FileMade};
    ghost use Rattle.fa_image.specs.FileMeets.{file_whole, file_meets};

    ghost view = { file_view };

    ghost honest = { file_is_honest };

    ghost made = { FileMade };

    ghost whole = { file_whole };

    ghost meets = { file_meets };

    fn read_slot(&mut self, slot: Slot, into: &mut [u8]) -> Result<(), ImageFault> {
        let offset = slot_offset(self.geometry, slot.0);
        if self.file.read_exact_at(into, offset).is_err() {
            return refuse(ImageFault::ReadSlot, &mut self.faults);
        }
        note_read(&mut self.held, offset, into);
        Ok(())
    }

    fn program(&mut self, slot: Slot, bytes: &[u8]) -> Result<(), ImageFault> {
        let offset = slot_offset(self.geometry, slot.0);
        if self.file.write_all_at(bytes, offset).is_err() {
            note_failed(&mut self.held, offset, bytes.len());
            return refuse(ImageFault::Program, &mut self.faults);
        }
        note_written(&mut self.held, offset, bytes);
        Ok(())
    }

    fn erase_block(&mut self, block: u32) -> Result<(), ImageFault> {
        let offset = slot_offset(self.geometry, block * self.geometry.slots);
        let bytes = self.erased.as_slice();
        if self.file.write_all_at(bytes, offset).is_err() {
            note_failed(&mut self.held, offset, bytes.len());
            return refuse(ImageFault::EraseBlock, &mut self.faults);
        }
        note_written(&mut self.held, offset, bytes);
        Ok(())
    }

    fn read_header(&mut self, into: &mut [u8; HEADER_BYTES]) -> Result<(), ImageFault> {
        if self.file.read_exact_at(into, 0).is_err() {
            return refuse(ImageFault::ReadHeader, &mut self.faults);
        }
        note_read(&mut self.held, 0, into);
        Ok(())
    }

    fn write_header(&mut self, bytes: &[u8; HEADER_BYTES]) -> Result<(), ImageFault> {
        if self.file.write_all_at(bytes, 0).is_err() || self.file.sync_data().is_err() {
            note_failed(&mut self.held, 0, HEADER_BYTES);
            return refuse(ImageFault::WriteHeader, &mut self.faults);
        }
        note_kept(&mut self.held, 0, bytes);
        Ok(())
    }

    fn sync(&mut self) -> Result<(), ImageFault> {
        if self.file.sync_data().is_err() {
            return refuse(ImageFault::Sync, &mut self.faults);
        }
        note_synced(&mut self.held);
        self.syncs = self.syncs.wrapping_add(1);
        Ok(())
    }

    fn faults(&self) -> u64 {
        self.faults
    }

    fn syncs(&self) -> u64 {
        self.syncs
    }

    fn geometry(&self) -> Geometry {
        self.geometry
    }
}
