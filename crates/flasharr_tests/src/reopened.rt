//! An image that is left in a file, and opened again: what is read of it while it is honest is what was left.
ghost use Rattle.std.specs.Prelude.{◌≡◌, ◌<◌, length, IfOk, IsTrue};
ghost use Rattle.fa_image.specs.File.{Start, opened};
ghost use Rattle.fa_image.specs.FileMade.{file_view, file_is_honest};
ghost use Rattle.fa_image.specs.Image.{slot_bytes, slot_count};
ghost use Rattle.fa_tag.specs.SlotGrammar.{IsTag, IsPayloadOf};

use fa_image::{FileImage, Image};
use fa_tag::{Opened, Tag, open, seal};
use fa_types::{Geometry, Slot};
use std::fs::File;
use std::io;
use std::path::Path;
use std::rt::Files;

/// Seals a page into a slot of a new image at the path, opens the image again, reads the slot and opens
/// it. The bytes are memory of a slot's length.
fn sealed_and_opened<R: Files<File = File> + AllocGlobal>(
    rt: &R,
    path: Path<'_>,
    geometry: Geometry,
    tag: Tag,
    payload: &[u8],
    bytes: &mut [u8],
) -> io::Result<(FileImage, Opened)>
    requires tag { IsTag tag }
    requires kind { IsPayloadOf tag.kind payload.now }
    requires slot { tag.slot.0 < slot_count geometry }
    requires length { length payload.now ≡ geometry.page_bytes }
    requires room { length bytes.old ≡ slot_bytes geometry }
    ensures { IfOk result (λ pair. IsTrue (file_is_honest pair.0) → pair.1 ≡ Opened.Good tag) }
{
    seal(tag, payload, bytes);
    let image = left_and_opened(rt, path, geometry, tag.slot, bytes)?;
    Ok((image, open(bytes)))
}

/// Leaves the bytes in a slot of a new image at the path, opens the image again and reads the slot into them.
fn left_and_opened<R: Files<File = File> + AllocGlobal>(
    rt: &R,
    path: Path<'_>,
    geometry: Geometry,
    slot: Slot,
    bytes: &mut [u8],
) -> io::Result<FileImage>
    requires slot { slot.0 < slot_count geometry }
    requires length { length bytes.old ≡ slot_bytes geometry }
    ensures { IfOk result (λ image. IsTrue (file_is_honest image) → bytes.new ≡ bytes.old) }
{
    let mut image = FileImage::create(rt, path, geometry)?;
    if image.program(slot, bytes).is_err() || image.sync().is_err() {
        return Err(io::Error::from(io::ErrorKind::Other));
    }
    let mut again = open_again(rt, path, image)?;
    if again.read_slot(slot, bytes).is_err() {
        return Err(io::Error::from(io::ErrorKind::Other));
    }
    Ok(again)
}

/// Closes the image, and opens one of its geometry at the path.
fn open_again<R: Files<File = File> + AllocGlobal>(
    rt: &R,
    path: Path<'_>,
    image: FileImage,
) -> io::Result<FileImage>
    ghost start: { Start }
    ensures view { IfOk result (λ again. file_view again ≡ opened (file_view image).geometry start) }
    ensures honest { IfOk result (λ again. IsTrue (file_is_honest again)) }
{
    let geometry = image.geometry();
    drop(image);
    FileImage::open(rt, path, geometry)
}
