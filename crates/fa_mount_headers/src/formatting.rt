//! New images.
ghost use Rattle.std.specs.Prelude.{◌≡◌, ◌<◌, length, OnOk, IfErr};
ghost use Rattle.std.specs.List.{AllByRecursion};
ghost use Rattle.fa_tag.specs.HeaderGrammar.{header_bytes};
ghost use Rattle.fa_mount_headers.specs.FirstHeader.{format_number, spare_header as spare_header_of};
ghost use Rattle.fa_mount_headers.specs.Formatted.{all_erased, IsErasedInPart, IsFormatted, AreFormatted};

use crate::fault::FormatFault;
use crate::first_header::{HeaderFormat, first_header, sealed, spare_header};
use fa_image::{Image, ImageFault};
use fa_tag::seal_header;
use fa_types::{Die, Geometry, HEADER_BYTES};

/// Makes these the images of a new array, die by die: erases every slot, writes the first header of the
/// die, and syncs. The first dies are in use, the last ones spares. The answer is the first image that
/// refused a call. The images before it are formatted then, and those behind it were not called. It
/// takes no memory.
pub fn format<I: Image>(
    images: &mut [I],
    geometry: Geometry,
    array: [u8; 16],
) -> Result<(), FormatFault>
    requires one_a_die { length images.old ≡ geometry.dies }
    requires of_geometry { AllByRecursion (λ image. (I.view image).geometry ≡ geometry) images.old }
    ensures { AreFormatted I.view I.honest 2 geometry array images.old images.new result }
{
    format_all(images, geometry, array, HeaderFormat::Two)
}

/// The same in format 1, which no writer of today uses: for tests of those who read it.
pub fn format_1<I: Image>(
    images: &mut [I],
    geometry: Geometry,
    array: [u8; 16],
) -> Result<(), FormatFault>
    requires one_a_die { length images.old ≡ geometry.dies }
    requires of_geometry { AllByRecursion (λ image. (I.view image).geometry ≡ geometry) images.old }
    ensures { AreFormatted I.view I.honest 1 geometry array images.old images.new result }
{
    format_all(images, geometry, array, HeaderFormat::One)
}

/// Makes this the image of a spare of an array: erases every slot, writes the header, and syncs. It
/// takes no memory.
pub fn format_spare<I: Image>(
    image: &mut I,
    geometry: Geometry,
    array: [u8; 16],
    die: Die,
) -> Result<(), ImageFault>
    requires die { die.0 < geometry.dies }
    requires of_geometry { (I.view image.old).geometry ≡ geometry }
    ensures formatted { IsFormatted (header_bytes 2 (spare_header_of geometry array die.0)) (I.view image.old) (I.view image.new) result }
    ensures honest { I.honest image.new ≡ I.honest image.old }
{
    format_one(image, &seal_header(&spare_header(geometry, array, die)))
}

/// Formats the images of all dies, with headers in a format.
fn format_all<I: Image>(
    images: &mut [I],
    geometry: Geometry,
    array: [u8; 16],
    format: HeaderFormat,
) -> Result<(), FormatFault>
    requires one_a_die { length images.old ≡ geometry.dies }
    requires of_geometry { AllByRecursion (λ image. (I.view image).geometry ≡ geometry) images.old }
    ensures { AreFormatted I.view I.honest (format_number format) geometry array images.old images.new result }
{
    for image in 0..images.len() {
        let header = first_header(geometry, array, Die(image as u8));
        let bytes = sealed(&header, format);
        if let Err(fault) = format_one(&mut images[image], &bytes) {
            return Err(FormatFault { image, fault });
        }
    }
    Ok(())
}

/// Erases every slot, writes a header, and syncs.
fn format_one<I: Image>(image: &mut I, header: &[u8; HEADER_BYTES]) -> Result<(), ImageFault>
    ensures formatted { IsFormatted header.now (I.view image.old) (I.view image.new) result }
    ensures honest { I.honest image.new ≡ I.honest image.old }
{
    erase_all(image)?;
    image.write_header(header)?;
    image.sync()
}

/// Erases every block.
fn erase_all<I: Image>(image: &mut I) -> Result<(), ImageFault>
    ensures done { OnOk result (I.view image.new ≡ all_erased (I.view image.old)) }
    ensures refused { IfErr result (λ fault. (fault ≡ ImageFault.EraseBlock) × IsErasedInPart (I.view image.old) (I.view image.new)) }
    ensures honest { I.honest image.new ≡ I.honest image.old }
{
    let geometry = image.geometry();
    for block in 0..geometry.blocks {
        image.erase_block(block)?;
    }
    Ok(())
}
