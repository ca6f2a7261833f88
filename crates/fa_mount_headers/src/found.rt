//! What is read of images before they are judged.
ghost use Rattle.std.specs.Prelude.{◌≡◌, length, map, IfOk, OnErr};
ghost use Rattle.fa_image.specs.Image.{Gave};
ghost use Rattle.fa_mount_headers.specs.Found.{AreOnlyRead, IsFound, ReadsHeader, ReadsHeaders};

use fa_image::Image;
use fa_tag::{Header, open_header};
use fa_types::{Geometry, HEADER_BYTES};
use std::alloc::{AllocError, Allocator};

/// What came of reading an image's header.
#[derive(Clone, Copy)]
pub enum HeaderFound {
    /// It was not read.
    Unread,
    /// It was read, and its bytes are those of no header.
    Bad,
    /// It was read, and is this one.
    Good(Header),
}

/// What is known of an image before its slots are read.
#[derive(Clone, Copy)]
pub struct Found {
    /// The geometry that the image was made for.
    pub geometry: Geometry,
    /// Its header.
    pub header: HeaderFound,
}

/// Reads the header of each image, once. The answer has what was found of each, in the order of the
/// images. Out of memory, no image was called.
pub fn read_headers<I: Image, A: Allocator>(
    alloc: A,
    images: &mut [I],
) -> Result<Vec<Found, A>, AllocError>
    ensures all { IfOk result (λ founds. length founds.items ≡ length images.old) }
    ensures read { IfOk result (λ founds. ReadsHeaders I.view I.made images.old images.new founds.items) }
    ensures err { OnErr result (images.new ≡ images.old) }
    ensures only_read { AreOnlyRead (map I.view images.old) (map I.view images.new) }
{
    let mut founds = Vec::with_capacity(alloc, images.len())?;
    for index in 0..images.len() {
        let found = read_one(&mut images[index]);
        founds.push(found)?;
    }
    Ok(founds)
}

/// Reads an image's header, once.
fn read_one<I: Image>(image: &mut I) -> Found
    ensures { ReadsHeader I.view I.made image.old image.new result }
{
    let geometry = image.geometry();
    let mut bytes = [0; HEADER_BYTES];
    let header = match image.read_header(&mut bytes) {
        Ok(()) => found_in(&bytes),
        Err(_) => HeaderFound::Unread,
    };
    Found { geometry, header }
}

/// What a header's bytes are.
fn found_in(bytes: &[u8; HEADER_BYTES]) -> HeaderFound
    ensures { IsFound (Gave bytes.now) result }
{
    match open_header(bytes) {
        Some(header) => HeaderFound::Good(header),
        None => HeaderFound::Bad,
    }
}
