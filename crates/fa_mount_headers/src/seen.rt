//! The images whose headers are headers.
ghost use Rattle.std.specs.Prelude.{◌≡◌, IfOk};
ghost use Rattle.fa_mount_headers.specs.Rules.{seen_from};

use crate::found::{Found, HeaderFound};
use fa_tag::Header;
use fa_types::Geometry;
use std::alloc::{AllocError, Allocator};

/// An image with a header.
#[derive(Clone, Copy)]
pub struct Seen {
    /// Which image it is, from 0 in the list of images.
    pub index: usize,
    /// The geometry that the image was made for.
    pub geometry: Geometry,
    /// Its header.
    pub header: Header,
}

/// The images that have a header. All others are left aside.
pub(crate) fn all_seen<A: Allocator>(alloc: A, founds: &[Found]) -> Result<Vec<Seen, A>, AllocError>
    ensures { IfOk result (λ seen. seen.items ≡ seen_from 0 founds.now) }
{
    let mut seen = Vec::new(alloc);
    for (index, found) in founds.iter().enumerate() {
        if let HeaderFound::Good(header) = found.header {
            seen.push(Seen {
                index,
                geometry: found.geometry,
                header,
            })?;
        }
    }
    Ok(seen)
}
