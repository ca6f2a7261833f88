//! The headers of a new array.
ghost use Rattle.std.specs.Prelude.{◌≡◌, ◌≤◌, ◌<◌};
ghost use Rattle.fa_tag.specs.HeaderGrammar.{IsHeader, header_bytes};
ghost use Rattle.fa_mount_headers.specs.FirstHeader.{first_header as first_header_of, spare_header as spare_header_of};
ghost use Rattle.fa_mount_headers.specs.FirstHeader.{mask_below as first_dies, format_number};

use fa_tag::{Header, seal_header, seal_header_1};
use fa_types::{Die, Geometry, HEADER_BYTES};

/// In which format a header is written.
#[derive(Clone, Copy)]
pub(crate) enum HeaderFormat {
    /// Format 1, which no writer of today uses.
    One,
    /// Format 2.
    Two,
}

/// The header with which a die of a new array begins. Its first dies are in use, the last ones spares.
pub(crate) fn first_header(geometry: Geometry, array: [u8; 16], die: Die) -> Header
    requires { die.0 < geometry.dies }
    ensures header { result ≡ first_header_of geometry array die.0 }
    ensures fits { IsHeader result }
{
    let in_use = geometry.dies - geometry.spares;
    if u32::from(die.0) >= in_use {
        return spare_header(geometry, array, die);
    }
    Header {
        die,
        geometry,
        clean: true,
        spare: false,
        epoch: 1,
        mask: mask_below(in_use),
        array,
    }
}

/// The header of a spare.
pub(crate) fn spare_header(geometry: Geometry, array: [u8; 16], die: Die) -> Header
    requires { die.0 < geometry.dies }
    ensures header { result ≡ spare_header_of geometry array die.0 }
    ensures fits { IsHeader result }
{
    Header {
        die,
        geometry,
        clean: true,
        spare: true,
        epoch: 0,
        mask: 0,
        array,
    }
}

/// The bytes of a header in a format.
pub(crate) fn sealed(header: &Header, format: HeaderFormat) -> [u8; HEADER_BYTES]
    requires { IsHeader header.now }
    ensures { result ≡ header_bytes (format_number format) header.now }
{
    match format {
        HeaderFormat::One => seal_header_1(header),
        HeaderFormat::Two => seal_header(header),
    }
}

/// The mask of the first so many dies.
fn mask_below(dies: u32) -> u64
    requires { dies ≤ 64 }
    ensures { result ≡ first_dies dies }
{
    match 1u64.checked_shl(dies) {
        Some(next) => next - 1,
        None => u64::MAX,
    }
}
