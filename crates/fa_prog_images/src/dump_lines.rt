//! The lines of the written pages of an array.
ghost use Rattle.std.specs.Prelude.{◌≡◌, ◌++◌, Some, IfOk, OnOk, string_bytes};
ghost use Rattle.fa_prog_images.specs.Lines.{place_text, head_text, copies_text, line_text, dump_text as text_of, kind_text};

use fa_machine::Version;
use fa_map_calls::Map;
use fa_mount_scan::{Mounted, WrittenPage};
use fa_prog_host::printing::push_number;
use fa_types::{Die, Kind, Page, Slot};
use std::alloc::{AllocError, Allocator};

/// A line for each page of an array that was written, the pages rising.
pub(crate) fn dump_text<M: Map + Drop, B: Allocator, A: Allocator>(
    alloc: A,
    mounted: &Mounted<M, B>,
) -> Result<String<A>, AllocError>
    ensures { IfOk result (λ out. string_bytes out ≡ text_of (M.view mounted.now.map)) }
{
    let mut out = String::new(alloc);
    for page in mounted.pages() {
        push_page(&mut out, &page)?;
    }
    Ok(out)
}

/// Adds the line of a page.
fn push_page<M: Map, A: Allocator>(
    out: &mut String<A>,
    page: &WrittenPage<'_, M>,
) -> Result<(), AllocError>
    ensures { OnOk result (string_bytes out.new ≡ string_bytes out.old ++ line_text page.now) }
{
    push_head(out, page.page, page.version)?;
    push_places(out, page)?;
    out.push('\n')
}

/// Adds the beginning of the line of a page.
fn push_head<A: Allocator>(
    out: &mut String<A>,
    page: Page,
    version: Version,
) -> Result<(), AllocError>
    ensures { OnOk result (string_bytes out.new ≡ string_bytes out.old ++ head_text page.0 version) }
{
    out.push_str("page ")?;
    push_number(out, page.0)?;
    out.push_str(" seq ")?;
    push_number(out, version.seq.0)?;
    out.push_str(kind_told(version.kind))
}

/// What is told of a kind, before the places.
fn kind_told(kind: Kind) -> &'static str
    ensures { result.now ≡ kind_text kind }
{
    match kind {
        Kind::Data => " at",
        Kind::Hole => " hole at",
    }
}

/// Adds the places of the current copies of a page.
fn push_places<M: Map, A: Allocator>(
    out: &mut String<A>,
    page: &WrittenPage<'_, M>,
) -> Result<(), AllocError>
    ensures { OnOk result (string_bytes out.new ≡ string_bytes out.old ++ copies_text page.now.places) }
{
    for (die, slot) in page.places() {
        push_place(out, die, slot)?;
    }
    Ok(())
}

/// Adds a place.
fn push_place<A: Allocator>(out: &mut String<A>, die: Die, slot: Slot) -> Result<(), AllocError>
    ensures { OnOk result (string_bytes out.new ≡ string_bytes out.old ++ place_text die.0 (Some slot.0)) }
{
    out.push_str(" ")?;
    push_number(out, u64::from(die.0))?;
    out.push_str(":")?;
    push_number(out, u64::from(slot.0))
}
