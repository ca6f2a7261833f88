//! What `check` and `dump` print as one JSON document.
ghost use Rattle.std.specs.Prelude.{◌≡◌, ℕ, List, [], ◌∷◌, ◌++◌, Some, map, string_bytes, IfOk, OnOk};
ghost use Rattle.fa_mount_scan.specs.Pages.{written_pages};
ghost use Rattle.serde.specs.Event.{Log};
ghost use Rattle.serde_json.specs.Sent.{IsTextOf};
ghost use Rattle.fa_prog_images.specs.Documents.{WritesMember, check_data, document_line, dump_data, kind_name, written_of};

use crate::table::DieRow;
use fa_machine::Version;
use fa_map_calls::Map;
use fa_mount_scan::{Mounted, Report, WrittenPage};
use fa_types::{Die, Kind, Page, Slot};
use serde::{Described, Serialize, Serializer};
use std::alloc::{AllocError, Global};

/// What `check` tells, with the table of dies.
#[derive(Clone, Copy)]
struct CheckDocument<'a> {
    report: &'a Report,
    table: &'a [DieRow<'a>],
}

/// What `dump` tells, with the table of dies.
#[derive(Clone, Copy)]
struct DumpDocument<'a> {
    pages: &'a [PageRow],
    table: &'a [DieRow<'a>],
}

/// A page that was written, and where its copies stand.
#[derive(Drop)]
pub struct PageRow {
    /// The page.
    pub page: Page,
    /// Its last write.
    pub version: Version,
    /// The places of its copies.
    pub copies: Vec<PlaceRow>,
}

/// The place of a copy.
#[derive(Clone, Copy)]
pub struct PlaceRow {
    /// The die.
    pub die: Die,
    /// The slot.
    pub slot: Slot,
}

/// The document of `check`, on a line of its own.
pub(crate) fn check_json(
    global: Global,
    report: &Report,
    table: &[DieRow<'_>],
) -> Result<String, AllocError>
    ensures { IfOk result (λ line. string_bytes line ≡ document_line (check_data report.now table.now)) }
{
    line_of(global, &CheckDocument { report, table })
}

/// The document of `dump`, on a line of its own.
pub(crate) fn dump_json<M: Map + Drop>(
    global: Global,
    mounted: &Mounted<M>,
    table: &[DieRow<'_>],
) -> Result<String, AllocError>
    ensures { IfOk result (λ line. string_bytes line ≡ document_line (dump_data (written_pages (M.view mounted.now.map)) table.now)) }
{
    let pages = page_rows(global, mounted)?;
    line_of(
        global,
        &DumpDocument {
            pages: &pages,
            table,
        },
    )
}

/// A document on a line of its own.
fn line_of<T: Serialize>(global: Global, document: &T) -> Result<String, AllocError>
    ensures { IfOk result (λ line. (log : Log) × (text : List ℕ) × T.writes document.now (Some []) log × IsTextOf log text
        × (string_bytes line ≡ text ++ 10 ∷ [])) }
{
    let Ok(mut line) = serde_json::to_string(global, document) else {
        return Err(AllocError);
    };
    line.push('\n')?;
    Ok(line)
}

/// The rows of the pages that were written, the pages rising.
fn page_rows<M: Map + Drop>(
    global: Global,
    mounted: &Mounted<M>,
) -> Result<Vec<PageRow>, AllocError>
    ensures { IfOk result (λ rows. map written_of rows.items ≡ written_pages (M.view mounted.now.map)) }
{
    let mut rows = Vec::new(global);
    for page in mounted.pages() {
        rows.push(page_row(global, &page)?)?;
    }
    Ok(rows)
}

/// The row of a page that was written.
fn page_row<M: Map + Drop>(global: Global, page: &WrittenPage<'_, M>) -> Result<PageRow, AllocError>
    ensures { IfOk result (λ row. written_of row ≡ page.now) }
{
    let copies = place_rows(global, page)?;
    Ok(PageRow {
        page: page.page,
        version: page.version,
        copies,
    })
}

/// The places of the copies of a page.
fn place_rows<M: Map + Drop>(
    global: Global,
    page: &WrittenPage<'_, M>,
) -> Result<Vec<PlaceRow>, AllocError>
    ensures { IfOk result (λ rows. map (λ row. (row.die, row.slot)) rows.items ≡ page.now.places) }
{
    let mut rows = Vec::new(global);
    for (die, slot) in page.places() {
        rows.push(PlaceRow { die, slot })?;
    }
    Ok(rows)
}

/// What a kind is called.
fn kind_word(kind: Kind) -> &'static str
    ensures { result.now ≡ kind_name kind }
{
    match kind {
        Kind::Data => "data",
        Kind::Hole => "hole",
    }
}

/// Writes a member of an object.
fn write_member<S: Serializer, T: Serialize>(
    out: &mut S,
    name: &str,
    value: &T,
) -> Result<(), S::Error>
    ensures { OnOk result (WritesMember T.writes name.now value.now (S.written out.old) (S.written out.new)) }
{
    out.key(name)?;
    value.serialize(out)
}

impl Described for PlaceRow {
    ghost use Rattle.serde_json.specs.Events.{SendsValue};
    ghost use Rattle.fa_prog_images.specs.Documents.{place_data};

    ghost writes = { λ row. SendsValue (place_data (row.die, row.slot)) };
}

impl Serialize for PlaceRow {
    fn serialize<S: Serializer>(&self, out: &mut S) -> Result<(), S::Error> {
        out.begin_map(Some(2))?;
        write_member(out, "die", &self.die.0)?;
        write_member(out, "slot", &self.slot.0)?;
        out.end_map()
    }
}

impl Described for PageRow {
    ghost use Rattle.serde_json.specs.Events.{SendsValue};
    ghost use Rattle.fa_prog_images.specs.Documents.{page_data, written_of};

    ghost writes = { λ row. SendsValue (page_data (written_of row)) };
}

impl Serialize for PageRow {
    fn serialize<S: Serializer>(&self, out: &mut S) -> Result<(), S::Error> {
        out.begin_map(Some(4))?;
        write_member(out, "page", &self.page.0)?;
        write_member(out, "seq", &self.version.seq.0)?;
        write_member(out, "kind", &kind_word(self.version.kind))?;
        write_member(out, "copies", &self.copies)?;
        out.end_map()
    }
}

impl Described for DieRow<'_> {
    ghost use Rattle.serde_json.specs.Events.{SendsValue};
    ghost use Rattle.fa_prog_images.specs.Documents.{row_data};

    ghost writes = { λ row. SendsValue (row_data row) };
}

impl Serialize for DieRow<'_> {
    fn serialize<S: Serializer>(&self, out: &mut S) -> Result<(), S::Error> {
        out.begin_map(Some(8))?;
        write_member(out, "die", &self.die.0)?;
        write_member(out, "path", &self.path)?;
        write_member(out, "state", &self.state)?;
        write_member(out, "epoch", &self.epoch())?;
        write_member(out, "clean", &self.clean())?;
        write_member(out, "erased", &self.erased())?;
        write_member(out, "current", &self.current())?;
        write_member(out, "stale", &self.stale())?;
        out.end_map()
    }
}

impl Described for CheckDocument<'_> {
    ghost use Rattle.serde_json.specs.Events.{SendsValue};
    ghost use Rattle.fa_prog_images.specs.Documents.{check_data};

    ghost writes = { λ document. SendsValue (check_data document.report.now document.table.now) };
}

impl Serialize for CheckDocument<'_> {
    fn serialize<S: Serializer>(&self, out: &mut S) -> Result<(), S::Error> {
        out.begin_map(Some(8))?;
        write_member(out, "dies", &self.report.dies)?;
        write_member(out, "live", &self.report.live)?;
        write_member(out, "spare", &self.report.spares)?;
        write_member(out, "epoch", &self.report.epoch)?;
        write_member(out, "clean", &self.report.clean)?;
        write_member(out, "written", &self.report.written)?;
        write_member(out, "thin", &self.report.thin)?;
        write_member(out, "table", &self.table)?;
        out.end_map()
    }
}

impl Described for DumpDocument<'_> {
    ghost use Rattle.std.specs.Prelude.{map};
    ghost use Rattle.serde_json.specs.Events.{SendsValue};
    ghost use Rattle.fa_prog_images.specs.Documents.{dump_data, written_of};

    ghost writes = { λ document. SendsValue (dump_data (map written_of document.pages.now) document.table.now) };
}

impl Serialize for DumpDocument<'_> {
    fn serialize<S: Serializer>(&self, out: &mut S) -> Result<(), S::Error> {
        out.begin_map(Some(2))?;
        write_member(out, "pages", &self.pages)?;
        write_member(out, "table", &self.table)?;
        out.end_map()
    }
}
