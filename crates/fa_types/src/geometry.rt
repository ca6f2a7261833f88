//! The shape of an array, within its limits.
ghost use Rattle.std.specs.Prelude.{◌≡◌, ◌≤◌, ◌↔◌, IfOk, IfErr, IsTrue};
ghost use Rattle.fa_types.specs.Geometry.{AreDies, AreBlocks, AreSlotsOfBlock, ArePages, is_page_size as page_size_test};
ghost use Rattle.fa_types.specs.Geometry.{IsGeometry, IsFirstFault, geometry_fault_number};

use thiserror::Error;

/// How many dies, blocks, slots and pages an array has. Only [`Geometry::new`] judges numbers from
/// outside; a value is always within the limits.
#[derive(Clone, Copy, PartialEq, Eq)]
pub struct Geometry {
    /// Dies, spares among them: 2 to 64.
    pub dies: u32,
    /// Spare dies: at most `dies - 2`.
    pub spares: u32,
    /// Blocks of a die: 4 to 4096.
    pub blocks: u32,
    /// Slots of a block: 4 to 256.
    pub slots: u32,
    /// Bytes of a page: 512, 1024, 2048 or 4096.
    pub page_bytes: u32,
    /// Pages: 1 to 1,048,576, and `2 * pages <= (dies - spares) * (blocks - 2) * slots`.
    pub pages: u64,
    ghost within: { IsGeometry dies spares blocks slots page_bytes pages },
}

/// What is outside its limits.
#[derive(Clone, Copy, Debug, Error)]
pub enum GeometryFault {
    /// Fault 1: not 2 to 64 dies, or more than all but two of them spare.
    #[error("dies or spares outside their limits")]
    Dies,
    /// Fault 2: not 4 to 4096 blocks.
    #[error("blocks outside their limits")]
    Blocks,
    /// Fault 3: not 4 to 256 slots of a block.
    #[error("slots outside their limits")]
    Slots,
    /// Fault 4: a page of another size than 512, 1024, 2048 or 4096 bytes.
    #[error("no size of a page")]
    PageBytes,
    /// Fault 5: no page, more than 1,048,576, or more than the dies hold twice.
    #[error("pages outside their limits")]
    Pages,
    /// Fault 6: not 2 or 3 copies, more than the dies in use, or more of each page than these hold.
    #[error("copies outside their limits")]
    Copies,
}

impl GeometryFault {
    /// The fault's number, 1 to 6.
    pub fn number(self) -> u8
        ensures { result ≡ geometry_fault_number self }
    {
        match self {
            GeometryFault::Dies => 1,
            GeometryFault::Blocks => 2,
            GeometryFault::Slots => 3,
            GeometryFault::PageBytes => 4,
            GeometryFault::Pages => 5,
            GeometryFault::Copies => 6,
        }
    }
}

impl Geometry {
    /// The geometry of these numbers, or the first fault of 1 to 5 that they have.
    pub fn new(
        dies: u32,
        spares: u32,
        blocks: u32,
        slots: u32,
        page_bytes: u32,
        pages: u64,
    ) -> Result<Geometry, GeometryFault>
        ensures numbers { IfOk result (λ g. (g.dies ≡ dies) × (g.spares ≡ spares) × (g.blocks ≡ blocks)
            × (g.slots ≡ slots) × (g.page_bytes ≡ page_bytes) × (g.pages ≡ pages)) }
        ensures fault { IfErr result (IsFirstFault dies spares blocks slots page_bytes pages) }
    {
        if !are_dies(dies, spares) {
            return Err(GeometryFault::Dies);
        }
        if !(4..=4096).contains(&blocks) {
            return Err(GeometryFault::Blocks);
        }
        if !(4..=256).contains(&slots) {
            return Err(GeometryFault::Slots);
        }
        if !is_page_size(page_bytes) {
            return Err(GeometryFault::PageBytes);
        }
        if !are_pages(dies, spares, blocks, slots, pages) {
            return Err(GeometryFault::Pages);
        }
        Ok(Geometry {
            dies,
            spares,
            blocks,
            slots,
            page_bytes,
            pages,
        })
    }
}

/// Whether there are so many dies, and two of them in use.
fn are_dies(dies: u32, spares: u32) -> bool
    ensures { IsTrue result ↔ AreDies dies spares }
{
    2 <= dies && dies <= 64 && spares <= dies - 2
}

fn is_page_size(bytes: u32) -> bool
    ensures { result ≡ page_size_test bytes }
{
    matches!(bytes, 512 | 1024 | 2048 | 4096)
}

/// Whether there are so many pages, and the dies in use hold each twice.
fn are_pages(dies: u32, spares: u32, blocks: u32, slots: u32, pages: u64) -> bool
    requires dies { AreDies dies spares }
    requires blocks { AreBlocks blocks }
    requires slots { AreSlotsOfBlock slots }
    ensures { IsTrue result ↔ ArePages dies spares blocks slots pages }
{
    let room = u64::from(dies - spares) * u64::from(blocks - 2) * u64::from(slots);
    1 <= pages && pages <= 1_048_576 && 2 * pages <= room
}
