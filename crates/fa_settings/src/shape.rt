//! The numbers that shape an array, before they are judged together.
ghost use Rattle.std.specs.Prelude.{◌≡◌, IfOk, IfErr};
ghost use Rattle.toml.specs.View.{table_view};
ghost use Rattle.fa_types.specs.Geometry.{AreCopies};
ghost use Rattle.fa_settings.specs.Shapes.{shape_keys, IsShape, HasShape, IsShapeFault};
ghost use Rattle.fa_settings.specs.Faults.{IsFirstFault};

use crate::table::number_at;
use crate::values::page_bytes_at;
use crate::{Key, SettingsFault};
use fa_types::{Copies, Geometry, GeometryFault};
use std::alloc::Allocator;
use toml::Table;

/// The numbers of a geometry, each within its own limits.
#[derive(Clone, Copy)]
pub(crate) struct Shape {
    pub(crate) dies: u32,
    pub(crate) spares: u32,
    pub(crate) blocks: u32,
    pub(crate) slots: u32,
    pub(crate) page_bytes: u32,
    pub(crate) pages: u32,
}

/// The numbers of the geometry that a document has.
pub(crate) fn shape_at<A: Allocator>(table: &Table) -> Result<Shape, SettingsFault<A>>
    ensures shape { IfOk result (IsShape (table_view table.now)) }
    ensures fault { IfErr result (IsFirstFault (table_view table.now) shape_keys) }
{
    let dies = number_at(table, Key::Dies, 2, 64)?;
    let spares = number_at(table, Key::Spares, 0, 62)?;
    let blocks = number_at(table, Key::Blocks, 4, 4096)?;
    let slots = number_at(table, Key::Slots, 4, 256)?;
    let page_bytes = page_bytes_at(table)?;
    let pages = number_at(table, Key::Pages, 1, 1_048_576)?;
    Ok(Shape {
        dies,
        spares,
        blocks,
        slots,
        page_bytes,
        pages,
    })
}

/// The geometry of these numbers, with so many copies of each page.
pub(crate) fn judge(shape: Shape, copies: u32) -> Result<(Geometry, Copies), GeometryFault>
    ensures geometry { IfOk result (λ found. HasShape found.0 shape) }
    ensures copies { IfOk result (λ found. (found.1.number ≡ copies)
        × AreCopies copies shape.dies shape.spares shape.blocks shape.slots shape.pages) }
    ensures fault { IfErr result (IsShapeFault shape copies) }
{
    let geometry = Geometry::new(
        shape.dies,
        shape.spares,
        shape.blocks,
        shape.slots,
        shape.page_bytes,
        u64::from(shape.pages),
    )?;
    let copies = Copies::new(copies, geometry)?;
    Ok((geometry, copies))
}
