//! The first fault of a geometry.
use fa_types::Geometry;
use std::test::Fail;

/// A geometry's fault by its number, 0 for none.
fn fault_of(dies: u32, spares: u32, blocks: u32, slots: u32, page_bytes: u32, pages: u64) -> u8 {
    match Geometry::new(dies, spares, blocks, slots, page_bytes, pages) {
        Ok(_) => 0,
        Err(fault) => fault.number(),
    }
}

#[test]
fn first_fault_of_several() -> Result<(), Fail> {
    ensure!(
        fault_of(1, 0, 3, 3, 511, 0) == 1
            && fault_of(4, 0, 3, 3, 511, 0) == 2
            && fault_of(4, 0, 16, 3, 511, 0) == 3
            && fault_of(4, 0, 16, 8, 511, 0) == 4
            && fault_of(4, 0, 16, 8, 512, 0) == 5
    );
    Ok(())
}
