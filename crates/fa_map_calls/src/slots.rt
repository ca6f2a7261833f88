//! What a page map shows of a slot and of a block.

/// The state of a slot.
#[derive(Clone, Copy)]
pub enum SlotState {
    /// Nothing was written there since the last erase of its block.
    Erased,
    /// It is kept for a copy that is not current yet, programmed or not.
    Reserved,
    /// It holds a current copy of a page.
    Current,
    /// What it holds is of no use, and goes at the next erase of its block.
    Stale,
}

/// How many slots of a block are in each state.
#[derive(Clone, Copy, PartialEq, Eq)]
pub struct BlockCounts {
    /// Erased slots.
    pub erased: u32,
    /// Reserved slots.
    pub reserved: u32,
    /// Slots that hold a current copy.
    pub current: u32,
    /// Stale slots.
    pub stale: u32,
}
