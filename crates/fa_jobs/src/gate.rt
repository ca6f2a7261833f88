//! What stands before and behind each call of an image.
use fa_types::Die;

/// A call of an image.
#[derive(Clone, Copy)]
pub enum ImageCallKind {
    /// A slot is read.
    ReadSlot,
    /// A slot is written with what a write said, or with a copy of another die's.
    Program,
    /// A slot is written with what stood in another slot of the die.
    Move,
    /// A block is erased.
    EraseBlock,
    /// The header is written.
    WriteHeader,
    /// What was written is synced.
    Sync,
}

/// Who is told of each call that a job makes of its die's image, before it and after it.
pub trait Gate {
    /// The call is about to be made.
    fn before(&self, die: Die, call: ImageCallKind);

    /// The call has ended.
    fn after(&self, die: Die, call: ImageCallKind);
}

/// A gate that is always open.
#[derive(Clone, Copy)]
pub struct Open;

impl Gate for Open {
    fn before(&self, _die: Die, _call: ImageCallKind) {}

    fn after(&self, _die: Die, _call: ImageCallKind) {}
}
