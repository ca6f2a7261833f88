//! Numbers with a name of their own.

/// The number of a page of the disk, from 0.
#[derive(Clone, Copy, Debug, PartialEq, Eq)]
pub struct Page(pub u64);

/// The number of a flash die, from 0.
#[derive(Clone, Copy, Debug, PartialEq, Eq)]
pub struct Die(pub u8);

/// The number of a slot of a die, from 0. A slot holds one page.
#[derive(Clone, Copy, PartialEq, Eq)]
pub struct Slot(pub u32);

/// A round, from 1. A die serves at most one booked read in a round.
#[derive(Clone, Copy, PartialEq, Eq)]
pub struct Round(pub u64);

/// The sequence number of a write of a page, from 1.
#[derive(Clone, Copy, PartialEq, Eq)]
pub struct Seq(pub u64);
