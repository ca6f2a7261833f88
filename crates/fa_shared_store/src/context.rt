//! What the requests of a store are made with.
ghost use Rattle.std.specs.Prelude.{◌≤◌};

use fa_core_calls::Events;
use fa_shared::Shared;
use std::alloc::Allocator;
use std::sync::ledger::Ledger;

/// What the requests of a store are made with.
#[derive(Drop)]
pub(crate) struct Context<'a, R, L: Ledger, E: Events<A>, A: Allocator + Copy> {
    /// What waits and sleeps.
    pub(crate) rt: &'a R,
    /// Where memory comes from.
    pub(crate) alloc: A,
    /// The array.
    pub(crate) shared: &'a Shared<L, E, A>,
    /// The bytes of a page.
    pub(crate) page_bytes: u32,
    ghost some_bytes: { 1 ≤ page_bytes },
    ghost small_pages: { page_bytes ≤ 4096 },
}
