//! Whether a turn led on.
use crate::turn::Turn;
use fa_shared_steps::{Stage, Wish};
use std::alloc::Allocator;

/// The kinds of stages that a turn leads from and to.
#[derive(Clone, Copy, PartialEq, Eq)]
pub(crate) enum Kind {
    Prepares,
    Asks,
    Reads,
    Leaves,
    Claims,
    Reserves,
    ReservesFewer,
    Commits,
    Abandons,
    Releases,
    BeginsFlush,
    Flushes,
    Ended,
}

pub(crate) fn kind_of<A: Allocator>(stage: &Stage<A>) -> Kind {
    match stage {
        Stage::Listing(_) | Stage::Sorting(_, _) | Stage::Filling(_, _) => Kind::Prepares,
        Stage::Asking(_, _) => Kind::Asks,
        Stage::Reading(_, _) => Kind::Reads,
        Stage::Leaving(_, _, _) => Kind::Leaves,
        Stage::Claiming(_) => Kind::Claims,
        Stage::Reserving(_, Wish::Fewer(_)) => Kind::ReservesFewer,
        Stage::Reserving(_, _) => Kind::Reserves,
        Stage::Committing(_, _) => Kind::Commits,
        Stage::Abandoning(_, _) => Kind::Abandons,
        Stage::Releasing(_, _) => Kind::Releases,
        Stage::BeginningFlush => Kind::BeginsFlush,
        Stage::Flushing(_) => Kind::Flushes,
        Stage::Ended(_) => Kind::Ended,
    }
}

/// What a turn from one kind to another came to. One that leads to the same kind waits.
pub(crate) fn turn_from(before: Kind, after: Kind) -> Turn {
    match after {
        Kind::Prepares => Turn::Prepare,
        Kind::Ended => Turn::End,
        _ => {
            if before == after {
                Turn::Wait
            } else {
                Turn::More
            }
        }
    }
}
