//! Turns of a request that is done in parts, side by side.
ghost use Rattle.fa_shared_request.specs.PartCounts.{PartsGoOn};

use crate::turn::Turn;
use crate::turning::turn_on;
use fa_core_calls::Events;
use fa_shared_lock::{Locked, Seat};
use fa_shared_request::{Op, Part, TOGETHER};
use fa_shared_sleepers::Awaits;
use std::alloc::Allocator;
use std::sync::Wait;
use std::sync::ledger::Ledger;

/// How the parts of a request stand behind their turns.
#[derive(Clone, Copy)]
struct Stand {
    /// How many have something to prepare.
    prepares: usize,
    /// Some wait for what dies do.
    works: bool,
    /// Some wait for what others hold up.
    waits: bool,
}

impl Stand {
    /// One part more, whose last turn came to this.
    fn count<L: Ledger, E: Events<A>, A: Allocator + Copy>(
        &mut self,
        turn: Turn,
        op: &Op<A, A>,
        locked: &Locked<L, E, A>,
        seat: u32,
    ) {
        match turn {
            Turn::Prepare => self.prepares = self.prepares.saturating_add(1),
            Turn::Wait => match op.awaits(locked, seat) {
                Awaits::Room(_) | Awaits::Change => self.waits = true,
                _ => self.works = true,
            },
            Turn::More | Turn::End => {}
        }
    }
}

/// Makes turns of each part while each leads to the next, and answers what is next for them together.
pub fn turn_all<R: Wait, L: Ledger, E: Events<A>, A: Allocator + Copy>(
    rt: &R,
    parts: &mut [Part<A>],
    locked: &mut Locked<L, E, A>,
    seat: &mut Seat<L>,
) -> Turn
    ensures { PartsGoOn seat.old parts.old seat.new parts.new }
{
    let mut stand = Stand {
        prepares: 0,
        works: false,
        waits: false,
    };
    for part in parts {
        let turn = turn_on(rt, &mut part.op, locked, seat);
        stand.count(turn, &part.op, locked, seat.number());
    }
    next_for(stand)
}

/// What is next for parts that stand so: to prepare, to wait, or nothing, where all have ended.
///
/// What is to be hashed waits until there is as much as is prepared at a time, while dies work for other parts. It never does while a part
/// waits for others, since these may wait for the page that it has claimed.
fn next_for(stand: Stand) -> Turn {
    let Stand {
        prepares,
        works,
        waits,
    } = stand;
    if prepares >= TOGETHER || (prepares > 0 && (waits || !works)) {
        Turn::Prepare
    } else if works || waits {
        Turn::Wait
    } else {
        Turn::End
    }
}

/// What parts wait for, where whoever has this seat waits for them: what dies do for one that waits for that, or else what others hold up.
/// It is the one behind which as many parts have a page to hash as are prepared at a time, if so many wait: dies make programs in the order
/// in which they were reserved, and before that there is little to do. Of those that wait for room it is the first.
pub fn awaits_of<L: Ledger, E: Events<A>, A: Allocator + Copy>(
    parts: &[Part<A>],
    locked: &Locked<L, E, A>,
    seat: u32,
) -> Awaits {
    let mut ready = parts.iter().filter(|part| part.op.has_content()).count();
    let mut last = None;
    let mut waits = false;
    let mut room = None;
    for part in parts {
        match part.op.awaits(locked, seat) {
            Awaits::Change => waits = true,
            Awaits::Room(dies) if room.is_none() => room = Some(dies),
            Awaits::Room(_) => {}
            awaits => {
                last = Some(awaits);
                ready = ready.saturating_add(1);
                if ready >= TOGETHER {
                    break;
                }
            }
        }
    }
    match (last, room) {
        (Some(awaits), _) => awaits,
        (None, Some(dies)) if !waits => Awaits::Room(dies),
        (None, _) => Awaits::Change,
    }
}
