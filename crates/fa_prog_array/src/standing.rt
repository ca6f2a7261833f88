//! How an array and its dies stand.
use fa_core::Array;
use fa_map_calls::Map;
use fa_prog_status::{DieState, PlanStatus};
use fa_prog_watch::{Moment, Sight};
use fa_types::Die;

/// What an array says of itself.
pub(crate) fn moment_of<M: Map>(array: &Array<M>) -> Moment {
    let plans = array.plan_counts();
    Moment {
        epoch: array.epoch(),
        round: array.now().0,
        plans: PlanStatus {
            batches: plans.batches,
            pages: plans.pages,
            rounds: plans.rounds,
            naive_rounds: plans.naive_rounds,
        },
        dropped: match array.plan_log_counts() {
            Some(kept) => kept.dropped,
            None => 0,
        },
    }
}

/// How an array stands, each of whose pages is to have this number of copies.
pub(crate) fn sight_of<M: Map>(array: &Array<M>, copies: u32) -> Sight {
    let mut live = [false; 64];
    let (mut dies, mut open, mut roomy) = (0u32, 0u32, 0u32);
    for number in 0..array.geometry().dies {
        let die = Die(number as u8);
        if array.is_live(die) {
            dies = dies.saturating_add(1);
            if let Some(place) = live.get_mut(number as usize) {
                *place = true;
            }
            let has_room = array.room(die) > 0;
            if has_room {
                open = open.saturating_add(1);
            }
            if has_room || array.victim(die).is_some() {
                roomy = roomy.saturating_add(1);
            }
        }
    }
    let is_thin = array.next_thin().is_some() || array.copy_open();
    Sight {
        live,
        is_thin,
        is_healed: !is_thin && open == dies,
        is_full: roomy < copies.min(dies),
    }
}

/// How a die stands, and whether it is behind.
pub(crate) fn standing_of<M: Map>(array: &Array<M>, die: Die, has_image: bool) -> (DieState, bool) {
    if array.is_live(die) {
        (DieState::Live, array.is_behind(die))
    } else if !has_image {
        (DieState::Missing, false)
    } else if array.is_spare(die) {
        (DieState::Spare, false)
    } else {
        (DieState::Out, false)
    }
}
