//! What lines ask of a store.
use crate::bare_jobs::do_bare;
use crate::lab::Lab;
use crate::script::Script;
use crate::turn::Turn;
use fa_types::Blocks;
use flasharr_lab_calls::{ask, do_free};
use flasharr_lab_parts::{DieImage, Yard};
use flasharr_lab_words::Wish;

/// Does what lines ask of a store, up to one that is none of a store's.
pub fn ask_all<'a, I: DieImage, B: Blocks>(
    script: &mut Script,
    lab: &mut Lab<'a>,
    yard: &mut Yard<'a, I>,
    store: &mut B,
) {
    'lines: for _ in 0..u64::MAX {
        if !script.goes_on(&mut lab.tools) || !ask_line(&script.turn, lab, yard, store) {
            break 'lines;
        }
        script.turn.done(&mut lab.tools);
    }
}

/// Does what a line asks of a store. False where it asks for something else.
fn ask_line<'a, I: DieImage, B: Blocks>(
    turn: &Turn,
    lab: &mut Lab<'a>,
    yard: &mut Yard<'a, I>,
    store: &mut B,
) -> bool {
    let order = &turn.order;
    let Lab { tools, beside, .. } = lab;
    match order.wish {
        Wish::Ask(wish) => ask(order, wish, tools, &mut beside.said, store),
        Wish::Bare(wish) => do_bare(wish, order.numbers.as_slice(), tools, yard),
        Wish::Free(wish) => do_free(order, wish, tools, beside),
        _ => return false,
    }
    true
}
