//! What has no array.
use crate::digests::hash_text;
use crate::plans::plan_text;
use crate::session::time_session;
use crate::slots::{make_slots, open_all_slots, seal_all_slots};
use flasharr_lab_parts::Tools;
use flasharr_lab_words::{Free, Order, bytes_of, index_of, number_at};
use std::alloc::Global;

/// What is kept from one line to the next beside an array.
#[derive(Drop)]
pub struct Beside {
    /// What a client says that was not served yet.
    pub said: Vec<u8>,
    /// Room for slots.
    slots: Vec<Vec<u8>>,
}

impl Beside {
    /// Nothing is kept yet.
    pub fn new(alloc: Global) -> Beside {
        Beside {
            said: Vec::new(alloc),
            slots: Vec::new(alloc),
        }
    }
}

/// Does what a line asks for that has no array, and tells it.
pub fn do_free(order: &Order, wish: Free, tools: &mut Tools<'_>, beside: &mut Beside) {
    let numbers = order.numbers.as_slice();
    let text = order.text.as_str();
    match wish {
        Free::Nothing => do_nothing(tools),
        Free::Refuse => set_heap(tools, number_at(numbers, 0), usize::MAX),
        Free::Full => set_heap(tools, 0, index_of(number_at(numbers, 0))),
        Free::Open => set_heap(tools, 0, usize::MAX),
        Free::Heap => show_heap(tools),
        Free::Say => say(text, tools, &mut beside.said),
        Free::Digests => hash_text(text, tools),
        Free::PlanText => plan_text(text, tools, false),
        Free::CheckText => plan_text(text, tools, true),
        Free::Slots => make_slots(numbers, tools, &mut beside.slots),
        Free::Seal => seal_all_slots(tools, beside.slots.as_mut_slice()),
        Free::OpenSlots { together } => open_all_slots(tools, beside.slots.as_slice(), together),
        Free::Session {
            is_write,
            is_served,
        } => time_session(numbers, tools, is_write, is_served),
    }
}

/// Two looks at the clock, and nothing between.
fn do_nothing(tools: &mut Tools<'_>) {
    let start = tools.meter.start();
    tools.meter.stop(start);
    tools.output.word("nothing");
}

/// From now on the request of the number `due` is refused, and each of more than `max_bytes` bytes.
fn set_heap(tools: &mut Tools<'_>, due: u64, max_bytes: usize) {
    tools.heap().refuse(due, max_bytes);
    tools.output.word("heap");
}

/// Tells how many requests there were, and the bytes that are in use.
fn show_heap(tools: &mut Tools<'_>) {
    let heap = tools.heap();
    tools.output.pair("heap made", heap.made());
    tools.output.pair("refused", heap.refused());
    tools.output.pair("used", heap.used() as u64);
}

/// A client says more.
fn say(digits: &str, tools: &mut Tools<'_>, said: &mut Vec<u8>) {
    match bytes_of(tools.alloc, digits) {
        Some(bytes) => {
            if said.extend_from_slice(bytes.as_slice()).is_err() {
                tools.output.fail();
            }
            tools.output.word("said");
        }
        None => tools.output.word("no bytes"),
    }
}
