//! What is kept from one line to the next.
use crate::desk::Desk;
use flasharr_lab_calls::Beside;
use flasharr_lab_parts::{Heap, Tools};

/// What is kept from one line to the next: what lines are answered with, what is kept of an array, and what is kept beside arrays.
#[derive(Drop)]
pub struct Lab<'a> {
    pub tools: Tools<'a>,
    pub desk: Desk<'a>,
    pub beside: Beside,
}

impl<'a> Lab<'a> {
    /// Nothing is kept yet.
    pub fn new(rt: &'a HostRuntime, heap: &'a Heap) -> Lab<'a> {
        let alloc = rt.alloc();
        Lab {
            tools: Tools::new(rt, heap),
            desk: Desk::new(alloc),
            beside: Beside::new(alloc),
        }
    }

    /// The heap of the array.
    pub fn heap(&self) -> &'a Heap {
        self.tools.heap()
    }
}
