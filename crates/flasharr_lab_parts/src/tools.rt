//! What lines are answered with.
use crate::heap::Heap;
use crate::meter::Meter;
use flasharr_lab_words::Output;
use std::alloc::Global;
use std::io;

/// What each line is answered with: memory of the program's own, the meter of calls, and what is printed.
#[derive(Drop)]
pub struct Tools<'a> {
    pub alloc: Global,
    pub meter: Meter<'a>,
    pub output: Output,
}

impl<'a> Tools<'a> {
    /// Nothing was answered yet.
    pub fn new(rt: &'a HostRuntime, heap: &'a Heap) -> Tools<'a> {
        let alloc = rt.alloc();
        Tools {
            alloc,
            meter: Meter::new(rt, heap),
            output: Output::new(alloc),
        }
    }

    /// The heap of the array.
    pub fn heap(&self) -> &'a Heap {
        self.meter.heap
    }

    /// The answer to a line is over.
    pub fn end_answer(&mut self) {
        if self.meter.is_timing() {
            self.output.put_times(self.meter.took());
        }
        self.output.end();
    }

    /// Prints what was answered.
    pub fn flush(&mut self) -> io::Result<()> {
        if self.output.text().is_empty() {
            return Ok(());
        }
        let printed = self.meter.rt.print(self.output.text());
        self.output.clear();
        printed
    }
}
