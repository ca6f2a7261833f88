//! The line that is done.
use flasharr_lab_parts::Tools;
use flasharr_lab_words::Order;
use std::alloc::Global;
use std::process::ExitCode;

/// The status where input or output failed, or memory of the program's own.
const BROKEN: u8 = 1;

/// The status where a line is none of the program's, or its arguments are not.
pub const FAULTY: u8 = 2;

/// How the lines ended.
#[derive(Clone, Copy)]
pub enum End {
    /// The input did.
    Input,
    /// A line is none of the program's.
    NoLine,
    /// Input or output failed.
    Broken,
}

/// What the line asks for that was read last, and how far it is.
#[derive(Drop)]
pub struct Turn {
    /// What it asks for.
    pub order: Order,
    /// How often that is yet to be done.
    left: u64,
    /// How many lines were read.
    lines: u64,
    end: Option<End>,
}

impl Turn {
    /// No line was read yet.
    pub fn new(alloc: Global) -> Turn {
        Turn {
            order: Order::nothing(alloc),
            left: 0,
            lines: 0,
            end: None,
        }
    }

    /// Whether what the line asks for is to be done once more.
    pub fn is_due(&self) -> bool {
        self.left > 0
    }

    /// Whether no line comes any more.
    pub fn is_over(&self) -> bool {
        self.end.is_some()
    }

    /// No line comes any more.
    pub fn stop(&mut self, end: End) {
        self.end = Some(end);
    }

    /// A line was read.
    pub fn begin(&mut self, line: &str, tools: &mut Tools<'_>) {
        self.lines = self.lines.saturating_add(1);
        match Order::of(tools.alloc, line) {
            Ok(Some(order)) => self.take(order, tools),
            Ok(None) => self.refuse(tools),
            Err(_) => self.stop(End::Broken),
        }
    }

    /// This is what the line asks for.
    fn take(&mut self, order: Order, tools: &mut Tools<'_>) {
        self.left = order.times.unwrap_or(1);
        tools.meter.begin(order.times.is_some());
        self.order = order;
    }

    /// What was asked for was done once, and the answer was given.
    pub fn done(&mut self, tools: &mut Tools<'_>) {
        self.left = self.left.saturating_sub(1);
        tools.meter.note();
        if self.left == 0 {
            tools.end_answer();
        } else {
            tools.output.begin();
        }
    }

    /// What was asked for last cannot be: no array has such numbers.
    pub fn refuse(&mut self, tools: &mut Tools<'_>) {
        self.left = 0;
        tools.meter.begin(false);
        tools.output.pair("no line of a text:", self.lines);
        tools.end_answer();
        self.stop(End::NoLine);
    }

    /// The status that the program ends with. What is left is printed.
    pub fn finish(&self, tools: &mut Tools<'_>) -> ExitCode {
        if tools.flush().is_err() || !tools.output.is_whole() {
            return ExitCode::from(BROKEN);
        }
        match self.end {
            None | Some(End::Input) => ExitCode::SUCCESS,
            Some(End::NoLine) => ExitCode::from(FAULTY),
            Some(End::Broken) => ExitCode::from(BROKEN),
        }
    }
}
