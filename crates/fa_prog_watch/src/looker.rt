//! Who looks at an array for those who ask.
use crate::census::Census;
use crate::subject::Subject;
use crate::watched::Watched;
use fa_prog_clients::Networked;
use fa_prog_looks::{Shown, Text};
use fa_prog_status::{PAGE, PageStatus, Rates, Status, document_text, lines_text, metrics_text};
use std::alloc::{AllocError, Global};
use std::cell::RefCell;

/// Who looks at an array, with what it has counted. It is made before its thread is started.
#[derive(Drop)]
pub struct Looker {
    census: Census,
    rates: Rates,
}

impl Looker {
    /// One that has not looked yet. The error is out of memory.
    pub fn new(global: Global) -> Result<Looker, AllocError> {
        let rates = Rates::new(global)?;
        Ok(Looker {
            census: Census::new(global),
            rates,
        })
    }

    /// A text of what is looked at. The error is out of memory.
    fn look<R: Networked, W: Watched>(
        &mut self,
        rt: &R,
        subject: &Subject<'_, W>,
        text: Text,
    ) -> Result<String, AllocError> {
        self.census.renew(rt, subject.watched)?;
        let status = subject.status(rt.alloc(), self.census.slots.as_slice())?;
        text_of(rt.alloc(), text, &status, &self.census.pages, &self.rates)
    }
}

/// Who looks at this array, in a thread.
#[derive(Drop)]
pub struct Looking<'a, R, W> {
    rt: &'a R,
    subject: Subject<'a, W>,
    // One thread has it, which uses it in one place at a time.
    looker: RefCell<Looker>,
}

impl<'a, R: Networked, W: Watched> Looking<'a, R, W> {
    /// Whoever looks at this array.
    pub fn new(rt: &'a R, subject: Subject<'a, W>, looker: Looker) -> Looking<'a, R, W> {
        Looking {
            rt,
            subject,
            looker: RefCell::new(looker),
        }
    }
}

/// The array is shown until the queue of its clients is closed.
impl<R: Networked, W: Watched> Shown for Looking<'_, R, W> {
    fn is_over(&self) -> bool {
        self.subject.accept_queue.is_closing(self.rt)
    }

    fn sample(&self) {
        if let Ok(mut looker) = self.looker.try_borrow_mut() {
            looker.rates.sample(self.rt, self.subject.counts);
        }
    }

    fn page(&self) -> &'static str {
        PAGE
    }

    fn text(&self, text: Text) -> Result<String, AllocError> {
        match self.looker.try_borrow_mut() {
            Ok(mut looker) => looker.look(self.rt, &self.subject, text),
            Err(_) => Err(AllocError),
        }
    }
}

/// A text of an array that is so. The error is out of memory.
fn text_of(
    global: Global,
    text: Text,
    status: &Status<'_>,
    pages: &PageStatus,
    rates: &Rates,
) -> Result<String, AllocError> {
    match text {
        Text::Lines => lines_text(global, status, pages, rates),
        Text::Metrics => metrics_text(global, status, pages),
        Text::Document => document_text(global, status, pages, rates),
    }
}
