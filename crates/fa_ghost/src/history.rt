//! What has happened so far, as clauses see it.
ghost use Rattle.std.specs.Prelude.{◌≡◌};
ghost use Rattle.std.specs.Borrow.{ftrue};

use std::marker::{Model, PhantomData};

/// What a history of events shows: a `T`, as clauses see one, that each event takes a step further. It has
/// no bytes and owns nothing, and none of its calls does anything at run time. What it shows first, and
/// what a step does, is for the proof of the caller to say; the caller's clauses tie both to the code.
#[derive(Drop)]
pub struct History<T> {
    marker: PhantomData<T>,
    pub ghost shown: { T },
}

impl<T> Model for History<T> {
    ghost also_owns = { λ _. ftrue };
}

// It owns nothing, so it may go to another thread, and threads may share it.
unsafe impl<T> Send for History<T> {}

unsafe impl<T> Sync for History<T> {}

impl<T> History<T> {
    /// A history that shows this first.
    pub fn new() -> History<T>
        ghost first: { T }
        ensures { result.shown ≡ first }
    {
        History {
            marker: PhantomData,
        }
    }

    /// A history that begins with this event.
    pub fn begin<E>(event: &E) -> History<T>
        ghost first: { E → T }
        ensures { result.shown ≡ first event.now }
    {
        History::of(event)
    }

    /// Takes a step: the event happened.
    pub fn note<E>(&mut self, event: &E)
        ghost step: { E → T → T }
        ensures { self.new.shown ≡ step event.now self.old.shown }
    {
        *self = self.beside(event);
    }

    /// A history. There is nothing to read in the event: it is named only so that the caller can say what
    /// is shown.
    fn of<E>(_event: &E) -> History<T>
        ghost shown: { T }
        ensures { result.shown ≡ shown }
    {
        History::new()
    }

    /// The same, beside what is shown before the event.
    fn beside<E>(&self, _event: &E) -> History<T>
        ghost shown: { T }
        ensures { result.shown ≡ shown }
    {
        History::new()
    }
}
