//! What those who ask are shown.
use std::alloc::AllocError;

/// A text that tells how what is shown is at the moment.
#[derive(Clone, Copy)]
pub enum Text {
    /// Lines for a terminal.
    Lines,
    /// Metrics.
    Metrics,
    /// A document.
    Document,
}

/// What those who ask are shown. Whoever answers by it is not changed by a look, be it refused or not, so each call takes it by a shared
/// reference.
pub trait Shown {
    /// Whether nobody is to be shown it any more.
    fn is_over(&self) -> bool;

    /// Takes the sample of a second that has passed. It is called at least ten times a second.
    fn sample(&self);

    /// The page for a browser, which asks for the document.
    fn page(&self) -> &'static str;

    /// A text. The error is out of memory.
    fn text(&self, text: Text) -> Result<String, AllocError>;
}
