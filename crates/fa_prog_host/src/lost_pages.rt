//! The lines of the file of lost pages.
use crate::printing::push_number;
use std::alloc::{AllocError, Global};

/// The pages that were lost, in ranges: a line for each, with its first page and its last one. They are noted in their order.
#[derive(Drop)]
pub struct LostPages {
    text: String,
    // The first and the last page of the range to which the next lost page may belong.
    range: Option<(u64, u64)>,
}

impl LostPages {
    /// None was noted.
    pub fn new(global: Global) -> LostPages {
        LostPages {
            text: String::new(global),
            range: None,
        }
    }

    /// One more lost page. The error is out of memory.
    pub fn note(&mut self, page: u64) -> Result<(), AllocError> {
        match self.range {
            Some((first, last)) if last.checked_add(1) == Some(page) => {
                self.range = Some((first, page));
                Ok(())
            }
            _ => {
                self.end_range()?;
                self.range = Some((page, page));
                Ok(())
            }
        }
    }

    /// The line of the range so far, if there is one.
    fn end_range(&mut self) -> Result<(), AllocError> {
        match self.range.take() {
            Some((first, last)) => push_line(&mut self.text, first, last),
            None => Ok(()),
        }
    }

    /// The lines. There is none where no page was lost. The error is out of memory.
    pub fn lines(mut self) -> Result<String, AllocError> {
        self.end_range()?;
        let LostPages { text, .. } = self;
        Ok(text)
    }
}

/// Adds the line of the pages from a first to a last one.
pub(crate) fn push_line(text: &mut String, first: u64, last: u64) -> Result<(), AllocError> {
    text.push_str("pages ")?;
    push_number(text, first)?;
    text.push_str(" to ")?;
    push_number(text, last)?;
    text.push('\n')
}
