//! The pages of a batch.
ghost use Rattle.std.specs.Prelude.{◌≡◌, [], ◌∷◌, IfOk};
ghost use Rattle.fa_shared_steps.specs.Prepared.{pages_between};

use fa_types::Page;
use std::alloc::{AllocError, Allocator, Global};
use std::marker::Model;
use std::slice::from_ref;

/// The pages of a batch that is to be admitted, in their order. Contracts see their list. A page alone asks for no memory.
#[derive(Drop)]
pub struct PageList<A: Allocator = Global> {
    // A page that is alone.
    one: Option<Page>,
    // The pages where there is not one alone.
    pages: Vec<Page, A>,
}

impl<A: Allocator> Model for PageList<A> {
    ghost use Rattle.std.specs.Prelude.{List, [], ◌∷◌};
    ghost use Rattle.std.specs.Option.{option_map_or};
    ghost use Rattle.fa_types.specs.declared.numbers.Page.{Page};

    ghost Value = { List Page };

    ghost view = { λ l. option_map_or (λ page. page ∷ []) l.one l.pages.items };
}

impl<A: Allocator> PageList<A> {
    /// A page alone.
    pub fn one(alloc: A, page: Page) -> PageList<A>
        ensures { result ≡ page ∷ [] }
    {
        PageList {
            one: Some(page),
            pages: Vec::new(alloc),
        }
    }

    /// The pages from one to before another. The error is out of memory.
    pub fn between(alloc: A, page: u64, past: u64) -> Result<PageList<A>, AllocError>
        ensures { IfOk result (λ pages. pages ≡ pages_between page past) }
    {
        if past.saturating_sub(page) == 1 {
            return Ok(PageList::one(alloc, Page(page)));
        }
        let pages = (page..past).map(|number| Page(number)).collect(alloc)?;
        Ok(PageList { one: None, pages })
    }

    /// The pages in their order.
    pub fn as_slice(&self) -> &[Page]
        ensures value { result.now ≡ self.now }
    {
        match &self.one {
            Some(page) => from_ref(page),
            None => self.pages.as_slice(),
        }
    }
}
