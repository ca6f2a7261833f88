//! A page of a batch.
ghost use Rattle.std.specs.Prelude.{◌≡◌};
ghost use Rattle.fa_core_batches.specs.Counted.{is_open as rule_open};
ghost use Rattle.fa_core_batches.specs.Pages.{is_torn as rule_torn, without_die as rule_without};

use fa_types::{Die, Page, Round};
use std::alloc::{Allocator, Global};
use std::collections::HashMap;
use std::hash::{BuildHasherDefault, FoldHasher};

/// The lists of the batches that are open, by the batches' numbers.
pub type Lists<A> = HashMap<u64, BatchList<A>, BuildHasherDefault<FoldHasher>, A>;

/// The pages of the batches that are open, by batch and page.
pub type Pages<A> = HashMap<(u64, u64), BatchPage<A>, BuildHasherDefault<FoldHasher>, A>;

/// How a page of a batch stands.
#[derive(Clone, Copy)]
pub enum PageState {
    /// It has an answer.
    Answered,
    /// A read of it is booked.
    Booked(Die, Round),
    /// A read of it is in flight.
    InFlight(Die),
    /// None of these: no read of it is planned, or its read was lost.
    Torn,
}

impl PageState {
    /// How the page stands once a die is out.
    pub(crate) fn without_die(self, die: Die) -> PageState
        ensures { result ≡ rule_without die.0 self }
    {
        match self {
            PageState::Booked(at, _) if at.0 == die.0 => PageState::Torn,
            PageState::InFlight(at) if at.0 == die.0 => PageState::Torn,
            _ => self,
        }
    }

    /// Whether the page has no answer, and no read that is booked or in flight.
    pub(crate) fn is_torn(self) -> bool
        ensures { result ≡ rule_torn self }
    {
        match self {
            PageState::Torn => true,
            _ => false,
        }
    }

    /// Whether the page has no answer.
    pub(crate) fn is_open(self) -> bool
        ensures { result ≡ rule_open self }
    {
        match self {
            PageState::Answered => false,
            _ => true,
        }
    }
}

/// A page of a batch, with the buffer that has its bytes once it is answered.
#[derive(Drop)]
pub struct BatchPage<A: Allocator = Global> {
    /// How it stands.
    pub state: PageState,
    /// As many bytes as a page has.
    pub buffer: Vec<u8, A>,
}

/// The pages of a batch in the order of its list, the list in which their answers are handed out, and how many stand in some way.
#[derive(Drop)]
pub struct BatchList<A: Allocator = Global> {
    /// The pages.
    pub pages: Vec<Page, A>,
    /// Room for an answer of each page. It is empty until the batch ends.
    pub answers: Vec<(Page, Vec<u8, A>), A>,
    /// For how many pages the batch was begun. Both lists have room for at least so many.
    pub room: usize,
    /// How many of the pages have no answer, and no read that is booked or in flight.
    pub torn: usize,
    /// How many of the pages have no answer.
    pub unanswered: usize,
}
