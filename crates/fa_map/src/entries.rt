//! What the tables of a page map keep of each slot and of each page.

/// The state of a slot, with the page of a current copy. The write of the page is kept with the page.
#[derive(Clone, Copy)]
pub enum Entry {
    /// Nothing was written there.
    Erased,
    /// It is kept for a copy.
    Reserved,
    /// It holds the last write of a page.
    Current {
        /// The page's number.
        page: u32,
    },
    /// What it holds is of no use.
    Stale,
}

/// Where the next copy of a page is: the next die that holds it, and the slot there.
#[derive(Clone, Copy)]
pub struct Link {
    /// None where no other die holds the page.
    pub die: Option<u8>,
    /// The slot of that die. It means nothing where there is none.
    pub slot: u32,
}

/// The link that leads to no copy.
pub const NO_LINK: Link = Link { die: None, slot: 0 };

/// Where a page's second copy is, and whether the page has a third.
#[derive(Clone, Copy)]
pub struct Second {
    /// The link from its first copy; none where the page has no second copy.
    pub place: Link,
    /// Whether a copy stands behind the second one.
    pub more: bool,
}

/// That a page has no second copy.
pub const NO_SECOND: Second = Second {
    place: NO_LINK,
    more: false,
};
