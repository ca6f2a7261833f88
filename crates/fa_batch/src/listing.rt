//! Things of one kind in a given order.
ghost use Rattle.std.specs.Prelude.{◌≡◌, ◌↔◌, [], ◌∷◌, ◌++◌, IsTrue, OnOk, OnErr};

use std::alloc::{AllocError, Allocator, Global};
use std::marker::Model;

/// Things in the order in which they were given. Contracts see their list.
#[derive(Drop)]
pub struct Listing<T, A: Allocator = Global> {
    things: Vec<T, A>,
}

impl<T, A: Allocator> Model for Listing<T, A> {
    ghost use Rattle.std.specs.Prelude.{List};

    ghost Value = { List T };

    ghost view = { λ l. l.things.items };
}

impl<T: Copy, A: Allocator> Listing<T, A> {
    /// No things.
    pub fn new(alloc: A) -> Listing<T, A>
        ensures { result ≡ [] }
    {
        Listing {
            things: Vec::new(alloc),
        }
    }

    /// Adds a thing at the end. Out of memory, the list stays as it was.
    pub fn push(&mut self, thing: T) -> Result<(), AllocError>
        ensures ok { OnOk result (self.new ≡ self.old ++ thing ∷ []) }
        ensures err { OnErr result (self.new ≡ self.old) }
    {
        self.things.push(thing)?;
        Ok(())
    }

    /// The list has none any more, and keeps its memory.
    pub fn clear(&mut self)
        ensures { self.new ≡ [] }
    {
        self.things.clear();
    }

    /// Whether there are none.
    pub fn is_empty(&self) -> bool
        ensures { IsTrue result ↔ (self.now ≡ []) }
    {
        self.things.is_empty()
    }

    /// The things in their order.
    pub fn as_slice(&self) -> &[T]
        ensures { result.now ≡ self.now }
    {
        self.things.as_slice()
    }
}
