//! The dies that a write goes to.
ghost use Rattle.std.specs.Prelude.{◌≡◌, ◌+◌, ◌<◌, ◌≤◌, List, [], ◌∷◌, ◌++◌, length, take};

use fa_types::Die;
use std::marker::Model;

/// At most three dies in their order, as a list.
#[derive(Drop)]
pub struct Placing {
    dies: [Die; 3],
    number: usize,
}

impl Model for Placing {
    ghost use Rattle.std.specs.Prelude.{List, take, ◌≤◌};
    ghost use Rattle.fa_types.specs.declared.numbers.Die.{Die};

    ghost Value = { List Die };

    ghost view = { λ placing. take placing.number placing.dies };

    ghost invariant = { λ placing. placing.number ≤ 3 };
}

impl Placing {
    /// No die.
    pub fn none() -> Placing
        ensures { result ≡ [] }
    {
        Placing {
            dies: [Die(0); 3],
            number: 0,
        }
    }

    /// The dies in their order.
    pub fn as_slice(&self) -> &[Die]
        ensures dies { result.now ≡ self.now }
        ensures few { length self.now ≤ 3 }
    {
        &self.dies[..self.number]
    }

    /// How many dies there are.
    pub fn len(&self) -> usize
        ensures number { result ≡ length self.now }
        ensures few { result ≤ 3 }
    {
        self.as_slice().len()
    }

    /// The die is the last.
    pub(crate) fn push(&mut self, die: Die)
        requires { length self.old < 3 }
        ensures { self.new ≡ self.old ++ die ∷ [] }
    {
        self.dies[self.number] = die;
        self.number += 1;
    }
}
