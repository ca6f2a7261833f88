//! The dies that have something.
ghost use Rattle.std.specs.Prelude.{◌≡◌, ℕ, ◌<◌, ◌≤◌, false, IfOk};
ghost use Rattle.std.specs.FinMap.{contains_key, empty, insert, remove};

use fa_set::NumberSet;
use fa_types::Die;
use std::alloc::{AllocError, Allocator, Global};
use std::marker::Model;

/// A set of dies, in which the least one from a number on is found in a few looks.
#[derive(Drop)]
pub struct BusyDies<A: Allocator = Global> {
    numbers: NumberSet<A>,
}

impl<A: Allocator> Model for BusyDies<A> {
    ghost use Rattle.std.specs.Prelude.{◌≡◌};
    ghost use Rattle.fa_calendar.specs.Busy.{numbers_code};
    ghost use Rattle.fa_set.specs.Members.{Numbers, bound_of, members};

    ghost Value = { Numbers };

    ghost coded = { numbers_code };

    ghost view = { λ d. members d.numbers };

    ghost invariant = { λ d. bound_of d.numbers ≡ 256 };
}

impl<A: Allocator + Copy> BusyDies<A> {
    /// No die. The error is out of memory.
    pub fn new(alloc: A) -> Result<BusyDies<A>, AllocError>
        ensures { IfOk result (λ busy. busy ≡ empty) }
    {
        let numbers = NumberSet::new(alloc, 256)?;
        Ok(BusyDies { numbers })
    }
}

impl<A: Allocator> BusyDies<A> {
    /// The die is one of them from now on.
    pub fn enter(&mut self, die: Die)
        ensures { self.new ≡ insert self.old die.0 tt }
    {
        self.numbers.insert(die.0 as usize);
    }

    /// The die with this number, below 256, is none of them from now on.
    pub fn leave(&mut self, die: usize)
        requires { die < 256 }
        ensures { self.new ≡ remove self.old die }
    {
        self.numbers.remove(die);
    }

    /// The number of the first of them from a number on; 256 where there is none.
    pub fn next_from(&self, from: usize) -> usize
        requires { from ≤ 256 }
        ensures behind { from ≤ result }
        ensures most { result ≤ 256 }
        ensures least { (die : ℕ) → from ≤ die → die < result → contains_key self.now die ≡ false }
    {
        match self.numbers.lowest_from(from) {
            Some(die) => die,
            None => 256,
        }
    }
}
