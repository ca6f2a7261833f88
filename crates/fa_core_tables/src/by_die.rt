//! At most one value for each die.
ghost use Rattle.std.specs.Prelude.{◌≡◌, ℕ, ◌<◌, IfOk};
ghost use Rattle.std.specs.FinMap.{empty, get, insert, len, remove};
ghost use Rattle.fa_core_tables.specs.Tabled.{table_of};

use fa_types::Die;
use std::alloc::{AllocError, Allocator, Global};

/// At most one value for each die below a bound. No call but [`ByDie::new`] takes memory, and each takes
/// one step, save `new` and `clear`, which take one for each die.
#[derive(Drop)]
pub struct ByDie<T: Copy, A: Allocator = Global> {
    values: Vec<Option<T>, A>,
    count: usize,
    ghost counted: { count ≡ len (table_of values.items) },
}

impl<T: Copy, A: Allocator + Copy> ByDie<T, A> {
    ghost use Rattle.fa_core_tables.specs.Dies.{bound_of, by_die};

    /// No value for any of the first `dies` dies. The error is out of memory.
    pub fn new(alloc: A, dies: u32) -> Result<ByDie<T, A>, AllocError>
        ensures bound { IfOk result (λ values. bound_of values ≡ dies) }
        ensures empty { IfOk result (λ values. by_die values ≡ empty) }
    {
        let values = vec![in alloc; None; dies as usize]?;
        Ok(ByDie { values, count: 0 })
    }
}

impl<T: Copy, A: Allocator> ByDie<T, A> {
    ghost use Rattle.fa_core_tables.specs.Dies.{bound_of, by_die};

    /// The value of the die. A die beyond the bound has none.
    pub fn get(&self, die: Die) -> Option<T>
        ensures { result ≡ get (by_die self.now) die.0 }
    {
        let index = die.0 as usize;
        if index < self.values.len() {
            self.values[index]
        } else {
            None
        }
    }

    /// The value is the die's from now on.
    pub fn insert(&mut self, die: Die, value: T)
        requires { die.0 < bound_of self.old }
        ensures bound { bound_of self.new ≡ bound_of self.old }
        ensures inserted { by_die self.new ≡ insert (by_die self.old) die.0 value }
    {
        let index = die.0 as usize;
        if self.values[index].is_none() {
            self.count += 1;
        }
        self.values[index] = Some(value);
    }

    /// The die has no value from now on.
    pub fn remove(&mut self, die: Die)
        ensures bound { bound_of self.new ≡ bound_of self.old }
        ensures removed { by_die self.new ≡ remove (by_die self.old) die.0 }
    {
        let index = die.0 as usize;
        if index < self.values.len() {
            if self.values[index].is_some() {
                self.count -= 1;
            }
            self.values[index] = None;
        }
    }

    /// No die has a value from now on.
    pub fn clear(&mut self)
        ensures bound { bound_of self.new ≡ bound_of self.old }
        ensures empty { by_die self.new ≡ empty }
    {
        self.values.fill(None);
        self.count = 0;
    }

    /// How many dies have a value.
    pub fn len(&self) -> usize
        ensures { result ≡ len (by_die self.now) }
    {
        self.count
    }
}
