//! The set.
ghost use Rattle.std.specs.Prelude.{◌≡◌, ℕ, ◌-◌, ◌<◌, IfOk, find};
ghost use Rattle.std.specs.FinMap.{empty, insert, remove};
ghost use Rattle.std.specs.List.{range_with_len};
ghost use Rattle.fa_set.specs.Levels.{AreLevels};
ghost use Rattle.fa_set.specs.Words.{IsLowest};

use crate::words::{is_member, lowest_in_word, put, take_out};
use std::alloc::{AllocError, Allocator, Global};

/// A set of numbers below a bound: three levels of bits. A bit of the lowest level is a number, and one of
/// a higher level a word of 64 bits below it that has bits set. It takes little more than a bit for each
/// number below the bound. No call but [`NumberSet::new`] takes memory.
#[derive(Drop)]
pub struct NumberSet<A: Allocator = Global> {
    bound: usize,
    low: Vec<u64, A>,
    middle: Vec<u64, A>,
    high: Vec<u64, A>,
    ghost sound: { AreLevels bound low.items middle.items high.items },
}

impl<A: Allocator + Copy> NumberSet<A> {
    ghost use Rattle.fa_set.specs.Members.{bound_of, members};

    /// An empty set of numbers below a bound. The error is out of memory.
    pub fn new(alloc: A, bound: usize) -> Result<NumberSet<A>, AllocError>
        ensures bound { IfOk result (λ set. bound_of set ≡ bound) }
        ensures empty { IfOk result (λ set. members set ≡ empty) }
    {
        let low = vec![in alloc; 0; bound / 64 + 1]?;
        let middle = vec![in alloc; 0; bound / 64 / 64 + 1]?;
        let high = vec![in alloc; 0; bound / 64 / 64 / 64 + 1]?;
        Ok(NumberSet {
            bound,
            low,
            middle,
            high,
        })
    }
}

impl<A: Allocator> NumberSet<A> {
    ghost use Rattle.fa_set.specs.Members.{bound_of, is_in, members};

    /// Whether the number is a member.
    pub fn contains(&self, number: usize) -> bool
        ensures { result ≡ is_in self.now number }
    {
        number < self.bound && is_member(&self.low, number)
    }

    /// The number is a member from now on.
    pub fn insert(&mut self, number: usize)
        requires { number < bound_of self.old }
        ensures bound { bound_of self.new ≡ bound_of self.old }
        ensures members { members self.new ≡ insert (members self.old) number tt }
    {
        put(&mut self.low, number);
        put(&mut self.middle, number / 64);
        put(&mut self.high, number / 64 / 64);
    }

    /// The number is no member from now on.
    pub fn remove(&mut self, number: usize)
        requires { number < bound_of self.old }
        ensures bound { bound_of self.new ≡ bound_of self.old }
        ensures members { members self.new ≡ remove (members self.old) number }
    {
        let low_empty = take_out(&mut self.low, number, true);
        let middle_empty = take_out(&mut self.middle, number / 64, low_empty);
        take_out(&mut self.high, number / 64 / 64, middle_empty);
    }

    /// The least member from a number on. It looks at two words of each level at most, and of the highest at
    /// each behind the number's: one for each 262,144 numbers below the bound.
    pub fn lowest_from(&self, from: usize) -> Option<usize>
        ensures { result ≡ find (is_in self.now) (range_with_len from (bound_of self.now - from)) }
    {
        self.lowest_low(from)
    }

    /// The least number of the lowest level from one on.
    fn lowest_low(&self, from: usize) -> Option<usize>
        ensures { IsLowest self.now.low.items from result }
    {
        if from / 64 >= self.low.len() {
            return None;
        }
        if let Some(number) = lowest_in_word(&self.low, from) {
            return Some(number);
        }
        match self.lowest_middle(from / 64 + 1) {
            Some(word) => lowest_in_word(&self.low, word * 64),
            None => None,
        }
    }

    /// The least number of the middle level from one on.
    fn lowest_middle(&self, from: usize) -> Option<usize>
        ensures { IsLowest self.now.middle.items from result }
    {
        if from / 64 >= self.middle.len() {
            return None;
        }
        if let Some(number) = lowest_in_word(&self.middle, from) {
            return Some(number);
        }
        match self.lowest_high(from / 64 + 1) {
            Some(word) => lowest_in_word(&self.middle, word * 64),
            None => None,
        }
    }

    /// The least number of the highest level from one on.
    fn lowest_high(&self, from: usize) -> Option<usize>
        ensures { IsLowest self.now.high.items from result }
    {
        let mut first = from;
        for word in from / 64..self.high.len() {
            if let Some(number) = lowest_in_word(&self.high, first) {
                return Some(number);
            }
            first = (word + 1) * 64;
        }
        None
    }
}
