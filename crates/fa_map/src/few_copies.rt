//! The pages that have one copy and those that have two, which are found without a look at the others.
ghost use Rattle.std.specs.Prelude.{◌≡◌, ℕ, ◌-◌, ◌<◌, ◌≤◌, ◌==◌, find, if◌then◌else◌, IfOk};
ghost use Rattle.std.specs.FinMap.{contains_key};
ghost use Rattle.std.specs.List.{range_with_len};
ghost use Rattle.fa_map.specs.Few.{AreFew, IsPut, with_member};
ghost use Rattle.fa_set.specs.Members.{bound_of, members};

use fa_set::NumberSet;
use std::alloc::{AllocError, Allocator, Global};
use std::marker::Model;

/// The pages with exactly one copy, and those with exactly two.
#[derive(Drop)]
pub struct FewCopies<A: Allocator = Global> {
    one: NumberSet<A>,
    two: NumberSet<A>,
}

impl<A: Allocator> Model for FewCopies<A> {
    ghost use Rattle.std.specs.Prelude.{◌≡◌};
    ghost use Rattle.fa_set.specs.Members.{bound_of, members};
    ghost use Rattle.fa_map.specs.Few.{Few, few_code};

    ghost Value = { Few };

    ghost coded = { few_code };

    ghost view = { λ few. record { bound = bound_of few.one; one = members few.one; two = members few.two } };

    ghost invariant = { λ few. bound_of few.two ≡ bound_of few.one };
}

/// The number comes into the set where that is wanted, and else goes.
pub fn set_member<A: Allocator>(set: &mut NumberSet<A>, number: usize, wanted: bool)
    requires { number < bound_of set.old }
    ensures bound { bound_of set.new ≡ bound_of set.old }
    ensures members { members set.new ≡ with_member number wanted (members set.old) }
{
    if wanted {
        set.insert(number);
    } else {
        set.remove(number);
    }
}

impl<A: Allocator + Copy> FewCopies<A> {
    /// No page below the bound has a copy. The error is out of memory.
    pub fn new(alloc: A, pages: usize) -> Result<FewCopies<A>, AllocError>
        ensures { IfOk result (λ few. AreFew pages (λ page. 0) few) }
    {
        let one = NumberSet::new(alloc, pages)?;
        let two = NumberSet::new(alloc, pages)?;
        Ok(FewCopies { one, two })
    }
}

impl<A: Allocator> FewCopies<A> {
    /// The page has this many copies now.
    pub fn put(&mut self, page: u32, copies: u32)
        requires { page < self.old.bound }
        ensures { IsPut self.old page copies self.new }
    {
        set_member(&mut self.one, page as usize, copies == 1);
        set_member(&mut self.two, page as usize, copies == 2);
    }

    /// The lowest page from one on that has this many copies, 1 or 2.
    pub fn lowest_from(&self, count: u32, from: usize) -> Option<usize>
        requires { (1 ≤ count) × (count ≤ 2) }
        ensures { result ≡ find (contains_key (if count == 1 then self.now.one else self.now.two))
            (range_with_len from (self.now.bound - from)) }
    {
        if count == 1 {
            self.one.lowest_from(from)
        } else {
            self.two.lowest_from(from)
        }
    }
}
