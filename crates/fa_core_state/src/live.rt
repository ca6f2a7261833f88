//! The live dies as a set.
ghost use Rattle.std.specs.Prelude.{◌≡◌, ℕ, ◌<◌};
ghost use Rattle.std.specs.FinMap.{contains_key};
ghost use Rattle.fa_machine.specs.State.{is_live};
ghost use Rattle.fa_set.specs.Members.{bound_of, members};

use fa_map_calls::Map;
use fa_set::NumberSet;
use fa_types::Die;
use std::alloc::Allocator;

/// The live dies are the set's members from now on. It takes a look at each die.
pub fn mark_live<M: Map, A: Allocator>(set: &mut NumberSet<A>, page_map: &M)
    requires { bound_of set.old ≡ (M.view page_map.now).geometry.dies }
    ensures bound { bound_of set.new ≡ bound_of set.old }
    ensures members { members set.new ≡ (M.view page_map.now).live }
{
    for die in 0..page_map.geometry().dies {
        mark(set, page_map, Die(die as u8));
    }
}

/// The die is a member where it is live, and else none.
fn mark<M: Map, A: Allocator>(set: &mut NumberSet<A>, page_map: &M, die: Die)
    requires { die.0 < bound_of set.old }
    ensures bound { bound_of set.new ≡ bound_of set.old }
    ensures here { contains_key (members set.new) die.0 ≡ is_live (M.view page_map.now) die.0 }
    ensures others { (k : ℕ) → (k ≡ die.0 → ⊥) → contains_key (members set.new) k ≡ contains_key (members set.old) k }
{
    if page_map.is_live(die) {
        set.insert(die.0 as usize);
    } else {
        set.remove(die.0 as usize);
    }
}
