//! Which die reads which page: one page more is given a die, and others are handed on for it.
ghost use Rattle.std.specs.Prelude.{◌≡◌, ◌+◌, ◌<◌, ◌≤◌, true, false, length, IfOk};
ghost use Rattle.fa_plan.specs.Giving.{AreGiven};
ghost use Rattle.fa_plan_search.specs.Search.{IsAtItsEnd, IsWalk};

use fa_batch::Batch;
use fa_plan_search::{Tables, Walk, search};
use fa_types::Die;
use std::alloc::{AllocError, Allocator};

/// Searches for a die for the first page that has none. Where the walk finds one with room, each page on
/// the way to it is handed on to the next die, and the first page has its die. It tells whether it did.
pub(crate) fn give<A: Allocator>(
    walk: &mut Walk,
    batch: &Batch<A>,
    given: &mut Vec<Die, A>,
    tables: &mut Tables,
) -> Result<bool, AllocError>
    requires small { length batch.now ≤ 1024 }
    requires next { length given.old.items < length batch.now }
    requires given { AreGiven batch.now given.old.items tables.old }
    ensures walk { IfOk result (λ is_given. IsWalk batch.now given.old.items walk.new) }
    ensures given { IfOk result (λ is_given. is_given ≡ true → AreGiven batch.now given.new.items tables.new) }
    ensures longer { IfOk result (λ is_given. is_given ≡ true → length given.new.items ≡ length given.old.items + 1) }
    ensures open_counts { IfOk result (λ is_given. tables.new.open_counts ≡ tables.old.open_counts) }
    ensures same { IfOk result (λ is_given. is_given ≡ false → given.new.items ≡ given.old.items) }
    ensures loads { IfOk result (λ is_given. is_given ≡ false → tables.new.loads ≡ tables.old.loads) }
    ensures end { IfOk result (λ is_given. is_given ≡ false → IsAtItsEnd batch.now given.old.items tables.old.open_counts walk.new) }
{
    let Some(free) = search(walk, batch, given.as_slice(), tables) else {
        return Ok(false);
    };
    let mut die = free;
    let mut page = walk.via[free.0 as usize];
    'hand_on: while page < given.len() {
        let left = given[page];
        given[page] = die;
        die = left;
        page = walk.via[left.0 as usize];
    }
    tables.loads[free.0 as usize] += 1;
    given.push(die)?;
    Ok(true)
}
