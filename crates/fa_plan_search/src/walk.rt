//! The search for a die that reads one more page: a walk from that page over the dies that hold it, the
//! pages that these read and could hand on, the dies that hold those, and so on to a die with room.
ghost use Rattle.std.specs.Prelude.{◌≡◌, ◌+◌, ◌<◌, ◌≤◌, ◌^◌, true, false, length, IfSome};
ghost use Rattle.std.specs.Prelude.{IfNone, ℕ, replicate};
ghost use Rattle.fa_plan_search.specs.Reading.{AreLoads, die_of};
ghost use Rattle.fa_plan_search.specs.Search.{HasFound, HasGoneOn, IsAtItsEnd, IsFollowed, IsReached, IsSearching, IsWalk, has_reached};
ghost use Rattle.fa_plan_search.specs.Search.{with_die};

use fa_batch::Batch;
use fa_types::Die;
use std::alloc::Allocator;

/// What a walk reached. One is made for all searches of a batch.
#[derive(Drop)]
pub struct Walk {
    /// Whether a die was reached, by its number.
    pub seen: [bool; 256],
    /// The numbers of the dies that were reached, in the order in which they were.
    pub order: [u8; 256],
    /// How many dies were reached.
    pub count: usize,
    /// The place in that order of each die that was reached.
    pub rank: [usize; 256],
    /// The index of the page by which each die was reached.
    pub via: [usize; 256],
    /// How many pages were reached.
    pub looks: u64,
}

/// How many pages each die reads, and how many it has room for, by its number.
#[derive(Drop)]
pub struct Tables {
    /// How many pages each die reads.
    pub loads: [u64; 256],
    /// How many pages each die has room for.
    pub open_counts: [u64; 256],
}

impl Walk {
    /// A walk that has not begun.
    pub fn new() -> Walk {
        Walk {
            seen: [false; 256],
            order: [0; 256],
            count: 0,
            rank: [0; 256],
            via: [0; 256],
            looks: 0,
        }
    }

    /// Begins at a page.
    fn begin(&mut self)
        ensures seen { self.new.seen ≡ replicate 256 false }
        ensures count { self.new.count ≡ 0 }
        ensures looks { self.new.looks ≡ 1 }
        ensures order { length self.new.order ≡ 256 }
        ensures rank { length self.new.rank ≡ 256 }
        ensures via { length self.new.via ≡ 256 }
    {
        self.seen = [false; 256];
        self.count = 0;
        self.looks = 1;
    }

    /// Comes to a die by a page, with so many pages more.
    fn add(&mut self, die: Die, page: usize, pages: u64)
        requires place { self.old.count < 256 }
        requires looks { self.old.looks + pages < 2 ^ 64 }
        ensures { self.new ≡ with_die self.old die.0 page pages }
    {
        let number = die.0 as usize;
        self.seen[number] = true;
        self.order[self.count] = die.0;
        self.rank[number] = self.count;
        self.via[number] = page;
        self.count += 1;
        self.looks += pages;
    }
}

/// Searches for a die that reads the first page with no die. It answers a die with room, to which the
/// walk leads, or nothing where the walk came to its end.
pub fn search<A: Allocator>(
    walk: &mut Walk,
    batch: &Batch<A>,
    given: &[Die],
    tables: &Tables,
) -> Option<Die>
    requires small { length batch.now ≤ 1024 }
    requires next { length given.now < length batch.now }
    requires loads { AreLoads given.now tables.now.loads }
    ensures walk { IsWalk batch.now given.now walk.new }
    ensures found { IfSome result (λ die. HasFound given.now tables.now.open_counts walk.new die.0) }
    ensures none { IfNone result (IsAtItsEnd batch.now given.now tables.now.open_counts walk.new) }
{
    walk.begin();
    let first = follow(walk, batch, given, tables, given.len());
    if first.is_some() {
        return first;
    }
    let mut next = 0;
    while next < walk.count {
        let die = walk.order[next];
        let found = follow_all(walk, batch, given, tables, Die(die));
        if found.is_some() {
            return found;
        }
        next += 1;
    }
    None
}

/// Follows each page of a die that was reached.
fn follow_all<A: Allocator>(
    walk: &mut Walk,
    batch: &Batch<A>,
    given: &[Die],
    tables: &Tables,
    die: Die,
) -> Option<Die>
    requires searching { IsSearching batch.now given.now tables.now walk.old }
    requires reached { has_reached walk.old die.0 ≡ true }
    ensures { HasGoneOn batch.now given.now tables.now walk.old walk.new result
        ((page : ℕ) → page < length given.now → die_of given.now page ≡ die.0 → IsFollowed batch.now walk.new page) }
{
    for page in 0..given.len() {
        if given[page].0 == die.0 {
            let found = follow(walk, batch, given, tables, page);
            if found.is_some() {
                return found;
            }
        }
    }
    None
}

/// Reaches the dies that hold a page, up to one with room.
fn follow<A: Allocator>(
    walk: &mut Walk,
    batch: &Batch<A>,
    given: &[Die],
    tables: &Tables,
    page: usize,
) -> Option<Die>
    requires searching { IsSearching batch.now given.now tables.now walk.old }
    requires reached { IsReached given.now walk.old page }
    ensures { HasGoneOn batch.now given.now tables.now walk.old walk.new result (IsFollowed batch.now walk.new page) }
{
    for die in batch.holders_at(page) {
        let number = die.0 as usize;
        if !walk.seen[number] {
            let load = tables.loads[number];
            if load < tables.open_counts[number] {
                walk.add(*die, page, 0);
                return Some(*die);
            }
            walk.add(*die, page, load);
        }
    }
    None
}
