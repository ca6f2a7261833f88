//! What is reserved under a claim.
ghost use Rattle.std.specs.Prelude.{◌≡◌, ◌≤◌, ◌<◌, ◌++◌, ◌∷◌, [], length, map, take};
ghost use Rattle.fa_machine.specs.Taking.{mark as rule_mark};

use fa_machine::{Target, Version};
use fa_types::{Die, Slot};

/// The slots that are kept for the copies of one write: at most three, in the page's order.
#[derive(Clone, Copy)]
pub struct Targets {
    items: [Target; 3],
    count: usize,
    ghost few: { count ≤ 3 },
}

/// What is reserved under a claim: the write, and a slot for each of its copies.
#[derive(Clone, Copy)]
pub struct Reservation {
    /// The write, with the number that it was given.
    pub version: Version,
    /// The slots.
    pub targets: Targets,
}

const NO_TARGET: Target = Target {
    die: Die(0),
    slot: Slot(0),
    programmed: false,
};

impl Targets {
    ghost use Rattle.fa_core_tables.specs.Claims.{targets_of};

    /// No slots.
    pub fn new() -> Targets
        ensures { targets_of result ≡ [] }
    {
        Targets {
            items: [NO_TARGET; 3],
            count: 0,
        }
    }

    /// One slot more.
    pub fn push(&mut self, target: Target)
        requires { length (targets_of self.old) < 3 }
        ensures { targets_of self.new ≡ targets_of self.old ++ target ∷ [] }
    {
        self.items[self.count] = target;
        self.count += 1;
    }

    /// The slots.
    pub fn items(&self) -> &[Target]
        ensures { result.now ≡ targets_of self.now }
    {
        &self.items[..self.count]
    }

    /// The copy in this slot was programmed, if it is one of these.
    pub fn mark(&mut self, die: Die, slot: Slot)
        ensures { targets_of self.new ≡ map (rule_mark die.0 slot.0) (targets_of self.old) }
    {
        let [first, second, third] = self.items;
        self.items = [
            marked(first, die, slot),
            marked(second, die, slot),
            marked(third, die, slot),
        ];
    }
}

/// A slot after the copy in one was programmed.
fn marked(target: Target, die: Die, slot: Slot) -> Target
    ensures { result ≡ rule_mark die.0 slot.0 target }
{
    Target {
        programmed: target.programmed || target.die.0 == die.0 && target.slot.0 == slot.0,
        ..target
    }
}
