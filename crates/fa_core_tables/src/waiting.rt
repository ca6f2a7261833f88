//! Programs that wait for their dies.
ghost use Rattle.std.specs.Prelude.{◌≡◌, ℕ, ◌+◌, ◌<◌, ◌≤◌, ◌==◌, ◌&&◌, not, if◌then◌else◌, [], ◌∷◌, ◌++◌, filter, find, is_some};
ghost use Rattle.std.specs.Prelude.{option_map};
ghost use Rattle.std.specs.Prelude.{IfOk, OnOk};
ghost use Rattle.std.specs.List.{after_first, before_first};
ghost use Rattle.fa_machine.specs.Taking.{is_for};
ghost use Rattle.fa_core_tables.specs.Queues.{AreQueues, program_of, queues_in};

use crate::queued::QueuedProgram;
use crate::shown::WaitingShown;
use fa_ghost::History;
use fa_types::{Die, Slot};
use std::alloc::{AllocError, Allocator, Global};
use std::collections::VecDeque;

/// Programs that wait for their dies, in a queue for each die. Clauses see all of them in one list, the
/// oldest first. Only [`Waiting::new`] and [`Waiting::make_room`] take memory.
#[derive(Drop)]
pub struct Waiting<A: Allocator = Global> {
    queues: Vec<VecDeque<QueuedProgram<A>, A>, A>,
    programs: History<WaitingShown>,
    ghost sorted: { AreQueues programs.shown (queues_in queues.items) },
}

impl<A: Allocator + Copy> Waiting<A> {
    ghost use Rattle.fa_core_tables.specs.Waits.{dies_of, waiting_of};

    /// No program for any of the first `dies` dies. The error is out of memory.
    pub fn new(alloc: A, dies: u32) -> Result<Waiting<A>, AllocError>
        ensures dies { IfOk result (λ waiting. dies_of waiting ≡ dies) }
        ensures empty { IfOk result (λ waiting. waiting_of waiting ≡ []) }
    {
        let mut queues = Vec::with_capacity(alloc, dies as usize)?;
        for _ in 0..dies {
            queues.push_reserved(VecDeque::new(alloc));
        }
        Ok(Waiting {
            queues,
            programs: History::begin(&dies),
        })
    }
}

impl<A: Allocator> Waiting<A> {
    ghost use Rattle.fa_core_tables.specs.Waits.{dies_of, room_of, waiting_of};

    /// Makes room for more programs on a die, or for none where memory is short. The programs stay, and
    /// no die has less room than before.
    pub fn make_room(&mut self, die: Die, additional: usize) -> Result<(), AllocError>
        requires { die.0 < dies_of self.old }
        ensures dies { dies_of self.new ≡ dies_of self.old }
        ensures waiting { waiting_of self.new ≡ waiting_of self.old }
        ensures room { OnOk result (additional ≤ room_of self.new die.0) }
        ensures kept { (d : ℕ) → room_of self.old d ≤ room_of self.new d }
    {
        self.queues[die.0 as usize].reserve(additional)
    }

    /// One more program waits for its die, behind all others.
    pub fn push(&mut self, program: QueuedProgram<A>)
        requires { 0 < room_of self.old program.die.0 }
        ensures dies { dies_of self.new ≡ dies_of self.old }
        ensures waiting { waiting_of self.new ≡ waiting_of self.old ++ program_of program ∷ [] }
        ensures room { (d : ℕ) → room_of self.old d ≡ room_of self.new d + (if d == program.die.0 then 1 else 0) }
    {
        self.programs.note(&program);
        self.queues[program.die.0 as usize].push_back_reserved(program);
    }

    /// Takes the oldest program that waits for a die, if there is one.
    pub fn next(&mut self, die: Die) -> Option<QueuedProgram<A>>
        ensures dies { dies_of self.new ≡ dies_of self.old }
        ensures oldest { option_map program_of result ≡ find (is_for die.0) (waiting_of self.old) }
        ensures waiting { waiting_of self.new
            ≡ before_first (is_for die.0) (waiting_of self.old) ++ after_first (is_for die.0) (waiting_of self.old) }
        ensures kept { (d : ℕ) → room_of self.old d ≤ room_of self.new d }
    {
        let index = die.0 as usize;
        self.programs.note(&die);
        if index < self.queues.len() {
            self.queues[index].pop_front()
        } else {
            None
        }
    }

    /// Whether a program waits for the die.
    pub fn has(&self, die: Die) -> bool
        ensures { result ≡ is_some (find (is_for die.0) (waiting_of self.now)) }
    {
        let index = die.0 as usize;
        index < self.queues.len() && !self.queues[index].is_empty()
    }

    /// No program waits for the die from now on.
    pub fn drop_die(&mut self, die: Die)
        ensures dies { dies_of self.new ≡ dies_of self.old }
        ensures waiting { waiting_of self.new ≡ filter (λ p. not (p.die == die.0)) (waiting_of self.old) }
        ensures kept { (d : ℕ) → room_of self.old d ≤ room_of self.new d }
    {
        let index = die.0 as usize;
        self.programs.note(&die);
        if index < self.queues.len() {
            self.queues[index].clear();
        }
    }

    /// No program waits for the slot of the die from now on.
    pub fn drop_place(&mut self, die: Die, slot: Slot)
        ensures dies { dies_of self.new ≡ dies_of self.old }
        ensures waiting { waiting_of self.new ≡ filter (λ p. not (die.0 == p.die && slot.0 == p.slot)) (waiting_of self.old) }
        ensures kept { (d : ℕ) → room_of self.old d ≤ room_of self.new d }
    {
        let index = die.0 as usize;
        self.programs.note(&(die, slot));
        if index < self.queues.len() {
            self.queues[index].retain(|program| slot.0 != program.slot.0);
        }
    }
}
