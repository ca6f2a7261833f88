//! Closed rounds of dies, made of runs that may overlap.
ghost use Rattle.std.specs.Prelude.{◌≡◌, ℕ, ◌||◌, ◌≤◌, ◌<◌, ◌≢◌, ◌-◌, ◌↔◌, All, IsTrue, [], length, replicate, IfOk, OnOk, slice_index_or};
ghost use Rattle.std.specs.List.{AllByRecursion};
ghost use Rattle.fa_types.specs.Open.{FewClosed, max_closed};
ghost use Rattle.fa_closed.specs.Runs.{any_closes, closed_by, closes, AreInOrder};

use crate::spans::Spans;
use fa_types::{Die, Round, Rounds};
use std::alloc::{AllocError, Allocator, Global};

/// A run of rounds in which a die serves no read: from the first to the last one, none where the last
/// one is below the first.
#[derive(Clone, Copy)]
pub struct Run {
    /// The die.
    pub die: Die,
    /// The first round.
    pub first: Round,
    /// The last round.
    pub last: Round,
}

/// A current round, and for each die the rounds in which it is closed, as spans: what it answers takes
/// a look at each span of the die and at no single round.
#[derive(Drop)]
pub struct Closed<A: Allocator = Global> {
    current: u64,
    // The spans of each die, by its number.
    dies: Vec<Spans<A>, A>,
    ghost long: { length dies.items ≡ 256 },
    ghost few: { FewClosed current (closed_by dies.items) },
}

impl<A: Allocator + Copy> Closed<A> {
    ghost use Rattle.fa_closed.specs.Closed.{current_of, is_closed};

    /// The closed rounds of these runs, which may overlap and come in any order. At most 1,048,576
    /// rounds of a die are closed from the current one on.
    pub fn new(alloc: A, now: Round, mut runs: Vec<Run, A>) -> Result<Closed<A>, AllocError>
        requires { FewClosed now.0 (any_closes runs.items) }
        ensures current { IfOk result (λ rounds. current_of rounds ≡ now.0) }
        ensures closed { IfOk result (λ rounds. (die round : ℕ) → is_closed rounds die round ≡ any_closes runs.items die round) }
    {
        runs.sort_unstable_by_key(|run| run.first.0);
        let dies = spans_of(alloc, runs.as_slice())?;
        Ok(Closed {
            current: now.0,
            dies,
        })
    }
}

impl<A: Allocator> Closed<A> {
    ghost use Rattle.fa_closed.specs.Closed.{current_of, is_closed};

    /// The closed rounds of these spans, which are those of each die by its number.
    pub fn of_spans(now: Round, dies: Vec<Spans<A>, A>) -> Closed<A>
        requires long { length dies.items ≡ 256 }
        requires few { FewClosed now.0 (closed_by dies.items) }
        ensures current { current_of result ≡ now.0 }
        ensures closed { (die round : ℕ) → is_closed result die round ≡ closed_by dies.items die round }
    {
        Closed {
            current: now.0,
            dies,
        }
    }

    fn spans(&self, die: Die) -> &Spans<A>
        ensures { result.now ≡ slice_index_or self.now.dies.items die.0 [] }
    {
        &self.dies[die.0 as usize]
    }
}

impl<A: Allocator> Rounds for Closed<A> {
    ghost use Rattle.fa_closed.specs.Closed.{current_of, is_closed};

    ghost current = { current_of };

    ghost closed = { is_closed };

    ghost few_closed = { λ rounds. rounds.few };

    fn now(&self) -> Round {
        Round(self.current)
    }

    fn is_open(&self, die: Die, round: Round) -> bool {
        self.current <= round.0 && !self.spans(die).covers(round.0)
    }

    fn open_count(&self, die: Die, rounds: u64) -> u64 {
        rounds - self.spans(die).count(self.current, rounds)
    }

    fn nth_open(&self, die: Die, n: u64) -> Round {
        Round(self.spans(die).nth_free(self.current, n))
    }
}

/// Whether each run ends before 1,048,576 rounds from the current one have gone by, so that no die has
/// more closed.
pub fn end_soon(now: Round, runs: &[Run]) -> bool
    ensures soon { IsTrue result ↔ All (λ run. run.last.0 - now.0 < max_closed) runs.now }
    ensures few { IsTrue result → FewClosed now.0 (any_closes runs.now) }
{
    each_ends_soon(now, runs)
}

fn each_ends_soon(now: Round, runs: &[Run]) -> bool
    ensures { IsTrue result ↔ All (λ run. run.last.0 - now.0 < max_closed) runs.now }
{
    runs.iter()
        .all(|run| run.last.0.saturating_sub(now.0) < 1_048_576)
}

/// The spans of each die, by its number, of runs whose first rounds do not fall.
fn spans_of<A: Allocator + Copy>(alloc: A, runs: &[Run]) -> Result<Vec<Spans<A>, A>, AllocError>
    requires { AreInOrder runs.now }
    ensures long { IfOk result (λ dies. length dies.items ≡ 256) }
    ensures closed { IfOk result (λ dies. (die round : ℕ) → closed_by dies.items die round ≡ any_closes runs.now die round) }
{
    let mut dies = no_spans(alloc)?;
    for run in runs {
        close(&mut dies, *run)?;
    }
    Ok(dies)
}

/// A table for 256 dies, none of which is closed.
fn no_spans<A: Allocator + Copy>(alloc: A) -> Result<Vec<Spans<A>, A>, AllocError>
    ensures { IfOk result (λ dies. dies.items ≡ replicate 256 []) }
{
    let mut dies = Vec::with_capacity(alloc, 256)?;
    for _ in 0..256usize {
        dies.push(Spans::new(alloc))?;
    }
    Ok(dies)
}

/// Closes the rounds of a run, which begins no earlier than the spans of its die.
fn close<A: Allocator>(dies: &mut Vec<Spans<A>, A>, run: Run) -> Result<(), AllocError>
    requires long { length dies.old.items ≡ 256 }
    requires later { AllByRecursion (λ s. s.first ≤ run.first.0) (slice_index_or dies.old.items run.die.0 []) }
    ensures long { OnOk result (length dies.new.items ≡ 256) }
    ensures closed { OnOk result ((die round : ℕ) → closed_by dies.new.items die round
        ≡ (closed_by dies.old.items die round || closes run die round)) }
    ensures others { OnOk result ((die : ℕ) → die ≢ run.die.0
        → slice_index_or dies.new.items die [] ≡ slice_index_or dies.old.items die []) }
    ensures begins { OnOk result (AllByRecursion (λ s. s.first ≤ run.first.0) (slice_index_or dies.new.items run.die.0 [])) }
{
    if run.first.0 <= run.last.0 {
        dies[run.die.0 as usize].add(run.first.0, run.last.0)?;
    }
    Ok(())
}
