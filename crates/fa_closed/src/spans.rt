//! The closed rounds of one die, as spans that rise and do not touch.
ghost use Rattle.std.specs.Prelude.{◌≡◌, ℕ, ◌+◌, ◌-◌, ◌^◌, ◌<◌, ◌≤◌, ◌||◌, max, min, [], OnOk, OnErr};
ghost use Rattle.std.specs.List.{AllByRecursion};
ghost use Rattle.fa_types.specs.Open.{rounds_that};
ghost use Rattle.fa_closed.specs.Runs.{is_covered, is_from, AreRising, FewCovered, IsIndexFrom, IsNthFree};

use std::alloc::{AllocError, Allocator, Global};
use std::collections::VecDeque;
use std::marker::Model;

/// The rounds from a first to a last one.
#[derive(Clone, Copy)]
pub struct Span {
    pub first: u64,
    pub last: u64,
}

/// Spans of rounds in rising order, no two of which touch. Contracts see their list.
#[derive(Drop)]
pub struct Spans<A: Allocator = Global> {
    spans: VecDeque<Span, A>,
}

impl<A: Allocator> Model for Spans<A> {
    ghost use Rattle.std.specs.Prelude.{List};
    ghost use Rattle.fa_closed.specs.declared.spans.Span.{Span};

    ghost Value = { List Span };

    ghost use Rattle.fa_closed.specs.Runs.{AreRising};

    ghost view = { λ s. s.spans.items };

    ghost invariant = { λ s. AreRising s.spans.items };
}

impl<A: Allocator> Spans<A> {
    /// No rounds.
    pub fn new(alloc: A) -> Spans<A>
        ensures { result ≡ [] }
    {
        Spans {
            spans: VecDeque::new(alloc),
        }
    }

    /// The rounds of these spans.
    pub fn of(spans: VecDeque<Span, A>) -> Spans<A>
        requires { AreRising spans.items }
        ensures { result ≡ spans.items }
    {
        Spans { spans }
    }

    /// Adds the rounds from a first to a last one, which begin no earlier than those that are there.
    /// Out of memory, the spans stay as they were.
    pub fn add(&mut self, first: u64, last: u64) -> Result<(), AllocError>
        requires proper { first ≤ last }
        requires later { AllByRecursion (λ s. s.first ≤ first) self.old }
        ensures covered { OnOk result ((round : ℕ) → is_covered self.new round ≡ (is_covered self.old round || is_from first last round)) }
        ensures begins { OnOk result (AllByRecursion (λ s. s.first ≤ first) self.new) }
        ensures err { OnErr result (self.new ≡ self.old) }
    {
        add_span(&mut self.spans, first, last)
    }

    /// Whether the round lies in one of the spans.
    pub fn covers(&self, round: u64) -> bool
        ensures { result ≡ is_covered self.now round }
    {
        covers(&self.spans, round)
    }

    /// How many of so many rounds from a first one lie in the spans.
    pub fn count(&self, from: u64, rounds: u64) -> u64
        requires { from + rounds < 2 ^ 64 }
        ensures { result ≡ rounds_that (is_covered self.now) from rounds }
    {
        count_covered(&self.spans, from, rounds)
    }

    /// The n-th round from a first one, n from 1, that lies in none of the spans.
    pub fn nth_free(&self, from: u64, n: u64) -> u64
        requires first { 1 ≤ n }
        requires small { n ≤ 2 ^ 32 }
        requires early { from ≤ 2 ^ 56 }
        requires few { FewCovered self.now from }
        ensures { IsNthFree self.now from n result }
    {
        nth_uncovered(&self.spans, from, n)
    }
}

/// Adds a span that begins no earlier than the others: it is a longer last one, or one more.
fn add_span<A: Allocator>(
    spans: &mut VecDeque<Span, A>,
    first: u64,
    last: u64,
) -> Result<(), AllocError>
    requires proper { first ≤ last }
    requires later { AllByRecursion (λ s. s.first ≤ first) spans.old.items }
    requires rising { AreRising spans.old.items }
    ensures covered { OnOk result ((round : ℕ) → is_covered spans.new.items round
        ≡ (is_covered spans.old.items round || is_from first last round)) }
    ensures begins { OnOk result (AllByRecursion (λ s. s.first ≤ first) spans.new.items) }
    ensures rising { AreRising spans.new.items }
    ensures err { OnErr result (spans.new.items ≡ spans.old.items) }
{
    let len = spans.len();
    if len > 0 {
        let old = spans[len - 1];
        if first <= old.last.saturating_add(1) {
            spans[len - 1] = Span {
                first: old.first,
                last: old.last.max(last),
            };
            return Ok(());
        }
    }
    spans.push_back(Span { first, last })?;
    Ok(())
}

/// How many of so many rounds from a first one lie in the span.
fn overlap(span: Span, from: u64, rounds: u64) -> u64
    requires { from + rounds < 2 ^ 64 }
    ensures { result ≡ min (span.last + 1) (from + rounds) - max span.first from }
{
    let end = from + rounds;
    let past = if span.last < end { span.last + 1 } else { end };
    past.saturating_sub(span.first.max(from))
}

/// Whether the round lies in one of the spans. It takes as many steps as the logarithm of their number.
pub fn covers<A: Allocator>(spans: &VecDeque<Span, A>, round: u64) -> bool
    requires { AreRising spans.now.items }
    ensures { result ≡ is_covered spans.now.items round }
{
    let index = index_from(spans, round);
    index < spans.len() && spans[index].first <= round
}

/// The index of the first span that ends at the round or later, or their number where none does.
pub fn index_from<A: Allocator>(spans: &VecDeque<Span, A>, round: u64) -> usize
    requires { AreRising spans.now.items }
    ensures { IsIndexFrom spans.now.items round result }
{
    let mut low = 0;
    let mut high = spans.len();
    while low < high {
        let middle = low + (high - low) / 2;
        if spans[middle].last < round {
            low = middle + 1;
        } else {
            high = middle;
        }
    }
    low
}

/// How many of so many rounds from a first one lie in the spans. It takes a look at each span that
/// begins before they end.
pub fn count_covered<A: Allocator>(spans: &VecDeque<Span, A>, from: u64, rounds: u64) -> u64
    requires rising { AreRising spans.now.items }
    requires fits { from + rounds < 2 ^ 64 }
    ensures { result ≡ rounds_that (is_covered spans.now.items) from rounds }
{
    let mut count = 0;
    for index in 0..spans.len() {
        let span = spans[index];
        count += overlap(span, from, rounds);
    }
    count
}

/// The n-th round from a first one, n from 1, that lies in none of the spans. A span that begins
/// before it puts it off by the rounds that it has from the first one on.
pub fn nth_uncovered<A: Allocator>(spans: &VecDeque<Span, A>, from: u64, n: u64) -> u64
    requires rising { AreRising spans.now.items }
    requires first { 1 ≤ n }
    requires small { n ≤ 2 ^ 32 }
    requires early { from ≤ 2 ^ 56 }
    requires few { FewCovered spans.now.items from }
    ensures { IsNthFree spans.now.items from n result }
{
    let mut round = from + (n - 1);
    for index in 0..spans.len() {
        let span = spans[index];
        if round < span.first {
            break;
        }
        if from <= span.last {
            round += span.last - span.first.max(from) + 1;
        }
    }
    round
}
