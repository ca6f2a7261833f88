//! Spans of rounds that are edited: rounds come and go, and no two spans touch.
ghost use Rattle.std.specs.Prelude.{◌≡◌, ℕ, ◌+◌, ◌-◌, ◌≤◌, ◌<◌, Bool, true, false, length, slice_index_or, OnOk, OnErr};
ghost use Rattle.std.specs.VecDeque.{deque_len, deque_capacity};
ghost use Rattle.fa_closed.specs.declared.spans.Span.{Span};
ghost use Rattle.fa_closed.specs.Runs.{is_covered, IsIndexFrom};
ghost use Rattle.fa_calendar.specs.Merging.{total_rounds, AddsRun, AreMerged, DropsRound, PassesRound};

use fa_closed::{Span, index_from};
use std::alloc::{AllocError, Allocator};
use std::collections::VecDeque;

/// Adds the rounds from a first to a last one, none of which lies in the spans. Memory is taken only where
/// the spans are as many as there is room for; out of memory, they stay as they were.
pub fn put_in<A: Allocator>(
    spans: &mut VecDeque<Span, A>,
    first: u64,
    last: u64,
) -> Result<(), AllocError>
    requires proper { first ≤ last }
    requires merged { AreMerged spans.old.items }
    requires free { (round : ℕ) → first ≤ round → round ≤ last → is_covered spans.old.items round ≡ false }
    ensures ok { OnOk result (AddsRun spans.old.items first last spans.new.items) }
    ensures err { OnErr result (spans.new.items ≡ spans.old.items) }
    ensures full { OnErr result (deque_capacity spans.old ≤ deque_len spans.old) }
    ensures room { deque_capacity spans.old ≤ deque_capacity spans.new }
{
    let index = index_from(spans, first.saturating_sub(1));
    if index < spans.len() && spans[index].first.saturating_sub(last) <= 1 {
        join(spans, index, first, last);
        return Ok(());
    }
    spans.insert(index, Span { first, last })?;
    Ok(())
}

/// Adds a run of rounds to the span that it touches, and joins that to the next one where it touches
/// both.
fn join<A: Allocator>(spans: &mut VecDeque<Span, A>, index: usize, first: u64, last: u64)
    requires within { index < length spans.old.items }
    requires proper { first ≤ last }
    requires merged { AreMerged spans.old.items }
    requires free { (round : ℕ) → first ≤ round → round ≤ last → is_covered spans.old.items round ≡ false }
    requires at { IsIndexFrom spans.old.items (first - 1) index }
    requires near { (d : Span) → (slice_index_or spans.old.items index d).first - last ≤ 1 }
    ensures added { AddsRun spans.old.items first last spans.new.items }
    ensures room { deque_capacity spans.old ≤ deque_capacity spans.new }
{
    let span = spans[index];
    if first <= span.last {
        spans[index] = Span {
            first,
            last: span.last,
        };
        return;
    }
    let next = index + 1;
    if next < spans.len() && spans[next].first.saturating_sub(last) <= 1 {
        let other = spans[next];
        spans[index] = Span {
            first: span.first,
            last: other.last,
        };
        let _ = spans.remove(next);
        return;
    }
    spans[index] = Span {
        first: span.first,
        last,
    };
}

/// Takes a round out of the spans. Memory is taken only where it lies inside of a span, which then are
/// two, and where the spans are as many as there is room for; out of memory, they stay as they were.
pub fn take_out<A: Allocator>(spans: &mut VecDeque<Span, A>, round: u64) -> Result<(), AllocError>
    requires merged { AreMerged spans.old.items }
    requires covered { is_covered spans.old.items round ≡ true }
    ensures ok { OnOk result (DropsRound spans.old.items round spans.new.items) }
    ensures err { OnErr result (spans.new.items ≡ spans.old.items) }
    ensures full { OnErr result (deque_capacity spans.old ≤ deque_len spans.old) }
    ensures inside { OnErr result (deque_len spans.old + 2 ≤ total_rounds spans.old.items) }
    ensures room { deque_capacity spans.old ≤ deque_capacity spans.new }
{
    let index = index_from(spans, round);
    let span = spans[index];
    if span.first == round {
        trim(spans, index, round);
        return Ok(());
    }
    if span.last == round {
        spans[index] = Span {
            first: span.first,
            last: round - 1,
        };
        return Ok(());
    }
    split(spans, index, round, span.last)
}

/// Takes a round out of the spans, in none of which an earlier one lies, where it lies in one, and says
/// whether it did. It takes the same few steps however many they are.
pub fn pass<A: Allocator>(spans: &mut VecDeque<Span, A>, round: u64) -> bool
    requires merged { AreMerged spans.old.items }
    requires first { (r : ℕ) → r < round → is_covered spans.old.items r ≡ false }
    ensures covered { result ≡ is_covered spans.old.items round }
    ensures gone { PassesRound spans.old.items round spans.new.items }
    ensures room { deque_capacity spans.old ≤ deque_capacity spans.new }
{
    if spans.len() > 0 && spans[0].first <= round {
        trim(spans, 0, round);
        return true;
    }
    false
}

/// Takes the first round of a span out of it, and the span away where it has no other.
fn trim<A: Allocator>(spans: &mut VecDeque<Span, A>, index: usize, round: u64)
    requires within { index < length spans.old.items }
    requires merged { AreMerged spans.old.items }
    requires begins { (d : Span) → (slice_index_or spans.old.items index d).first ≡ round }
    ensures gone { DropsRound spans.old.items round spans.new.items }
    ensures room { deque_capacity spans.old ≤ deque_capacity spans.new }
{
    let span = spans[index];
    if span.last == round {
        let _ = spans.remove(index);
        return;
    }
    spans[index] = Span {
        first: round + 1,
        last: span.last,
    };
}

/// Takes a round out of the inside of a span with this last round, which then is two.
fn split<A: Allocator>(
    spans: &mut VecDeque<Span, A>,
    index: usize,
    round: u64,
    last: u64,
) -> Result<(), AllocError>
    requires within { index < length spans.old.items }
    requires merged { AreMerged spans.old.items }
    requires begun { (d : Span) → (slice_index_or spans.old.items index d).first < round }
    requires ends { (d : Span) → (slice_index_or spans.old.items index d).last ≡ last }
    requires goes_on { round < last }
    ensures ok { OnOk result (DropsRound spans.old.items round spans.new.items) }
    ensures err { OnErr result (spans.new.items ≡ spans.old.items) }
    ensures full { OnErr result (deque_capacity spans.old ≤ deque_len spans.old) }
    ensures inside { OnErr result (deque_len spans.old + 2 ≤ total_rounds spans.old.items) }
    ensures room { deque_capacity spans.old ≤ deque_capacity spans.new }
{
    let first = spans[index].first;
    let behind = Span {
        first: round + 1,
        last,
    };
    spans.insert(index + 1, behind)?;
    spans[index] = Span {
        first,
        last: round - 1,
    };
    Ok(())
}
