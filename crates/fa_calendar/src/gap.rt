//! The first run of open rounds between spans of closed ones.
ghost use Rattle.std.specs.Prelude.{◌≡◌, ℕ, ◌+◌, ◌*◌, ◌^◌, ◌<◌, ◌≤◌};
ghost use Rattle.fa_types.specs.Open.{max_closed};
ghost use Rattle.fa_closed.specs.Runs.{is_covered};
ghost use Rattle.fa_calendar.specs.Merging.{total_rounds, AreMerged};
ghost use Rattle.fa_types.specs.Windows.{IsFirstWindow};

use fa_closed::Span;
use std::alloc::Allocator;
use std::collections::VecDeque;

/// The first round after a given one from which so many rounds lie in none of the spans. It takes a look
/// at each span that begins before they end.
pub fn first_gap<A: Allocator>(spans: &VecDeque<Span, A>, now: u64, count: u64) -> u64
    requires merged { AreMerged spans.now.items }
    requires few { total_rounds spans.now.items ≤ max_closed }
    requires early { now ≤ 2 ^ 56 }
    requires some { 1 ≤ count }
    requires short { count ≤ 64 }
    ensures first { IsFirstWindow now (is_covered spans.now.items) count result }
    ensures near { result ≤ now + 2 ^ 32 }
{
    let mut first = now + 1;
    for index in 0..spans.len() {
        let span = spans[index];
        if span.first.saturating_sub(first) >= count {
            return first;
        }
        first = first.max(span.last + 1);
    }
    first
}
