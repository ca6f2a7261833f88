//! One event of an array. A Commit that is accepted is counted.
ghost use Rattle.std.specs.Prelude.{◌≡◌, ◌+◌, ◌<◌, true, false};
ghost use Rattle.fa_core_calls.specs.Calls.{FitsAnswer, HandsOutWhole, Makes, commits_of_answer};
ghost use Rattle.fa_machine.specs.Looks.{counts as rule_counts};

use fa_core_calls::{Answer, Call, Events};
use std::alloc::Allocator;
use std::sync::ledger::{Book, Ledger, Share};

/// One event of the array with its answer, made with the seat of this number. Where a condition of the event does not hold of the array as it
/// is now, the answer is Stranger and nothing has changed. A Commit that is accepted is one more in the book and in the seat's share.
pub fn make_counted<L: Ledger, E: Events<A>, A: Allocator + Copy>(
    alloc: A,
    array: &mut E,
    book: &mut Book<L>,
    seat: u32,
    share: &mut Share<L>,
    call: Call<'_, A>,
) -> Answer<A>
    requires whole { E.whole array.old }
    requires backed { 0 < share.old.parts }
    ensures event { Makes (E.core array.old) seat call.entry result (E.core array.new) }
    ensures number { E.number array.new ≡ E.number array.old }
    ensures whole { E.whole array.new }
    ensures fits { FitsAnswer (E.core array.old).page_map.geometry (E.number array.old) call.entry result }
    ensures handed { HandsOutWhole (E.core array.old) call.entry result }
    ensures commits { (rule_counts (E.core array.new)).0 ≡ (rule_counts (E.core array.old)).0 + commits_of_answer result }
    ensures book { book.new.total ≡ book.old.total + commits_of_answer result }
    ensures share { share.new.amount ≡ share.old.amount + commits_of_answer result }
    ensures parts { share.new.parts ≡ share.old.parts }
{
    let mut call = call;
    let answer = array.step(alloc, seat, &mut call);
    if is_commit(&answer) {
        book.add(share, 1);
    }
    answer
}

/// Whether a Commit was accepted.
fn is_commit<A: Allocator>(answer: &Answer<A>) -> bool
    ensures yes { result ≡ true → commits_of_answer answer.now ≡ 1 }
    ensures no { result ≡ false → commits_of_answer answer.now ≡ 0 }
{
    matches!(answer, Answer::Commit(Ok(_)))
}
