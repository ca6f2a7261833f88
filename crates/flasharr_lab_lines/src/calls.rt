//! What lines ask of an array, as its calls.
use crate::lent::Lent;
use crate::records::Records;
use fa_core_calls::Call;
use fa_machine::ClaimId;
use fa_types::{Page, Seq};
use flasharr_lab_parts::Heap;
use flasharr_lab_words::{Event, die_of, number_at};

/// An event that is no job's as a call. None where it is lent nothing that it needs.
pub fn call_of<'b, 'a>(
    event: Event,
    numbers: &[u64],
    records: &Records,
    lent: &'b Lent<'a>,
) -> Option<Call<'b, &'a Heap>> {
    let first = number_at(numbers, 0);
    let second = number_at(numbers, 1);
    Some(match event {
        Event::Claim => Call::Claim(Page(first)),
        Event::Release => Call::Release(ClaimId(first)),
        Event::Reserve => Call::Reserve(ClaimId(first), lent.payload()?),
        Event::ReserveHole => Call::ReserveHole(ClaimId(first)),
        Event::ReserveFewer => Call::ReserveFewer(ClaimId(first), lent.payload()?),
        Event::Commit => Call::Commit(ClaimId(first)),
        Event::Abandon => Call::Abandon(ClaimId(first)),
        Event::Admit => Call::Admit(lent.pages()),
        Event::Replan => Call::Replan(records.batch(first)),
        Event::EndBatch => Call::EndBatch(records.batch(first)),
        Event::Window => Call::Window(die_of(first), second),
        Event::Advance => Call::Advance,
        Event::SpareIn => Call::SpareIn(die_of(first)),
        Event::ReserveCopy => Call::ReserveCopy(Page(first), Seq(second), lent.payload()?),
        Event::CommitCopy => Call::CommitCopy,
        Event::FlushBegin => Call::FlushBegin,
        Event::FlushState => Call::FlushState(records.flush(first)),
        Event::Fold => Call::Fold,
        Event::Take | Event::Done(_) => return None,
    })
}
