//! An event as one value, and its answer.
use crate::admitted::Admitted;
use fa_core_outcome::{Job, Outcome};
use fa_machine::{
    AbandonRefused, AdmitRefused, AdvanceRefused, BatchId, ClaimId, ClaimRefused,
    CommitCopyRefused, CommitRefused, Copied, Flush, FlushRefused, FlushState, ReserveCopyRefused,
    ReserveRefused, SpareRefused, WindowRefused,
};
use fa_plan::Planned;
use fa_tag::Payload;
use fa_types::{Die, Page, Round, Seq};
use std::alloc::{Allocator, Global};

/// An event of the array that is asked for.
#[derive(Drop)]
pub enum Call<'a, A: Allocator = Global> {
    /// [`fa_core::Array::claim`].
    Claim(Page),
    /// [`fa_core::Array::release`].
    Release(ClaimId),
    /// [`fa_core::Array::reserve`], of this payload.
    Reserve(ClaimId, &'a Payload<A>),
    /// [`fa_core::Array::reserve_hole`].
    ReserveHole(ClaimId),
    /// [`fa_core::Array::reserve_fewer`], of this payload.
    ReserveFewer(ClaimId, &'a Payload<A>),
    /// [`fa_core::Array::commit`].
    Commit(ClaimId),
    /// [`fa_core::Array::abandon`].
    Abandon(ClaimId),
    /// [`fa_core::Array::admit`].
    Admit(&'a [Page]),
    /// [`fa_core::Array::replan`].
    Replan(BatchId),
    /// [`fa_core::Array::end_batch`].
    EndBatch(BatchId),
    /// [`fa_core::Array::take`].
    Take(Die),
    /// [`fa_core::Array::done`], with the buffer that has what a read gave.
    Done(Die, Outcome, Vec<u8, A>),
    /// [`fa_core::Array::window`], of so many rounds.
    Window(Die, u64),
    /// [`fa_core::Array::advance`].
    Advance,
    /// [`fa_core::Array::spare_in`].
    SpareIn(Die),
    /// [`fa_core::Array::reserve_copy`], of this payload.
    ReserveCopy(Page, Seq, &'a Payload<A>),
    /// [`fa_core::Array::commit_copy`].
    CommitCopy,
    /// [`fa_core::Array::flush_begin`].
    FlushBegin,
    /// [`fa_core::Array::flush_state`].
    FlushState(Flush),
    /// [`fa_core::Array::fold`].
    Fold,
}

/// What an event answers.
#[derive(Drop)]
pub enum Answer<A: Allocator = Global> {
    /// A condition of the event does not hold, and nothing has changed. A buffer that came with the call is handed back.
    Stranger(Option<Vec<u8, A>>),
    /// Of a Claim.
    Claim(Result<ClaimId, ClaimRefused>),
    /// Of a Release.
    Release,
    /// Of a Reserve, of whichever kind.
    Reserve(Result<Seq, ReserveRefused>),
    /// Of a Commit.
    Commit(Result<Seq, CommitRefused>),
    /// Of an Abandon.
    Abandon(Result<(), AbandonRefused>),
    /// Of an Admit.
    Admit(Result<Admitted<A>, AdmitRefused>),
    /// Of a Replan.
    Replan(Result<Planned<A>, AdmitRefused>),
    /// Of an EndBatch.
    EndBatch(Vec<(Page, Vec<u8, A>), A>),
    /// Of a Take.
    Take(Option<Job<A>>),
    /// Of a Done, with the buffer or the one that it changed places with.
    Done(Vec<u8, A>),
    /// Of a Window.
    Window(Result<Round, WindowRefused>),
    /// Of an Advance.
    Advance(Result<Round, AdvanceRefused>),
    /// Of a SpareIn.
    SpareIn(Result<(), SpareRefused>),
    /// Of a ReserveCopy.
    ReserveCopy(Result<(), ReserveCopyRefused>),
    /// Of a CommitCopy.
    CommitCopy(Result<Copied, CommitCopyRefused>),
    /// Of a FlushBegin.
    FlushBegin(Result<Flush, FlushRefused>),
    /// Of a FlushState.
    FlushState(FlushState),
    /// Of a Fold.
    Fold,
}
