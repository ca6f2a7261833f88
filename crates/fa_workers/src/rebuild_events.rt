//! What the rebuilder does while it holds the array's lock.
ghost use Rattle.std.specs.Prelude.{◌≡◌, false, map, IfSome};
ghost use Rattle.fa_core_calls.specs.Answers.{admit_answer};
ghost use Rattle.fa_shared_lock.specs.Rest.{LeavesRest};
ghost use Rattle.fa_workers.specs.Rebuilding.{AfterBatch, IsNumbered, Rebuilds, after_admit, after_commit as rule_commit, after_reserve};
ghost use Rattle.fa_workers.specs.declared.rebuild_stage.RebuildStage.TheVariants.{Looking, Pausing, Reading, Reserving, Copying};

use crate::rebuild_stage::{RebuildStage, ThinPage};
use fa_core_calls::{Admitted, Events};
use fa_machine::{AdmitRefused, BatchId, CommitCopyRefused, Copied, ReadState, ReserveCopyRefused};
use fa_shared::{bring_in_spare, commit_copy, reserve_copy};
use fa_shared_lock::{Locked, Seat};
use fa_shared_turns::{admit, end_batch};
use fa_tag::Payload;
use fa_types::Page;
use std::alloc::{Allocator, Global};
use std::sync::ledger::Ledger;

/// What a turn of the rebuilder came to.
#[derive(Clone, Copy)]
pub(crate) enum Came {
    /// Others are told of a change, and the next turn is made at once.
    Told,
    /// The next turn is made at once.
    More,
    /// The rebuilder waits for what others do.
    Wait,
}

/// A turn of the rebuilder: how far it is, and what it does next.
#[derive(Drop)]
pub(crate) struct Turned<A: Allocator = Global> {
    pub(crate) stage: RebuildStage<A>,
    pub(crate) came: Came,
}

/// A turn, with at most one event that is accepted.
pub(crate) fn turn<L: Ledger, E: Events<A>, A: Allocator + Copy>(
    alloc: A,
    locked: &mut Locked<L, E, A>,
    seat: &mut Seat<L>,
    stage: RebuildStage<A>,
) -> Turned<A>
    ensures rebuilds { Rebuilds locked.old stage locked.new.core result.stage }
    ensures account { LeavesRest locked.old seat.old locked.new seat.new }
{
    match stage {
        RebuildStage::Looking => look(alloc, locked, seat),
        RebuildStage::Pausing => pause(locked),
        RebuildStage::Reading(thin, batch) => read(alloc, locked, seat, thin, batch),
        RebuildStage::Reserving(thin, payload) => reserve(locked, seat, thin, payload),
        RebuildStage::Copying => copy(alloc, locked, seat),
        stage => comes_to(stage, Came::More),
    }
}

fn comes_to<A: Allocator>(stage: RebuildStage<A>, came: Came) -> Turned<A>
    ensures { result.stage ≡ stage }
{
    Turned { stage, came }
}

/// A spare is brought in, or else the next thin page is read.
fn look<L: Ledger, E: Events<A>, A: Allocator + Copy>(
    alloc: A,
    locked: &mut Locked<L, E, A>,
    seat: &mut Seat<L>,
) -> Turned<A>
    ensures rebuilds { Rebuilds locked.old Looking locked.new.core result.stage }
    ensures account { LeavesRest locked.old seat.old locked.new seat.new }
{
    if locked.is_stopping() {
        return comes_to(RebuildStage::Ended, Came::More);
    }
    if bring_in_spare(alloc, locked, seat) {
        return comes_to(RebuildStage::Looking, Came::Told);
    }
    match find_thin(locked) {
        Some(thin) => ask(locked, seat, thin),
        None => comes_to(RebuildStage::Looking, Came::Wait),
    }
}

/// Something has to change first.
fn pause<L: Ledger, E: Events<A>, A: Allocator + Copy>(locked: &Locked<L, E, A>) -> Turned<A>
    ensures { Rebuilds locked.now Pausing locked.now.core result.stage }
{
    if locked.is_stopping() {
        comes_to(RebuildStage::Ended, Came::More)
    } else {
        comes_to(RebuildStage::Looking, Came::Wait)
    }
}

/// The next thin page that has a place to go.
fn find_thin<L: Ledger, E: Events<A>, A: Allocator + Copy>(
    locked: &Locked<L, E, A>,
) -> Option<ThinPage>
    ensures { IfSome result (λ thin. IsNumbered locked.now.core thin) }
{
    let (page, _) = locked.array().next_thin()?;
    if !locked.array().is_page(page) {
        return None;
    }
    let seq = locked.array().seq(page)?;
    Some(ThinPage { page, seq })
}

/// A batch of the page alone is admitted.
fn ask<L: Ledger, E: Events<A>, A: Allocator + Copy>(
    locked: &mut Locked<L, E, A>,
    seat: &mut Seat<L>,
    thin: ThinPage,
) -> Turned<A>
    requires number { IsNumbered locked.old.core thin }
    requires goes_on { locked.old.stopping ≡ false }
    ensures rebuilds { Rebuilds locked.old Looking locked.new.core result.stage }
    ensures account { LeavesRest locked.old seat.old locked.new seat.new }
{
    match admit(locked, seat, &[thin.page]) {
        None => comes_to(RebuildStage::Looking, Came::Wait),
        Some(answer) => asked(thin, answer),
    }
}

/// What the rebuilder does behind its Admit.
fn asked<A: Allocator>(thin: ThinPage, answer: Result<Admitted<A>, AdmitRefused>) -> Turned<A>
    ensures { result.stage ≡ after_admit thin (admit_answer answer) }
{
    match answer {
        Ok(admitted) => comes_to(RebuildStage::Reading(thin, admitted.batch), Came::Told),
        Err(_) => comes_to(RebuildStage::Looking, Came::Wait),
    }
}

/// The batch goes on as it stands: it is waited for, or ended.
fn read<L: Ledger, E: Events<A>, A: Allocator + Copy>(
    alloc: A,
    locked: &mut Locked<L, E, A>,
    seat: &mut Seat<L>,
    thin: ThinPage,
    batch: BatchId,
) -> Turned<A>
    ensures rebuilds { Rebuilds locked.old (Reading thin batch) locked.new.core result.stage }
    ensures account { LeavesRest locked.old seat.old locked.new seat.new }
{
    let stops = locked.is_stopping();
    let state = locked.array().results(batch);
    if !stops && matches!(state, ReadState::Waiting) {
        return comes_to(RebuildStage::Reading(thin, batch), Came::Wait);
    }
    match end_batch(alloc, locked, seat, batch) {
        None => comes_to(RebuildStage::Looking, Came::More),
        Some(answers) => comes_to(after_batch(thin, answers, stops, state), Came::Told),
    }
}

/// How far the rebuilder is behind its EndBatch. A batch that is torn is begun anew.
fn after_batch<A: Allocator>(
    thin: ThinPage,
    answers: Vec<(Page, Vec<u8, A>), A>,
    stops: bool,
    state: ReadState,
) -> RebuildStage<A>
    ensures { AfterBatch stops state thin (map (λ e. (e.0.0, e.1.items)) answers.items) result }
{
    if stops {
        return RebuildStage::Ended;
    }
    match state {
        ReadState::Ready => RebuildStage::Read(thin, answers),
        ReadState::Waiting | ReadState::Torn => RebuildStage::Looking,
    }
}

/// A slot is reserved for the copy.
fn reserve<L: Ledger, E: Events<A>, A: Allocator + Copy>(
    locked: &mut Locked<L, E, A>,
    seat: &mut Seat<L>,
    thin: ThinPage,
    payload: Payload<A>,
) -> Turned<A>
    ensures rebuilds { Rebuilds locked.old (Reserving thin payload) locked.new.core result.stage }
    ensures account { LeavesRest locked.old seat.old locked.new seat.new }
{
    if locked.is_stopping() {
        return comes_to(RebuildStage::Ended, Came::More);
    }
    match reserve_copy(locked, seat, thin.page, thin.seq, &payload) {
        None => comes_to(RebuildStage::Looking, Came::Wait),
        Some(answer) => reserved(thin, payload, answer),
    }
}

/// What the rebuilder does behind a ReserveCopy. Where the page wants no such copy, or there is no room for it, it looks for another.
fn reserved<A: Allocator>(
    thin: ThinPage,
    payload: Payload<A>,
    answer: Result<(), ReserveCopyRefused>,
) -> Turned<A>
    ensures { result.stage ≡ after_reserve (Reserving thin payload) answer }
{
    match answer {
        Ok(()) => comes_to(RebuildStage::Copying, Came::Told),
        Err(ReserveCopyRefused::Gone | ReserveCopyRefused::NoRoom) => {
            comes_to(RebuildStage::Looking, Came::More)
        }
        Err(ReserveCopyRefused::Busy | ReserveCopyRefused::NoMemory) => {
            comes_to(RebuildStage::Reserving(thin, payload), Came::Wait)
        }
    }
}

/// The copy is waited for until it has ended, whether the array is to end or not.
fn copy<L: Ledger, E: Events<A>, A: Allocator + Copy>(
    alloc: A,
    locked: &mut Locked<L, E, A>,
    seat: &mut Seat<L>,
) -> Turned<A>
    ensures rebuilds { Rebuilds locked.old Copying locked.new.core result.stage }
    ensures account { LeavesRest locked.old seat.old locked.new seat.new }
{
    match commit_copy(alloc, locked, seat) {
        None => comes_to(RebuildStage::Looking, Came::More),
        Some(answer) => after_commit(answer),
    }
}

/// What the rebuilder does behind a CommitCopy.
fn after_commit<A: Allocator>(answer: Result<Copied, CommitCopyRefused>) -> Turned<A>
    ensures { result.stage ≡ rule_commit answer }
{
    match answer {
        Ok(_) => comes_to(RebuildStage::Looking, Came::Told),
        Err(CommitCopyRefused::Pending) => comes_to(RebuildStage::Copying, Came::Wait),
        Err(CommitCopyRefused::Failed) => comes_to(RebuildStage::Looking, Came::Told),
    }
}
