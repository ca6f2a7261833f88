//! Thin pages that get one more copy.
ghost use Rattle.std.specs.Prelude.{◌≡◌, ◌⊎◌, ◌-◌, ◌^◌, ◌∷◌, ◌≤◌, ℕ, [], map, option_map, true, false, IfNone, IfSome, Ok, Err, Some, None};
ghost use Rattle.std.specs.FinMap.{get};
ghost use Rattle.fa_machine.specs.Conditions.{batch_open};
ghost use Rattle.fa_machine.specs.Looks.{next_thin as rule_thin};
ghost use Rattle.fa_machine.specs.Placement.{is_thin};
ghost use Rattle.fa_machine.specs.Reading.{Planned, results as rule_results};
ghost use Rattle.fa_machine.specs.Step.{Admit, EndBatch, ReserveCopy, is_page};
ghost use Rattle.fa_core_calls.specs.Answers.{admit_answer};
ghost use Rattle.fa_shared_lock.specs.Seats.{number_of};
ghost use Rattle.fa_solo.specs.Rebuilding.{Copies, IsStuck, Rebuilds, of_copy, of_refusal};
ghost use Rattle.fa_solo_job.specs.Deeds.{IsForDies, IsForOrder};
ghost use Rattle.fa_solo_job.specs.Inner.{AsksCopy, AwaitsBatch, Does, DoesOne, Halts, PutsInOrder, SettlesCopy, TidiesBy, house_of};
ghost use Rattle.fa_solo_job.specs.Orders.{looks_of};

use crate::collecting::collect;
use crate::jobs::{bring_in, work, work_off};
use fa_core_calls::{Admitted, Events};
use fa_image::Image;
use fa_machine::{AdmitRefused, BatchId, CommitCopyRefused, Copied, ReadState, ReserveCopyRefused};
use fa_shared::{commit_copy, reserve_copy};
use fa_shared_lock::Locked;
use fa_shared_turns::{admit, end_batch};
use fa_solo_job::Inner;
use fa_tag::Payload;
use fa_types::{Page, Seq};
use std::alloc::Allocator;
use std::sync::ledger::Ledger;

/// A page that is to have one more copy, with its number when it was found.
#[derive(Clone, Copy)]
struct ThinPage {
    page: Page,
    seq: Seq,
}

/// What came of giving the next thin page one more copy.
#[derive(Clone, Copy)]
pub(crate) enum Rebuilt {
    /// No thin page has a place to go.
    Nothing,
    /// A thin page was read.
    Tried,
    /// Something was refused, or did not come to its end.
    Stopped,
}

/// Brings in a spare where one is wanted, collects until no live die wants a window, and makes copies until no page is thin that has a
/// place to go. A refusal ends this, and the jobs that are left are made then. A copy that was begun is seen through.
pub(crate) fn tidy<L: Ledger, E: Events<A>, I: Image, A: Allocator + Copy>(
    inner: &mut Inner<L, E, I, A>,
)
    ensures { PutsInOrder I.made inner.old inner.new }
{
    if put_in_order(inner) {
        return;
    }
    work_off(inner);
}

/// The same, but that jobs may be left to do where something ended this. Whether nothing is left.
fn put_in_order<L: Ledger, E: Events<A>, I: Image, A: Allocator + Copy>(
    inner: &mut Inner<L, E, I, A>,
) -> bool
    ensures yes { result ≡ true → PutsInOrder I.made inner.old inner.new }
    ensures no { result ≡ false → Halts I.made inner.old inner.new ⊎ TidiesBy I.made (2 ^ 64 - 1) inner.old inner.new }
{
    for turns in 0..u64::MAX {
        bring_in(inner);
        if !collect(inner) {
            return false;
        }
        match rebuild_next(inner) {
            Rebuilt::Nothing => return true,
            Rebuilt::Tried => {}
            Rebuilt::Stopped => return false,
        }
    }
    false
}

/// Gives the next thin page one more copy.
fn rebuild_next<L: Ledger, E: Events<A>, I: Image, A: Allocator + Copy>(
    inner: &mut Inner<L, E, I, A>,
) -> Rebuilt
    ensures { Rebuilds I.made result inner.old inner.new }
{
    let Some(thin) = find_thin(&inner.locked) else {
        return Rebuilt::Nothing;
    };
    let Some(batch) = ask(inner, thin.page) else {
        return Rebuilt::Stopped;
    };
    let state = wait_for(inner, batch);
    let answers = end(inner, batch);
    match state {
        ReadState::Ready => copy(inner, thin, answers),
        ReadState::Torn => Rebuilt::Tried,
        ReadState::Waiting => Rebuilt::Stopped,
    }
}

/// A batch of the page alone, if it is admitted.
fn ask<L: Ledger, E: Events<A>, I: Image, A: Allocator + Copy>(
    inner: &mut Inner<L, E, I, A>,
    page: Page,
) -> Option<BatchId>
    requires page { is_page inner.old.locked.core page.0 ≡ true }
    requires thin { is_thin inner.old.locked.core.copies inner.old.locked.core.page_map page.0 ≡ true }
    ensures none { IfNone result ((refused : AdmitRefused) × DoesOne (Admit (page.0 ∷ []) (Err refused)) inner.old inner.new) }
    ensures some { IfSome result (λ batch. (planned : Planned)
        × DoesOne (Admit (page.0 ∷ []) (Ok (record { batch = batch; planned = planned }))) inner.old inner.new) }
{
    match admit(&mut inner.locked, &mut inner.seat, &[page]) {
        Some(answer) => batch_of(answer),
        None => unreachable!(),
    }
}

/// The batch that was admitted, if it was.
fn batch_of<A: Allocator>(answer: Result<Admitted<A>, AdmitRefused>) -> Option<BatchId>
    ensures some { IfSome result (λ batch. (planned : Planned) × (admit_answer answer ≡ Ok (record { batch = batch; planned = planned }))) }
    ensures none { IfNone result ((refused : AdmitRefused) × (admit_answer answer ≡ Err refused)) }
{
    match answer {
        Ok(admitted) => Some(admitted.batch),
        Err(_) => None,
    }
}

/// What the batch gave, which is ended.
fn end<L: Ledger, E: Events<A>, I: Image, A: Allocator + Copy>(
    inner: &mut Inner<L, E, I, A>,
    batch: BatchId,
) -> Vec<(Page, Vec<u8, A>), A>
    requires { batch_open inner.old.locked.core batch.0 ≡ true }
    ensures { DoesOne (EndBatch batch.0 (map (λ e. (e.0.0, e.1.items)) result.items)) inner.old inner.new }
{
    let Some(answers) = end_batch(inner.alloc, &mut inner.locked, &mut inner.seat, batch) else {
        unreachable!()
    };
    answers
}

/// The next thin page that has a place to go.
fn find_thin<L: Ledger, E: Events<A>, A: Allocator + Copy>(
    locked: &Locked<L, E, A>,
) -> Option<ThinPage>
    ensures page { IfSome result (λ thin. is_page locked.now.core thin.page.0 ≡ true) }
    ensures number { IfSome result (λ thin. option_map (λ version. version.seq) (get locked.now.core.page_map.versions thin.page.0)
        ≡ Some thin.seq) }
    ensures thin { IfSome result (λ thin. is_thin locked.now.core.copies locked.now.core.page_map thin.page.0 ≡ true) }
    ensures none { IfNone result (rule_thin locked.now.core.copies locked.now.core.page_map ≡ None) }
{
    let (page, _) = locked.array().next_thin()?;
    if !locked.array().is_page(page) {
        unreachable!()
    }
    let Some(seq) = locked.array().seq(page) else {
        unreachable!()
    };
    Some(ThinPage { page, seq })
}

/// Makes the reads of a batch, and tells how it stands then.
fn wait_for<L: Ledger, E: Events<A>, I: Image, A: Allocator + Copy>(
    inner: &mut Inner<L, E, I, A>,
    batch: BatchId,
) -> ReadState
    ensures waits { (looks : ℕ) × (AwaitsBatch I.made batch.0 looks inner.old inner.new × (result ≡ ReadState.Waiting
        → ((rule_results inner.new.locked.core batch.0 ≡ ReadState.Waiting) × IsStuck inner.new.locked.core) ⊎ (2 ^ 64 - 1 ≤ looks))) }
    ensures ready { result ≡ ReadState.Ready → rule_results inner.new.locked.core batch.0 ≡ ReadState.Ready }
{
    for looks in 0..u64::MAX {
        match inner.locked.array().results(batch) {
            ReadState::Ready => return ReadState::Ready,
            ReadState::Torn => return ReadState::Torn,
            ReadState::Waiting => {}
        }
        if !work(inner, Some(batch)) {
            return inner.locked.array().results(batch);
        }
    }
    ReadState::Waiting
}

/// Makes a copy of what was read of a page. Where the page has become lost or whole meanwhile, or has another number, that is none.
fn copy<L: Ledger, E: Events<A>, I: Image, A: Allocator + Copy>(
    inner: &mut Inner<L, E, I, A>,
    thin: ThinPage,
    answers: Vec<(Page, Vec<u8, A>), A>,
) -> Rebuilt
    ensures { Copies I.made thin.page.0 thin.seq.0 (map (λ e. (e.0.0, e.1.items)) answers.items) result inner.old inner.new }
{
    let Some(answer) = reserve_last(inner, thin, answers) else {
        return Rebuilt::Tried;
    };
    match answer {
        Ok(()) => seen(see_through(inner)),
        Err(refused) => after_refusal(refused),
    }
}

/// What came of a copy that was seen through.
fn seen(ended: bool) -> Rebuilt
    ensures { result ≡ of_copy ended }
{
    if ended {
        Rebuilt::Tried
    } else {
        Rebuilt::Stopped
    }
}

/// What comes of a copy that was refused.
fn after_refusal(refused: ReserveCopyRefused) -> Rebuilt
    ensures { result ≡ of_refusal refused }
{
    match refused {
        ReserveCopyRefused::Gone => Rebuilt::Tried,
        ReserveCopyRefused::NoRoom | ReserveCopyRefused::Busy | ReserveCopyRefused::NoMemory => {
            Rebuilt::Stopped
        }
    }
}

/// Reserves a slot for a copy of what was answered last, and tells the answer. None where it was not asked for.
fn reserve_last<L: Ledger, E: Events<A>, I: Image, A: Allocator + Copy>(
    inner: &mut Inner<L, E, I, A>,
    thin: ThinPage,
    answers: Vec<(Page, Vec<u8, A>), A>,
) -> Option<Result<(), ReserveCopyRefused>>
    ensures none { IfNone result (Does I.made IsForOrder inner.old inner.new) }
    ensures some { IfSome result (λ answer. AsksCopy thin.page.0 thin.seq.0 (map (λ e. (e.0.0, e.1.items)) answers.items) answer
        inner.old inner.new) }
{
    let mut answers = answers;
    let Some((_, bytes)) = answers.pop() else {
        return None;
    };
    let Ok(payload) = Payload::new(bytes) else {
        return None;
    };
    reserve(inner, thin, &payload)
}

/// Reserves a slot for the copy, and tells the answer. None where these are no bytes of a page.
fn reserve<L: Ledger, E: Events<A>, I: Image, A: Allocator + Copy>(
    inner: &mut Inner<L, E, I, A>,
    thin: ThinPage,
    payload: &Payload<A>,
) -> Option<Result<(), ReserveCopyRefused>>
    ensures none { IfNone result (Does I.made IsForOrder inner.old inner.new) }
    ensures some { IfSome result (λ answer. DoesOne (ReserveCopy thin.page.0 thin.seq.0 payload.now answer) inner.old inner.new) }
{
    let ThinPage { page, seq } = thin;
    reserve_copy(&mut inner.locked, &mut inner.seat, page, seq, payload)
}

/// Makes the program of the copy that is under way, and ends it. Whether it ended.
fn see_through<L: Ledger, E: Events<A>, I: Image, A: Allocator + Copy>(
    inner: &mut Inner<L, E, I, A>,
) -> bool
    ensures { (settled : SettlesCopy I.made inner.old inner.new) × (result ≡ false → 2 ^ 64 - 1 ≤ looks_of I.made inner.old.locked.number
        inner.old.dies.items (number_of inner.old.seat) (house_of inner.old) (house_of inner.new) settled.settles) }
{
    for looks in 0..u64::MAX {
        let Some(answer) = commit_copy(inner.alloc, &mut inner.locked, &mut inner.seat) else {
            return true;
        };
        if !is_pending(answer) {
            return true;
        }
        work(inner, None);
    }
    false
}

/// Whether the copy is not programmed yet.
fn is_pending(answer: Result<Copied, CommitCopyRefused>) -> bool
    ensures yes { result ≡ true → answer ≡ Err CommitCopyRefused.Pending }
    ensures no { result ≡ false → answer ≡ Err CommitCopyRefused.Pending → ⊥ }
{
    matches!(answer, Err(CommitCopyRefused::Pending))
}
