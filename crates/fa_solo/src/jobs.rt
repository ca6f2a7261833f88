//! All work that dies have.
ghost use Rattle.std.specs.Prelude.{◌≡◌, true, false, IfSome};
ghost use Rattle.fa_machine.specs.Reading.{results as rule_results};
ghost use Rattle.fa_solo.specs.Rebuilding.{IsStuck};
ghost use Rattle.fa_solo_job.specs.Deeds.{IsAwaited, IsForDies, IsForRequests};
ghost use Rattle.fa_solo_job.specs.Inner.{Does};

use fa_core_calls::{Events, Looks};
use fa_image::Image;
use fa_machine::{BatchId, ReadState};
use fa_shared::{advance, bring_in_spare};
use fa_solo_job::{Inner, run_next};
use fa_types::Die;
use std::alloc::Allocator;
use std::sync::ledger::Ledger;

/// Makes a job of each die that has one, and behind these the round passes, if the batch awaits a later one and if it may. Where no die had
/// a job it passes too if one is awaited for a step of a collector. Whether anything was done.
pub(crate) fn work<L: Ledger, E: Events<A>, I: Image, A: Allocator + Copy>(
    inner: &mut Inner<L, E, I, A>,
    batch: Option<BatchId>,
) -> bool
    ensures does { Does I.made IsForDies inner.old inner.new }
    ensures stuck { result ≡ false → IfSome batch (λ batch. rule_results inner.new.locked.core batch.0 ≡ ReadState.Waiting
        → IsStuck inner.new.locked.core) }
{
    if make_jobs(inner) {
        pass_for(inner, batch);
        return true;
    }
    if !is_awaited(inner.locked.array(), batch) {
        return false;
    }
    pass_round(inner)
}

/// The same until the batch, if one is awaited, has all of its answers, or there is nothing to be done. Whether anything was done.
pub(crate) fn work_for<L: Ledger, E: Events<A>, I: Image, A: Allocator + Copy>(
    inner: &mut Inner<L, E, I, A>,
    batch: Option<BatchId>,
) -> bool
    ensures { Does I.made IsForDies inner.old inner.new }
{
    if !work(inner, batch) {
        return false;
    }
    for _ in 0..u64::MAX {
        if !work_again(inner, batch) {
            return true;
        }
    }
    true
}

/// The same once, if the batch has not all of its answers.
fn work_again<L: Ledger, E: Events<A>, I: Image, A: Allocator + Copy>(
    inner: &mut Inner<L, E, I, A>,
    batch: Option<BatchId>,
) -> bool
    ensures { Does I.made IsForDies inner.old inner.new }
{
    if !is_read(inner.locked.array(), batch) {
        return false;
    }
    work(inner, batch)
}

/// Whether a later round is awaited: the batch has not all of its answers, or a die that has a window has a block to collect.
fn is_awaited<E: Looks>(array: &E, batch: Option<BatchId>) -> bool
    requires whole { E.whole array.now }
    ensures yes { result ≡ true → IsAwaited (E.core array.now) }
    ensures no { result ≡ false → IfSome batch (λ batch. rule_results (E.core array.now) batch.0 ≡ ReadState.Waiting → ⊥) }
{
    if is_read(array, batch) {
        return true;
    }
    is_collected(array)
}

/// Whether the batch has not all of its answers.
fn is_read<E: Looks>(array: &E, batch: Option<BatchId>) -> bool
    requires whole { E.whole array.now }
    ensures yes { result ≡ true → IsAwaited (E.core array.now) }
    ensures no { result ≡ false → IfSome batch (λ batch. rule_results (E.core array.now) batch.0 ≡ ReadState.Waiting → ⊥) }
{
    let Some(batch) = batch else {
        return false;
    };
    match array.results(batch) {
        ReadState::Waiting => true,
        ReadState::Ready => false,
        ReadState::Torn => false,
    }
}

/// Whether some live die that has a window has a block to collect.
fn is_collected<E: Looks>(array: &E) -> bool
    ensures { result ≡ true → IsAwaited (E.core array.now) }
{
    for die in 0..array.geometry().dies {
        if has_step(array, Die(die as u8)) {
            return true;
        }
    }
    false
}

/// Whether the die is live, has a window, and has a block to collect.
fn has_step<E: Looks>(array: &E, die: Die) -> bool
    ensures { result ≡ true → IsAwaited (E.core array.now) }
{
    if !array.is_die(die) {
        return false;
    }
    if !array.has_window(die) {
        return false;
    }
    if !array.is_live(die) {
        return false;
    }
    array.victim(die).is_some()
}

/// The same until there is nothing to be done.
pub(crate) fn work_off<L: Ledger, E: Events<A>, I: Image, A: Allocator + Copy>(
    inner: &mut Inner<L, E, I, A>,
)
    ensures { Does I.made IsForDies inner.old inner.new }
{
    for _ in 0..u64::MAX {
        if !work(inner, None) {
            return;
        }
    }
}

/// Makes a job of each die that has one. Whether a die had one.
fn make_jobs<L: Ledger, E: Events<A>, I: Image, A: Allocator + Copy>(
    inner: &mut Inner<L, E, I, A>,
) -> bool
    ensures { Does I.made IsForDies inner.old inner.new }
{
    let mut made = false;
    for die in 0..inner.locked.array().geometry().dies {
        if run_next(inner, Die(die as u8)) {
            made = true;
        }
    }
    made
}

/// Brings in a spare, where one is wanted.
pub(crate) fn bring_in<L: Ledger, E: Events<A>, I: Image, A: Allocator + Copy>(
    inner: &mut Inner<L, E, I, A>,
)
    ensures { Does I.made IsForRequests inner.old inner.new }
{
    bring_in_spare(inner.alloc, &mut inner.locked, &mut inner.seat);
}

/// Lets the round pass, if the batch has not all of its answers and if it may.
fn pass_for<L: Ledger, E: Events<A>, I: Image, A: Allocator + Copy>(
    inner: &mut Inner<L, E, I, A>,
    batch: Option<BatchId>,
)
    ensures { Does I.made IsForDies inner.old inner.new }
{
    if !is_read(inner.locked.array(), batch) {
        return;
    }
    pass_round(inner);
}

/// Lets the round pass, if it may. Whether it passed.
fn pass_round<L: Ledger, E: Events<A>, I: Image, A: Allocator + Copy>(
    inner: &mut Inner<L, E, I, A>,
) -> bool
    requires { IsAwaited inner.old.locked.core }
    ensures does { Does I.made IsForDies inner.old inner.new }
    ensures stuck { result ≡ false → IsStuck inner.new.locked.core }
{
    advance(inner.alloc, &mut inner.locked, &mut inner.seat).is_ok()
}
