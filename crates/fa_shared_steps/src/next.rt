//! How a request goes on, by what the array answered.
ghost use Rattle.std.specs.Prelude.{◌≡◌, true, false, Err};
ghost use Rattle.fa_shared_steps.specs.Ranges.{IsRange};
ghost use Rattle.fa_shared_steps.specs.Stages.{AfterReserve, after_abandon, after_begin, after_claim, after_commit, after_release};
ghost use Rattle.fa_shared_steps.specs.Stages.{after_state, beginning};
ghost use Rattle.fa_shared_steps.specs.Stages.{after_pages as rule_after, from_page as rule_from, opened as rule_opened};
ghost use Rattle.fa_shared_steps.specs.Stages.{stopped as rule_stopped, with_fewer as rule_fewer};
ghost use Rattle.fa_shared_steps.specs.declared.stage.Stage.TheVariants.{Reserving};

use crate::request::Task;
use crate::stage::{PageClaim, Purpose, Stage, Wish};
use fa_machine::{
    AbandonRefused, ClaimId, ClaimRefused, CommitRefused, Flush, FlushRefused, FlushState,
    ReserveRefused,
};
use fa_types::{BlockFault, Page, Seq};
use std::alloc::Allocator;

/// How a request begins.
pub fn begin<A: Allocator>(task: Task) -> Stage<A>
    requires { IsRange task.range }
    ensures { result ≡ beginning task }
{
    if task.fill.is_some() {
        return from_page(task, task.range.first_page());
    }
    if task.flush {
        return after_pages(task);
    }
    if task.range.from == task.range.to {
        Stage::Ended(None)
    } else {
        Stage::Listing(Purpose::Answer(task.range.first_page()))
    }
}

/// The request is refused. A page that is claimed is released first.
pub fn stopped<A: Allocator>(purpose: Purpose, fault: BlockFault) -> Stage<A>
    ensures { result ≡ rule_stopped purpose fault }
{
    match purpose {
        Purpose::Answer(_) => Stage::Ended(Some(fault)),
        Purpose::Merge(held) => Stage::Releasing(held, Some(fault)),
    }
}

/// Behind the last page a flush is made, if there is to be one.
fn after_pages<A: Allocator>(task: Task) -> Stage<A>
    ensures { result ≡ rule_after task }
{
    if task.flush {
        Stage::BeginningFlush
    } else {
        Stage::Ended(None)
    }
}

/// The page is written next, if it is one of the range.
fn from_page<A: Allocator>(task: Task, page: u64) -> Stage<A>
    requires { IsRange task.range }
    ensures { result ≡ rule_from task page }
{
    if page < task.range.past_page() {
        Stage::Claiming(Page(page))
    } else {
        after_pages(task)
    }
}

/// A page is claimed. One that is written in part is read first.
fn opened<A: Allocator>(task: Task, held: PageClaim) -> Stage<A>
    requires { IsRange task.range }
    ensures { result ≡ rule_opened task held }
{
    if task.range.covers(held.page.0) {
        Stage::Filling(held, false)
    } else {
        Stage::Listing(Purpose::Merge(held))
    }
}

/// What the request does behind its Claim.
pub fn claimed<A: Allocator>(
    task: Task,
    page: Page,
    answer: Result<ClaimId, ClaimRefused>,
) -> Stage<A>
    requires { IsRange task.range }
    ensures { result ≡ after_claim task page answer }
{
    match answer {
        Ok(claim) => opened(task, PageClaim { page, claim }),
        Err(ClaimRefused::Claimed) => Stage::Claiming(page),
        Err(ClaimRefused::NoMemory) => Stage::Ended(Some(BlockFault::NoMemory)),
    }
}

/// What the request does behind its Reserve. Where there is no room it waits, if it is to.
pub fn reserved<A: Allocator>(
    held: PageClaim,
    wish: Wish<A>,
    answer: Result<Seq, ReserveRefused>,
    waits: bool,
) -> Stage<A>
    ensures after { AfterReserve held wish answer result }
    ensures waits { answer ≡ Err ReserveRefused.NoRoom → waits ≡ true → result ≡ Reserving held wish }
    ensures gives_up { answer ≡ Err ReserveRefused.NoRoom → waits ≡ false → result ≡ rule_fewer held wish }
{
    match answer {
        Ok(_) => Stage::Committing(held, wish),
        Err(ReserveRefused::NoRoom) => {
            if waits {
                Stage::Reserving(held, wish)
            } else {
                with_fewer(held, wish)
            }
        }
        Err(ReserveRefused::NoDie) => Stage::Releasing(held, Some(BlockFault::Lost)),
        Err(ReserveRefused::Spent) => Stage::Releasing(held, Some(BlockFault::Spent)),
        Err(ReserveRefused::NoMemory) => Stage::Releasing(held, Some(BlockFault::NoMemory)),
    }
}

/// The page is written with fewer copies than are asked for, if it was not tried yet.
fn with_fewer<A: Allocator>(held: PageClaim, wish: Wish<A>) -> Stage<A>
    ensures { result ≡ rule_fewer held wish }
{
    match wish {
        Wish::Data(payload) => Stage::Reserving(held, Wish::Fewer(payload)),
        Wish::Fewer(_) => Stage::Releasing(held, Some(BlockFault::NoRoom)),
        Wish::Hole => Stage::Filling(held, true),
    }
}

/// What the request does behind its Commit.
pub fn committed<A: Allocator>(
    held: PageClaim,
    wish: Wish<A>,
    answer: Result<Seq, CommitRefused>,
) -> Stage<A>
    ensures { result ≡ after_commit held wish answer }
{
    match answer {
        Ok(_) => Stage::Releasing(held, None),
        Err(CommitRefused::Pending) => Stage::Committing(held, wish),
        Err(CommitRefused::Failed) => Stage::Abandoning(held, wish),
    }
}

/// What the request does behind its Abandon.
pub fn abandoned<A: Allocator>(
    held: PageClaim,
    wish: Wish<A>,
    answer: Result<(), AbandonRefused>,
) -> Stage<A>
    ensures { result ≡ after_abandon held wish answer }
{
    match answer {
        Ok(()) => Stage::Reserving(held, wish),
        Err(AbandonRefused::Pending) => Stage::Abandoning(held, wish),
        Err(AbandonRefused::Programmed) => Stage::Committing(held, wish),
    }
}

/// What the request does behind its Release.
pub fn released<A: Allocator>(task: Task, held: PageClaim, fault: Option<BlockFault>) -> Stage<A>
    requires { IsRange task.range }
    ensures { result ≡ after_release task held fault }
{
    if let Some(fault) = fault {
        return Stage::Ended(Some(fault));
    }
    if held.page.0 < task.range.past_page() {
        from_page(task, held.page.0 + 1)
    } else {
        after_pages(task)
    }
}

/// What the request does behind its FlushBegin.
pub fn begun<A: Allocator>(answer: Result<Flush, FlushRefused>) -> Stage<A>
    ensures { result ≡ after_begin answer }
{
    match answer {
        Ok(flush) => Stage::Flushing(flush),
        Err(FlushRefused::Spent) => Stage::Ended(Some(BlockFault::Spent)),
    }
}

/// What the request does behind its FlushState.
pub fn flushed<A: Allocator>(asked: Flush, state: FlushState) -> Stage<A>
    ensures { result ≡ after_state asked state }
{
    match state {
        FlushState::Waiting => Stage::Flushing(asked),
        FlushState::Synced => Stage::Ended(None),
        FlushState::NoDie => Stage::Ended(Some(BlockFault::Lost)),
    }
}
