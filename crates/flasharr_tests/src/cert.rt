//! A certificate that no text comes to.
use fa_batch::{Batch, Places, Plan, Shortage};
use fa_batch_terms::Place;
use fa_cert::{Refusal, Verdict, check};
use fa_closed::{Closed, end_soon};
use fa_types::{Die, Page, Round};
use std::alloc::{AllocError, Global};
use std::test::Fail;

/// Two pages that die 0 alone holds.
fn two_pages(alloc: Global) -> Result<Batch, Fail> {
    let mut batch = Batch::new(alloc);
    for page in 1..3u64 {
        batch.push(Page(page), &[Die(0)])?;
    }
    Ok(batch)
}

/// Their plan of two rounds.
fn two_rounds(alloc: Global) -> Result<Plan, AllocError> {
    let mut places = Places::new(alloc);
    for number in 1..3u64 {
        places.push(Place {
            page: Page(number),
            die: Die(0),
            round: Round(number),
        })?;
    }
    Ok(Plan { rounds: 2, places })
}

/// A shortage that names the first page twice, and not the second.
fn one_page_twice(alloc: Global) -> Result<Shortage, AllocError> {
    let mut shortage = Shortage::new(alloc);
    for page in [1, 1] {
        shortage.push(Page(page))?;
    }
    Ok(shortage)
}

/// The check's verdict, where no round is closed. The batch has to be sound.
fn verdict_on(
    alloc: Global,
    batch: &Batch,
    plan: &Plan,
    shortage: &Shortage,
) -> Result<Option<Verdict>, AllocError> {
    let runs = Vec::new(alloc);
    if !batch.is_sound() || !end_soon(Round(1), &runs) {
        return Ok(None);
    }
    let closed = Closed::new(alloc, Round(1), runs)?;
    Ok(Some(check(alloc, batch, &closed, plan, shortage)?))
}

// A text names each page of a shortage once; a caller may name one twice.
#[test]
fn a_page_that_a_shortage_names_twice(rt: HostRuntime) -> Result<(), Fail> {
    let batch = two_pages(rt.alloc())?;
    let plan = two_rounds(rt.alloc())?;
    let shortage = one_page_twice(rt.alloc())?;
    let verdict = verdict_on(rt.alloc(), &batch, &plan, &shortage)?;
    ensure!(verdict == Some(Verdict::Refused(Refusal::ShortagePage)));
    Ok(())
}
