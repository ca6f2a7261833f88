//! The printing of a batch text and of a logged plan, and which batches have a text.
ghost use Rattle.std.specs.Prelude.{◌≤◌, ◌↔◌, [], ◌∷◌, All, OnOk, IsTrue, map, string_bytes};
ghost use Rattle.std.specs.List.Sorted.{IsStrictlyIncreasing};
ghost use Rattle.fa_batch_terms.specs.Batch.{Entry};
ghost use Rattle.fa_texts.specs.BatchText.{HasBatchText, HasClosedLine, HasPageLine, batch_lines, closed_line, page_line};
ghost use Rattle.fa_texts.specs.LoggedPlan.{PrintsLoggedPlan};
ghost use Rattle.fa_texts.specs.Text.{PrintsLines};

use crate::batch_text::{MAX_CLOSED_ROUND, MAX_RUNS};
use crate::certificate_print::print_certificate;
use crate::line_print::{print_three, push_number};
use crate::words::{MAX_DIE, MAX_PAGE};
use fa_batch::{Batch, MAX_PAGES, Plan, Shortage};
use fa_closed::Run;
use fa_types::{Die, Page};
use std::alloc::{AllocError, Allocator};

/// Whether a batch with these runs of closed rounds has a text: at most 1,024 pages up to 1,048,575, with dies up
/// to 63 that rise, and at most 4,096 runs within the rounds 1 to 1,000,000, each with a round. Takes no memory.
pub fn has_batch_text<A: Allocator>(batch: &Batch<A>, closed: &[Run]) -> bool
    ensures { IsTrue result ↔ HasBatchText batch.now closed.now }
{
    batch.len() <= MAX_PAGES
        && closed.len() <= MAX_RUNS
        && have_page_lines(batch)
        && have_closed_lines(closed)
}

/// Adds the logged plan of a batch, as a file of plans has it: its text, with these runs of closed rounds from round 1 on, and
/// at once behind it the text of its plan and of the shortage that shows that no plan has fewer rounds. What has texts is
/// read back from it.
pub fn print_logged_plan<A: Allocator + Copy>(
    alloc: A,
    out: &mut String<A>,
    batch: &Batch<A>,
    closed: &[Run],
    plan: &Plan<A>,
    shortage: &Shortage<A>,
) -> Result<(), AllocError>
    ensures { OnOk result (PrintsLoggedPlan batch.now closed.now plan.now.rounds plan.now.places shortage.now
        (string_bytes out.old) (string_bytes out.new)) }
{
    print_batch(out, batch, closed)?;
    print_certificate(alloc, out, plan, shortage)?;
    Ok(())
}

/// Adds the text of a batch, with these runs of closed rounds.
pub fn print_batch<A: Allocator>(
    out: &mut String<A>,
    batch: &Batch<A>,
    closed: &[Run],
) -> Result<(), AllocError>
    ensures { OnOk result (PrintsLines (string_bytes out.old) (string_bytes out.new) (batch_lines batch.now closed.now)) }
{
    out.push_str("batch\n")?;
    print_pages(out, batch)?;
    print_runs(out, closed)?;
    out.push_str("end\n")?;
    Ok(())
}

/// Adds a line for each page of a batch.
fn print_pages<A: Allocator>(out: &mut String<A>, batch: &Batch<A>) -> Result<(), AllocError>
    ensures { OnOk result (PrintsLines (string_bytes out.old) (string_bytes out.new) (map page_line batch.now)) }
{
    for index in 0..batch.len() {
        print_page(out, batch.page(index), batch.holders_at(index))?;
    }
    Ok(())
}

/// Adds the line of a page with its holders.
fn print_page<A: Allocator>(
    out: &mut String<A>,
    page: Page,
    holders: &[Die],
) -> Result<(), AllocError>
    ensures { let entry : Entry = record { page = page; holders = holders.now } in
        OnOk result (PrintsLines (string_bytes out.old) (string_bytes out.new) (page_line entry ∷ [])) }
{
    out.push_str("page")?;
    push_number(out, page.0)?;
    out.push_str(" on")?;
    for die in holders {
        push_number(out, die.0.into())?;
    }
    out.push_str("\n")?;
    Ok(())
}

/// Adds a line for each run of closed rounds.
fn print_runs<A: Allocator>(out: &mut String<A>, closed: &[Run]) -> Result<(), AllocError>
    ensures { OnOk result (PrintsLines (string_bytes out.old) (string_bytes out.new) (map closed_line closed.now)) }
{
    for run in closed {
        print_run(out, run)?;
    }
    Ok(())
}

/// Adds the line of a run of closed rounds.
fn print_run<A: Allocator>(out: &mut String<A>, run: &Run) -> Result<(), AllocError>
    ensures { OnOk result (PrintsLines (string_bytes out.old) (string_bytes out.new) (closed_line run.now ∷ [])) }
{
    let die = run.die.0.into();
    print_three(out, "closed", die, run.first.0, run.last.0)?;
    Ok(())
}

/// Whether each page of a batch may have a line.
fn have_page_lines<A: Allocator>(batch: &Batch<A>) -> bool
    ensures { IsTrue result ↔ All HasPageLine batch.now }
{
    for index in 0..batch.len() {
        if !has_page_line(batch.page(index), batch.holders_at(index)) {
            return false;
        }
    }
    true
}

/// Whether a page with these holders may have a line.
fn has_page_line(page: Page, holders: &[Die]) -> bool
    ensures { IsTrue result ↔ HasPageLine (record { page = page; holders = holders.now }) }
{
    page.0 <= MAX_PAGE && are_low(holders) && are_rising(holders)
}

/// Whether each die may stand in a text.
fn are_low(dies: &[Die]) -> bool
    ensures { IsTrue result ↔ All (λ d. d.0 ≤ 63) dies.now }
{
    dies.iter().all(|die| u64::from(die.0) <= MAX_DIE)
}

/// Whether each die is below the next.
fn are_rising(dies: &[Die]) -> bool
    ensures { IsTrue result ↔ IsStrictlyIncreasing (map (λ d. d.0) dies.now) }
{
    for index in 1..dies.len() {
        if dies[index].0 <= dies[index - 1].0 {
            return false;
        }
    }
    true
}

/// Whether each of the runs may have a line.
fn have_closed_lines(closed: &[Run]) -> bool
    ensures { IsTrue result ↔ All HasClosedLine closed.now }
{
    closed.iter().all(|run| has_closed_line(run))
}

/// Whether a run may have a line.
fn has_closed_line(run: &Run) -> bool
    ensures { IsTrue result ↔ HasClosedLine run.now }
{
    u64::from(run.die.0) <= MAX_DIE
        && 1 <= run.first.0
        && run.first.0 <= run.last.0
        && run.last.0 <= MAX_CLOSED_ROUND
}
