//! The plan of a batch of reads.
ghost use Rattle.std.specs.Prelude.{◌≡◌, ℕ, ◌+◌, ◌-◌, ◌*◌, ◌<◌, ◌≤◌, ◌^◌, length, List, IfOk, OnOk};
ghost use Rattle.fa_batch_terms.specs.Batch.{IsSound};
ghost use Rattle.fa_batch_terms.specs.Certificate.{IsCertificate};
ghost use Rattle.fa_batch_terms.specs.Plan.{AreFirstRounds};
ghost use Rattle.std.specs.List.Sorted.{IsPermutation};
ghost use Rattle.fa_plan.specs.declared.layout.Seat.{Seat};
ghost use Rattle.fa_plan_search.specs.Pages.{pages_of};
ghost use Rattle.fa_plan.specs.Bound.{IsSimpleBound};
ghost use Rattle.fa_plan.specs.Layout.{AreRising};
ghost use Rattle.fa_plan.specs.Progress.{AreSeats, IsProgress, steps_left};

use crate::alone::plan_alone;
use crate::giving::give;
use crate::layout::{Seat, lay_out};
use crate::shortage::rounds_for;
use crate::workspace::Workspace;
use fa_batch::{Batch, Plan, Shortage};
use fa_cert_places::count_open;
use fa_plan_search::{Tables, Walk, all_pages, reached_pages};
use fa_types::{Die, Rounds};
use std::alloc::{AllocError, Allocator, Global};

/// A plan that no plan beats, with what shows it.
#[derive(Drop)]
pub struct Planned<A: Allocator = Global> {
    /// The number of rounds.
    pub rounds: u64,
    /// The plan, of so many rounds. The pages of one die take its first open rounds, by rising page.
    pub plan: Plan<A>,
    /// Pages that are too many for one round less; none where there is no page.
    pub shortage: Shortage<A>,
    /// How many times a die was searched for, for a page that had none.
    pub searches: u64,
    /// How many pages these searches reached.
    pub looks: u64,
}

/// A plan in the making.
#[derive(Drop)]
pub(crate) struct Progress<A: Allocator> {
    /// The dies that the first pages were given.
    pub(crate) given: Vec<Die, A>,
    /// What is counted by die.
    pub(crate) tables: Tables,
    /// What the last search reached.
    pub(crate) walk: Walk,
    /// A number of rounds that no plan goes below.
    pub(crate) rounds: u64,
    /// The pages that show that.
    pub(crate) short: Shortage<A>,
    pub(crate) searches: u64,
    pub(crate) looks: u64,
}

/// Plans a batch in the least number of rounds, by augmenting paths. It begins with the number of rounds
/// that the batch as a whole needs. Where no die can be found for a page, the pages that the search
/// reached are kept as the shortage, and the next number of rounds is the first that they leave. One page alone takes no search. Memory
/// comes from the workspace where it has some. The error is out of memory.
pub fn plan_in<R: Rounds, A: Allocator + Copy>(
    alloc: A,
    workspace: &mut Workspace<A>,
    batch: &Batch<A>,
    calendar: &R,
) -> Result<Planned<A>, AllocError>
    requires sound { IsSound batch.now }
    requires early { R.current calendar.now ≤ 2 ^ 56 - 2 ^ 24 }
    ensures certificate { IfOk result (λ planned. IsCertificate batch.now (R.current calendar.now) (R.closed calendar.now)
        planned.rounds planned.plan.places planned.shortage) }
    ensures rounds { IfOk result (λ planned. planned.plan.rounds ≡ planned.rounds) }
    ensures first { IfOk result (λ planned. AreFirstRounds (R.current calendar.now) (R.closed calendar.now) planned.plan.places) }
    ensures searches { IfOk result (λ planned. (first : ℕ) → IsSimpleBound batch.now (R.current calendar.now) (R.closed calendar.now) first
        → planned.searches + first ≤ length batch.now + planned.rounds) }
    ensures most { IfOk result (λ planned. planned.searches ≤ length batch.now + planned.rounds) }
    ensures counted { IfOk result (λ planned. length batch.now ≤ planned.searches) }
    ensures whole { IfOk result (λ planned. planned.searches ≡ length batch.now → planned.shortage ≡ pages_of batch.now) }
    ensures looks { IfOk result (λ planned. planned.looks ≤ planned.searches * length batch.now) }
{
    if batch.len() == 1 {
        return plan_alone(alloc, workspace, batch, calendar);
    }
    let mut progress = begin(alloc, workspace, batch, calendar)?;
    'pages: while progress.given.len() < batch.len() {
        step(alloc, batch, calendar, &mut progress)?;
    }
    finish(alloc, workspace, batch, calendar, progress)
}

/// Plans a batch as [`plan_in`] does, with no memory of an earlier plan.
pub fn plan<R: Rounds, A: Allocator + Copy>(
    alloc: A,
    batch: &Batch<A>,
    calendar: &R,
) -> Result<Planned<A>, AllocError>
    requires sound { IsSound batch.now }
    requires early { R.current calendar.now ≤ 2 ^ 56 - 2 ^ 24 }
    ensures certificate { IfOk result (λ planned. IsCertificate batch.now (R.current calendar.now) (R.closed calendar.now)
        planned.rounds planned.plan.places planned.shortage) }
    ensures rounds { IfOk result (λ planned. planned.plan.rounds ≡ planned.rounds) }
    ensures first { IfOk result (λ planned. AreFirstRounds (R.current calendar.now) (R.closed calendar.now) planned.plan.places) }
    ensures searches { IfOk result (λ planned. (first : ℕ) → IsSimpleBound batch.now (R.current calendar.now) (R.closed calendar.now) first
        → planned.searches + first ≤ length batch.now + planned.rounds) }
    ensures most { IfOk result (λ planned. planned.searches ≤ length batch.now + planned.rounds) }
    ensures counted { IfOk result (λ planned. length batch.now ≤ planned.searches) }
    ensures whole { IfOk result (λ planned. planned.searches ≡ length batch.now → planned.shortage ≡ pages_of batch.now) }
    ensures looks { IfOk result (λ planned. planned.looks ≤ planned.searches * length batch.now) }
{
    plan_in(alloc, &mut Workspace::new(alloc), batch, calendar)
}

/// A plan of no page yet, in the number of rounds that the batch as a whole needs.
fn begin<R: Rounds, A: Allocator + Copy>(
    alloc: A,
    workspace: &mut Workspace<A>,
    batch: &Batch<A>,
    calendar: &R,
) -> Result<Progress<A>, AllocError>
    requires sound { IsSound batch.now }
    requires early { R.current calendar.now ≤ 2 ^ 56 - 2 ^ 24 }
    ensures { IfOk result (λ progress. IsProgress batch.now (R.current calendar.now) (R.closed calendar.now) progress) }
{
    let short = all_pages(workspace.take_pages(alloc), batch)?;
    let mut rounds = 0;
    if 0 < batch.len() {
        rounds = rounds_for(batch, calendar, short.as_slice(), 0);
    }
    let given = workspace.take_dies(alloc, batch.len())?;
    let tables = Tables {
        loads: [0; 256],
        open_counts: count_open(calendar, rounds),
    };
    Ok(Progress {
        given,
        tables,
        walk: Walk::new(),
        rounds,
        short,
        searches: 0,
        looks: 0,
    })
}

/// Searches for a die for the first page that has none. Where there is one, the page has it; else there
/// are more rounds.
fn step<R: Rounds, A: Allocator + Copy>(
    alloc: A,
    batch: &Batch<A>,
    calendar: &R,
    progress: &mut Progress<A>,
) -> Result<(), AllocError>
    requires sound { IsSound batch.now }
    requires early { R.current calendar.now ≤ 2 ^ 56 - 2 ^ 24 }
    requires progress { IsProgress batch.now (R.current calendar.now) (R.closed calendar.now) progress.old }
    requires next { length progress.old.given.items < length batch.now }
    ensures progress { OnOk result (IsProgress batch.now (R.current calendar.now) (R.closed calendar.now) progress.new) }
    ensures nearer { OnOk result (steps_left batch.now progress.new < steps_left batch.now progress.old) }
{
    let is_given = give(
        &mut progress.walk,
        batch,
        &mut progress.given,
        &mut progress.tables,
    )?;
    progress.searches += 1;
    progress.looks += progress.walk.looks;
    if !is_given {
        let pages = reached_pages(alloc, batch, progress.given.as_slice(), &progress.walk)?;
        progress.rounds = rounds_for(batch, calendar, pages.as_slice(), progress.rounds);
        progress.tables.open_counts = count_open(calendar, progress.rounds);
        progress.short = pages;
    }
    Ok(())
}

/// The plan whose pages all have dies.
fn finish<R: Rounds, A: Allocator + Copy>(
    alloc: A,
    workspace: &mut Workspace<A>,
    batch: &Batch<A>,
    calendar: &R,
    progress: Progress<A>,
) -> Result<Planned<A>, AllocError>
    requires sound { IsSound batch.now }
    requires early { R.current calendar.now ≤ 2 ^ 56 - 2 ^ 24 }
    requires progress { IsProgress batch.now (R.current calendar.now) (R.closed calendar.now) progress }
    requires done { length batch.now ≤ length progress.given.items }
    ensures certificate { IfOk result (λ planned. IsCertificate batch.now (R.current calendar.now) (R.closed calendar.now)
        planned.rounds planned.plan.places planned.shortage) }
    ensures first { IfOk result (λ planned. AreFirstRounds (R.current calendar.now) (R.closed calendar.now) planned.plan.places) }
    ensures rounds { IfOk result (λ planned. planned.rounds ≡ progress.rounds) }
    ensures plan { IfOk result (λ planned. planned.plan.rounds ≡ progress.rounds) }
    ensures shortage { IfOk result (λ planned. planned.shortage ≡ progress.short) }
    ensures searches { IfOk result (λ planned. planned.searches ≡ progress.searches) }
    ensures looks { IfOk result (λ planned. planned.looks ≡ progress.looks) }
{
    let seats = seats_of(alloc, workspace, batch, progress.given.as_slice())?;
    let places = lay_out(workspace.take_places(alloc), calendar, seats.as_slice())?;
    workspace.keep_lists(progress.given, seats);
    Ok(Planned {
        rounds: progress.rounds,
        plan: Plan {
            rounds: progress.rounds,
            places,
        },
        shortage: progress.short,
        searches: progress.searches,
        looks: progress.looks,
    })
}

/// The pages with their dies, by rising page.
fn seats_of<A: Allocator + Copy>(
    alloc: A,
    workspace: &mut Workspace<A>,
    batch: &Batch<A>,
    given: &[Die],
) -> Result<Vec<Seat, A>, AllocError>
    requires sound { IsSound batch.now }
    requires all { length given.now ≡ length batch.now }
    ensures rising { IfOk result (λ seats. AreRising seats.items) }
    ensures same { IfOk result (λ seats. (listed : List Seat) × AreSeats batch.now given.now listed × IsPermutation listed seats.items) }
{
    let mut seats = list_seats(alloc, workspace, batch, given)?;
    seats.sort_unstable_by_key(|seat| seat.page.0);
    Ok(seats)
}

/// The pages with their dies, in the order of the batch.
fn list_seats<A: Allocator + Copy>(
    alloc: A,
    workspace: &mut Workspace<A>,
    batch: &Batch<A>,
    given: &[Die],
) -> Result<Vec<Seat, A>, AllocError>
    requires { length given.now ≡ length batch.now }
    ensures { IfOk result (λ seats. AreSeats batch.now given.now seats.items) }
{
    let mut seats = workspace.take_seats(alloc, given.len())?;
    for (index, die) in given.iter().enumerate() {
        seats.push(Seat {
            page: batch.page(index),
            die: *die,
        })?;
    }
    Ok(seats)
}
