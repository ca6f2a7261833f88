//! The plan of a batch of one page, which takes no table of dies: a READ of one page is planned so.
ghost use Rattle.std.specs.Prelude.{◌≡◌, ℕ, ◌+◌, ◌*◌, ◌-◌, ◌<◌, ◌≤◌, ◌^◌, length, IfOk};
ghost use Rattle.fa_batch_terms.specs.Batch.{IsSound};
ghost use Rattle.fa_batch_terms.specs.Certificate.{IsCertificate};
ghost use Rattle.fa_batch_terms.specs.Plan.{AreFirstRounds};
ghost use Rattle.fa_plan_search.specs.Pages.{pages_of};
ghost use Rattle.fa_plan.specs.Alone.{IsOpenFirst};
ghost use Rattle.fa_plan.specs.Bound.{IsSimpleBound};

use crate::planner::Planned;
use crate::workspace::Workspace;
use fa_batch::{Batch, Plan};
use fa_batch_terms::Place;
use fa_plan_search::all_pages;
use fa_types::{Die, Round, Rounds};
use std::alloc::{AllocError, Allocator};

/// Plans a batch of one page: it is read in the first round in which a die that holds it is open, and is itself the shortage for fewer
/// rounds. The error is out of memory.
pub(crate) fn plan_alone<R: Rounds, A: Allocator + Copy>(
    alloc: A,
    workspace: &mut Workspace<A>,
    batch: &Batch<A>,
    calendar: &R,
) -> Result<Planned<A>, AllocError>
    requires sound { IsSound batch.now }
    requires alone { length batch.now ≡ 1 }
    requires early { R.current calendar.now ≤ 2 ^ 56 - 2 ^ 24 }
    ensures certificate { IfOk result (λ planned. IsCertificate batch.now (R.current calendar.now) (R.closed calendar.now)
        planned.rounds planned.plan.places planned.shortage) }
    ensures rounds { IfOk result (λ planned. planned.plan.rounds ≡ planned.rounds) }
    ensures first { IfOk result (λ planned. AreFirstRounds (R.current calendar.now) (R.closed calendar.now) planned.plan.places) }
    ensures searches { IfOk result (λ planned. (first : ℕ) → IsSimpleBound batch.now (R.current calendar.now) (R.closed calendar.now) first
        → planned.searches + first ≤ length batch.now + planned.rounds) }
    ensures most { IfOk result (λ planned. planned.searches ≤ length batch.now + planned.rounds) }
    ensures counted { IfOk result (λ planned. length batch.now ≤ planned.searches) }
    ensures whole { IfOk result (λ planned. planned.searches ≡ length batch.now → planned.shortage ≡ pages_of batch.now) }
    ensures looks { IfOk result (λ planned. planned.looks ≤ planned.searches * length batch.now) }
{
    let (die, round) = first_open(batch.holders_at(0), calendar);
    let shortage = all_pages(workspace.take_pages(alloc), batch)?;
    let mut places = workspace.take_places(alloc);
    places.push(Place {
        page: batch.page(0),
        die,
        round,
    })?;
    let rounds = round.0 - calendar.now().0 + 1;
    Ok(Planned {
        rounds,
        plan: Plan { rounds, places },
        shortage,
        searches: 1,
        looks: 1,
    })
}

/// The die that is open first, of some, and in which round; the first of those that are open as soon.
fn first_open<R: Rounds>(dies: &[Die], calendar: &R) -> (Die, Round)
    requires some { 0 < length dies.now }
    requires early { R.current calendar.now ≤ 2 ^ 56 }
    ensures { IsOpenFirst (R.current calendar.now) (R.closed calendar.now) dies.now result.0.0 result.1.0 }
{
    let mut die = dies[0];
    let mut round = calendar.nth_open(die, 1);
    'dies: for i in 1..dies.len() {
        let other = calendar.nth_open(dies[i], 1);
        if other.0 < round.0 {
            die = dies[i];
            round = other;
        }
    }
    (die, round)
}
