//! A plan as it is noted while nothing may change.
ghost use Rattle.std.specs.Prelude.{◌≡◌, map, length, IfOk, IfSome, OnOk};
ghost use Rattle.fa_plan.specs.Notes.{IsAccepted, batch_of, place_from, places_of, rounds_of, shortage_of, told_from};

use crate::closings::closings;
use crate::entry::PlanEntry;
use crate::planner::Planned;
use fa_batch::{Batch, Places, Plan, Shortage};
use fa_batch_terms::Place;
use fa_cert::{Verdict, check};
use fa_closed::{Closed, Run, end_soon};
use fa_types::{Page, Round, Rounds};
use std::alloc::{AllocError, Allocator, Global};

/// A plan with its batch and what shows that it is least, in rounds of its own: the round in which it was made is told as 1. Nothing of it
/// is checked yet.
#[derive(Drop)]
pub struct PlanNote<A: Allocator = Global> {
    batch: Batch<A>,
    runs: Vec<Run, A>,
    plan: Plan<A>,
    shortage: Shortage<A>,
}

impl<A: Allocator + Copy> PlanNote<A> {
    /// A plan of no pages, which has no memory yet.
    pub fn new(alloc: A) -> PlanNote<A> {
        PlanNote {
            batch: Batch::new(alloc),
            runs: Vec::new(alloc),
            plan: Plan {
                rounds: 0,
                places: Places::new(alloc),
            },
            shortage: Shortage::new(alloc),
        }
    }

    /// The plan that was just made of this batch comes in the place of the one that stood here, in its memory: over a calendar of so many
    /// dies in which none of it is booked yet. The error is out of memory.
    pub fn set<R: Rounds>(
        &mut self,
        batch: &Batch<A>,
        calendar: &R,
        dies: u8,
        planned: &Planned<A>,
    ) -> Result<(), AllocError>
        ensures batch { OnOk result (batch_of self.new ≡ batch.now) }
        ensures rounds { OnOk result (rounds_of self.new ≡ planned.now.rounds) }
        ensures places { OnOk result (places_of self.new ≡ map (place_from (R.current calendar.now)) planned.now.plan.places) }
        ensures shortage { OnOk result (shortage_of self.new ≡ planned.now.shortage) }
    {
        copy_pages(&mut self.batch, batch)?;
        closings(&mut self.runs, calendar, dies, planned.rounds)?;
        self.plan.rounds = planned.rounds;
        let now = calendar.now().0;
        copy_places(&mut self.plan.places, now, planned.plan.places.as_slice())?;
        copy_shortage(&mut self.shortage, planned.shortage.as_slice())
    }

    /// How many pages it has.
    pub fn pages(&self) -> usize
        ensures { result ≡ length (batch_of self.now) }
    {
        self.batch.len()
    }

    /// The plan with what shows that it is least, as [`check`] accepts it. None where it does not. The error is out of memory.
    pub fn checked(self, alloc: A) -> Result<Option<PlanEntry<A>>, AllocError>
        ensures accepted { IfOk result (λ found. IfSome found IsAccepted) }
        ensures same { IfOk result (λ found. IfSome found (λ entry. (entry.batch ≡ batch_of self)
            × (entry.plan.places ≡ places_of self) × (entry.plan.rounds ≡ rounds_of self) × (entry.shortage ≡ shortage_of self))) }
    {
        let PlanNote {
            batch,
            runs,
            plan,
            shortage,
        } = self;
        if !batch.is_sound() || !end_soon(Round(1), runs.as_slice()) {
            return Ok(None);
        }
        let calendar = Closed::new(alloc, Round(1), Vec::from_slice(alloc, runs.as_slice())?)?;
        match check(alloc, &batch, &calendar, &plan, &shortage)? {
            Verdict::Least(_) => Ok(Some(PlanEntry {
                batch,
                runs,
                calendar,
                plan,
                shortage,
            })),
            Verdict::Refused(_) => Ok(None),
        }
    }
}

impl<A: Allocator> PlanEntry<A> {
    /// Its memory, for a plan to come.
    pub fn into_note(self) -> PlanNote<A> {
        let PlanEntry {
            batch,
            runs,
            plan,
            shortage,
            ..
        } = self;
        PlanNote {
            batch,
            runs,
            plan,
            shortage,
        }
    }
}

/// The same batch comes in the place of another one. The error is out of memory.
fn copy_pages<A: Allocator + Copy>(copy: &mut Batch<A>, batch: &Batch<A>) -> Result<(), AllocError>
    ensures { OnOk result (copy.new ≡ batch.now) }
{
    copy.clear();
    'pages: for index in 0..batch.len() {
        copy.push(batch.page(index), batch.holders_at(index))?;
    }
    Ok(())
}

/// A round, where this one is told as 1.
fn round_from(now: u64, round: Round) -> Round
    ensures { result.0 ≡ told_from now round.0 }
{
    Round(round.0.saturating_sub(now).saturating_add(1))
}

/// These places, with this round told as 1, come in the place of others. The error is out of memory.
fn copy_places<A: Allocator>(
    told: &mut Places<A>,
    now: u64,
    places: &[Place],
) -> Result<(), AllocError>
    ensures { OnOk result (told.new ≡ map (place_from now) places.now) }
{
    told.clear();
    for place in places {
        told.push(Place {
            page: place.page,
            die: place.die,
            round: round_from(now, place.round),
        })?;
    }
    Ok(())
}

/// These pages come in the place of others. The error is out of memory.
fn copy_shortage<A: Allocator>(copy: &mut Shortage<A>, pages: &[Page]) -> Result<(), AllocError>
    ensures { OnOk result (copy.new ≡ pages.now) }
{
    copy.clear();
    for page in pages {
        copy.push(*page)?;
    }
    Ok(())
}
