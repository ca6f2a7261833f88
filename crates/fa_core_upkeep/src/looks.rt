//! What may be asked of the array.
ghost use Rattle.std.specs.Prelude.{◌≡◌};
ghost use Rattle.fa_machine.specs.Conditions.{batch_open as rule_batch, claim_open as rule_claim, copy_open as rule_copy};
ghost use Rattle.fa_machine.specs.Conditions.{is_reserved as rule_reserved};
ghost use Rattle.fa_machine.specs.Looks.{is_busy as rule_busy, job_kind as rule_job, kind_of as rule_kind};
ghost use Rattle.fa_core_state.specs.Core.{core_of};

use fa_core_state::State;
use fa_machine::{BatchId, ClaimId, Flight, JobKind};
use fa_map_calls::Map;
use fa_types::Die;
use std::alloc::Allocator;

/// Whether the claim is open.
pub fn claim_open<M: Map, A: Allocator + Clone>(state: &State<M, A>, claim: ClaimId) -> bool
    ensures { result ≡ rule_claim (core_of M.view state.now) claim.0 }
{
    state.claims.is_open(claim)
}

/// Whether something is reserved under the claim.
pub fn is_reserved<M: Map, A: Allocator + Clone>(state: &State<M, A>, claim: ClaimId) -> bool
    ensures { result ≡ rule_reserved (core_of M.view state.now) claim.0 }
{
    state.claims.reserved(claim).is_some()
}

/// Whether the batch is open.
pub fn batch_open<M: Map, A: Allocator + Clone>(state: &State<M, A>, batch: BatchId) -> bool
    ensures { result ≡ rule_batch (core_of M.view state.now) batch.0 }
{
    state.batches.is_open(batch)
}

/// Whether a copy is under way.
pub fn copy_open<M: Map, A: Allocator + Clone>(state: &State<M, A>) -> bool
    ensures { result ≡ rule_copy (core_of M.view state.now) }
{
    state.copying.is_some()
}

/// Whether a job, a claim, a batch or a copy is open.
pub fn is_busy<M: Map, A: Allocator + Clone>(state: &State<M, A>) -> bool
    ensures { result ≡ rule_busy (core_of M.view state.now) }
{
    state.jobs.len() > 0
        || !state.claims.is_empty()
        || !state.batches.is_empty()
        || state.copying.is_some()
}

/// The kind of the job that the die is at.
pub fn job_kind<M: Map, A: Allocator + Clone>(state: &State<M, A>, die: Die) -> Option<JobKind>
    ensures { result ≡ rule_job (core_of M.view state.now) die.0 }
{
    match state.jobs.get(die) {
        Some(job) => Some(kind_of(job)),
        None => None,
    }
}

/// The kind of a job.
fn kind_of(job: Flight) -> JobKind
    ensures { result ≡ rule_kind job }
{
    match job {
        Flight::Header { .. } => JobKind::Header,
        Flight::Move { .. } => JobKind::Move,
        Flight::Erase { .. } => JobKind::Erase,
        Flight::Read { .. } => JobKind::Read,
        Flight::Program { .. } => JobKind::Program,
        Flight::Sync { .. } => JobKind::Sync,
    }
}
