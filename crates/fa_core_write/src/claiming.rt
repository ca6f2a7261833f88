//! Claims of pages.
ghost use Rattle.std.specs.Prelude.{◌≡◌, true, false};
ghost use Rattle.std.specs.FinMap.{remove};
ghost use Rattle.fa_machine.specs.Conditions.{claim_open, is_reserved};
ghost use Rattle.fa_machine.specs.Step.{is_page};
ghost use Rattle.fa_machine.specs.Writing.{Claims};
ghost use Rattle.fa_core_state.specs.Core.{core_of};
ghost use Rattle.fa_core_state.specs.Fitted.{IsFitted};

use fa_core_state::State;
use fa_machine::{ClaimId, ClaimRefused};
use fa_map_calls::Map;
use fa_types::Page;
use std::alloc::Allocator;

/// The page is the caller's to write, until it releases the claim.
pub fn claim<M: Map, A: Allocator + Clone>(
    state: &mut State<M, A>,
    page: Page,
) -> Result<ClaimId, ClaimRefused>
    requires { is_page (core_of M.view state.old) page.0 ≡ true }
    ensures claims { Claims (core_of M.view state.old) page.0 result (core_of M.view state.new) }
    ensures fitted { IsFitted M.view state.old → IsFitted M.view state.new }
{
    if state.claims.is_claimed(page) {
        return Err(ClaimRefused::Claimed);
    }
    match state.claims.claim(page) {
        Ok(claim) => Ok(claim),
        Err(_) => Err(ClaimRefused::NoMemory),
    }
}

/// The page is given back. Nothing is reserved under the claim.
pub fn release<M: Map, A: Allocator + Clone>(state: &mut State<M, A>, claim: ClaimId)
    requires claimed { claim_open (core_of M.view state.old) claim.0 ≡ true }
    requires empty { is_reserved (core_of M.view state.old) claim.0 ≡ false }
    ensures released { core_of M.view state.new
        ≡ record (core_of M.view state.old) { claims = remove (core_of M.view state.old).claims claim.0 } }
    ensures fitted { IsFitted M.view state.old → IsFitted M.view state.new }
{
    state.claims.release(claim);
}
