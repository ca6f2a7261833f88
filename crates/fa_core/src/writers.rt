//! The calls of writers.
ghost use Rattle.std.specs.Prelude.{◌≡◌, min, true, false};
ghost use Rattle.fa_machine.specs.Conditions.{claim_open, history_full, is_reserved};
ghost use Rattle.fa_machine.specs.Step.{Claim, Release, Reserve, ReserveHole, ReserveFewer, Commit, Abandon, Step, is_page, is_sized};

use crate::array::Array;
use fa_laws::invariants::an_event_keeps;
use fa_machine::{AbandonRefused, ClaimId, ClaimRefused, CommitRefused, ReserveRefused};
use fa_map_calls::Map;
use fa_mirror::copies_asked;
use fa_tag::Payload;
use fa_types::{Kind, Page, Seq};
use std::alloc::Allocator;

impl<M: Map, A: Allocator + Clone> Array<M, A> {
    ghost use Rattle.fa_core.specs.Array.{IsWhole, number_of, state_of};

    /// The page is the caller's to write, until it releases the claim. Refused, nothing has changed.
    pub fn claim(&mut self, page: Page) -> Result<ClaimId, ClaimRefused>
        requires page { is_page (state_of M.view self.old) page.0 ≡ true }
        requires whole { IsWhole M.view self.old }
        ensures step { Step (state_of M.view self.old) (Claim page.0 result) (state_of M.view self.new) }
        ensures number { number_of self.new ≡ number_of self.old }
        ensures whole { IsWhole M.view self.new }
    {
        let answer = fa_core_write::claim(&mut self.state, page);
        an_event_keeps();
        answer
    }

    /// The page is given back. Nothing is reserved under the claim.
    pub fn release(&mut self, claim: ClaimId)
        requires claimed { claim_open (state_of M.view self.old) claim.0 ≡ true }
        requires empty { is_reserved (state_of M.view self.old) claim.0 ≡ false }
        requires whole { IsWhole M.view self.old }
        ensures step { Step (state_of M.view self.old) (Release claim.0) (state_of M.view self.new) }
        ensures number { number_of self.new ≡ number_of self.old }
        ensures whole { IsWhole M.view self.new }
    {
        fa_core_write::release(&mut self.state, claim);
        an_event_keeps();
    }

    /// The next sequence number and a slot on each die that the write goes to, with a program for each, which share the payload of a
    /// page's bytes. Refused, nothing has changed.
    pub fn reserve(&mut self, claim: ClaimId, payload: &Payload<A>) -> Result<Seq, ReserveRefused>
        requires claimed { claim_open (state_of M.view self.old) claim.0 ≡ true }
        requires empty { is_reserved (state_of M.view self.old) claim.0 ≡ false }
        requires sized { is_sized (state_of M.view self.old) payload.now ≡ true }
        requires whole { IsWhole M.view self.old }
        ensures step { Step (state_of M.view self.old) (Reserve claim.0 payload.now result) (state_of M.view self.new) }
        ensures number { number_of self.new ≡ number_of self.old }
        ensures whole { IsWhole M.view self.new }
    {
        let least = copies_asked(&self.state.page_map, self.state.copies);
        let answer = fa_core_write::reserve(&mut self.state, claim, least, Kind::Data, payload);
        an_event_keeps();
        answer
    }

    /// The same for a write that makes the page a hole.
    pub fn reserve_hole(&mut self, claim: ClaimId) -> Result<Seq, ReserveRefused>
        requires claimed { claim_open (state_of M.view self.old) claim.0 ≡ true }
        requires empty { is_reserved (state_of M.view self.old) claim.0 ≡ false }
        requires whole { IsWhole M.view self.old }
        ensures step { Step (state_of M.view self.old) (ReserveHole claim.0 result) (state_of M.view self.new) }
        ensures number { number_of self.new ≡ number_of self.old }
        ensures whole { IsWhole M.view self.new }
    {
        let least = copies_asked(&self.state.page_map, self.state.copies);
        let answer = fa_core_write::reserve(&mut self.state, claim, least, Kind::Hole, &self.zeros);
        an_event_keeps();
        answer
    }

    /// The same for a write that goes to as many dies as have room, where that is one at least.
    pub fn reserve_fewer(
        &mut self,
        claim: ClaimId,
        payload: &Payload<A>,
    ) -> Result<Seq, ReserveRefused>
        requires claimed { claim_open (state_of M.view self.old) claim.0 ≡ true }
        requires empty { is_reserved (state_of M.view self.old) claim.0 ≡ false }
        requires sized { is_sized (state_of M.view self.old) payload.now ≡ true }
        requires whole { IsWhole M.view self.old }
        ensures step { Step (state_of M.view self.old) (ReserveFewer claim.0 payload.now result)
            (state_of M.view self.new) }
        ensures number { number_of self.new ≡ number_of self.old }
        ensures whole { IsWhole M.view self.new }
    {
        let least = one_of(copies_asked(&self.state.page_map, self.state.copies));
        let answer = fa_core_write::reserve(&mut self.state, claim, least, Kind::Data, payload);
        an_event_keeps();
        answer
    }

    /// What is reserved under the claim becomes the page's last write, by the seat. Refused, nothing has changed.
    pub fn commit(&mut self, claim: ClaimId, seat: u32) -> Result<Seq, CommitRefused>
        requires reserved { is_reserved (state_of M.view self.old) claim.0 ≡ true }
        requires room { history_full (state_of M.view self.old) ≡ false }
        requires whole { IsWhole M.view self.old }
        ensures step { Step (state_of M.view self.old) (Commit claim.0 seat result) (state_of M.view self.new) }
        ensures number { number_of self.new ≡ number_of self.old }
        ensures whole { IsWhole M.view self.new }
    {
        let answer = fa_core_write::commit(&mut self.state, claim, seat);
        an_event_keeps();
        answer
    }

    /// What is reserved under the claim is given up. Refused, nothing has changed.
    pub fn abandon(&mut self, claim: ClaimId) -> Result<(), AbandonRefused>
        requires reserved { is_reserved (state_of M.view self.old) claim.0 ≡ true }
        requires whole { IsWhole M.view self.old }
        ensures step { Step (state_of M.view self.old) (Abandon claim.0 result) (state_of M.view self.new) }
        ensures number { number_of self.new ≡ number_of self.old }
        ensures whole { IsWhole M.view self.new }
    {
        let answer = fa_core_write::abandon(&mut self.state, claim);
        an_event_keeps();
        answer
    }
}

/// One of the slots that are asked for, where any is.
fn one_of(asked: u32) -> u32
    ensures { result ≡ min 1 asked }
{
    1.min(asked)
}
