//! The claims that are open.
ghost use Rattle.std.specs.Prelude.{◌≡◌, ℕ, ◌==◌, ◌↔◌, true, false, IsTrue, if◌then◌else◌, None, option_map, option_and_then, unwrap_or};
ghost use Rattle.std.specs.Prelude.{IfOk, OnOk, OnErr};
ghost use Rattle.std.specs.FinMap.{contains_key, empty, get, insert, remove, values, len};
ghost use Rattle.std.specs.List.{list_any};
ghost use Rattle.fa_machine.specs.Maps.{change};
ghost use Rattle.fa_machine.specs.Taking.{mark_claim};

use crate::targets::Reservation;
use fa_machine::ClaimId;
use fa_types::{Die, Page, Slot};
use std::alloc::{AllocError, Allocator, Global};
use std::collections::HashMap;
use std::hash::{BuildHasherDefault, FoldHasher};

/// The claims that are open, each with what is reserved under it. A claim's number is its page's, so a page has one claim at most.
/// A claim is found with one look into a table, as a rule. The table keeps its memory when claims end.
#[derive(Drop)]
pub struct Claims<A: Allocator = Global> {
    reservations: HashMap<u64, Option<Reservation>, BuildHasherDefault<FoldHasher>, A>,
}

impl<A: Allocator + Clone> Claims<A> {
    ghost use Rattle.fa_core_tables.specs.Claims.{claims_of, reservation_of};

    /// No claims.
    pub fn new(alloc: A) -> Claims<A>
        ensures { claims_of result ≡ empty }
    {
        Claims {
            reservations: HashMap::new(alloc),
        }
    }

    /// Whether none is open.
    pub fn is_empty(&self) -> bool
        ensures { IsTrue result ↔ (len (claims_of self.now) ≡ 0) }
    {
        self.reservations.is_empty()
    }

    /// Whether the claim is open.
    pub fn is_open(&self, claim: ClaimId) -> bool
        ensures { result ≡ contains_key (claims_of self.now) claim.0 }
    {
        self.reservations.contains_key(&claim.0)
    }

    /// Whether the page is claimed.
    pub fn is_claimed(&self, page: Page) -> bool
        ensures claimed { result ≡ list_any (λ c. c.page == page.0) (values (claims_of self.now)) }
        ensures number { result ≡ contains_key (claims_of self.now) page.0 }
    {
        self.reservations.contains_key(&page.0)
    }

    /// The page of an open claim.
    pub fn page_of(&self, claim: ClaimId) -> Page
        requires { contains_key (claims_of self.now) claim.0 ≡ true }
        ensures page { result.0 ≡ unwrap_or (option_map (λ c. c.page) (get (claims_of self.now) claim.0)) 0 }
        ensures number { result.0 ≡ claim.0 }
    {
        Page(claim.0)
    }

    /// The page is claimed from now on. The error is out of memory, and changes nothing.
    pub fn claim(&mut self, page: Page) -> Result<ClaimId, AllocError>
        requires { contains_key (claims_of self.old) page.0 ≡ false }
        ensures number { IfOk result (λ claim. claim.0 ≡ page.0) }
        ensures claimed { OnOk result (claims_of self.new
            ≡ insert (claims_of self.old) page.0 (record { page = page.0; reserved = None })) }
        ensures refused { OnErr result (claims_of self.new ≡ claims_of self.old) }
    {
        match self.reservations.insert(page.0, None) {
            Ok(_) => Ok(ClaimId(page.0)),
            Err(_) => Err(AllocError),
        }
    }

    /// The claim is open no more.
    pub fn release(&mut self, claim: ClaimId)
        ensures { claims_of self.new ≡ remove (claims_of self.old) claim.0 }
    {
        self.reservations.remove(&claim.0);
    }

    /// What is reserved under the claim.
    pub fn reserved(&self, claim: ClaimId) -> Option<Reservation>
        ensures { option_map reservation_of result ≡ option_and_then (λ c. c.reserved) (get (claims_of self.now) claim.0) }
    {
        match self.reservations.get(&claim.0) {
            Some(reserved) => *reserved,
            None => None,
        }
    }

    /// This is reserved under the open claim from now on.
    pub fn set_reserved(&mut self, claim: ClaimId, reserved: Option<Reservation>)
        requires { contains_key (claims_of self.old) claim.0 ≡ true }
        ensures reserved { claims_of self.new
            ≡ insert (claims_of self.old) claim.0 (record { page = claim.0; reserved = option_map reservation_of reserved }) }
        ensures page { unwrap_or (option_map (λ c. c.page) (get (claims_of self.old) claim.0)) 0 ≡ claim.0 }
    {
        match self.reservations.insert(claim.0, reserved) {
            Ok(_) => {}
            Err(_) => {}
        }
    }

    /// The copy of the page in this slot was programmed, if the slot is reserved for it.
    pub fn mark(&mut self, page: Page, die: Die, slot: Slot)
        ensures { claims_of self.new ≡ change (λ id c. if c.page == page.0 then mark_claim die.0 slot.0 c else c) (claims_of self.old) }
    {
        let claim = ClaimId(page.0);
        match self.reserved(claim) {
            None => {}
            Some(mut reserved) => {
                reserved.targets.mark(die, slot);
                self.set_reserved(claim, Some(reserved));
            }
        }
    }
}
