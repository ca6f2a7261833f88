//! The check of a certificate.
ghost use Rattle.std.specs.Prelude.{◌≡◌, ℕ, ◌+◌, ◌<◌, ◌≤◌, ◌↔◌, ◌==◌, ◌||◌, ◌^◌, Bool, false, List, IsNone, length, All};
ghost use Rattle.std.specs.Prelude.{IsTrue, IfOk, MatchOption, max, slice_index_or};
ghost use Rattle.std.specs.List.{fold, list_any};
ghost use Rattle.std.specs.Ordering.{nat_cmp};
ghost use Rattle.std.specs.BTreeSet.{contains};
ghost use Rattle.fa_types.specs.declared.numbers.Page.{Page};
ghost use Rattle.fa_batch_terms.specs.Batch.{IsSound, holds, is_among, times_named};
ghost use Rattle.fa_batch_terms.specs.Certificate.{IsCertificate, AreNamed, ShowsNoFewer, holds_any};
ghost use Rattle.fa_cert.specs.Marks.{AreHoldersMarked, AreMarks};
ghost use Rattle.fa_batch_terms.specs.Plan.{IsPlan, ArePlaced, ArePlacedOnce, AreHeld, AreOpen, AreApart, rounds_of};
ghost use Rattle.fa_cert.specs.Verdict.{IsVerdict, IsRefused};

use crate::verdict::{Refusal, Verdict};
use fa_batch::{Batch, MAX_PAGES, Plan, Shortage};
use fa_batch_terms::Place;
use fa_cert_places::are_more;
use fa_types::{Die, Page, Round, Rounds};
use std::alloc::{AllocError, Allocator};
use std::collections::BTreeSet;

/// What is seen of the pages of places, one after the other.
#[derive(Drop)]
struct Seen {
    // Whether an entry of the batch has a place, by its index.
    placed: [bool; MAX_PAGES],
    // Whether each page is in the batch and comes once.
    once: bool,
    // Whether each die holds its page.
    held: bool,
}

/// Whether the plan is one for the batch, of the rounds that it claims, and the pages of the shortage
/// show that no plan has fewer. Else the first refusal that applies. It trusts nothing but the batch
/// and the rounds. Memory is taken for one set of the plan's places at a time, and for none where each page
/// of the batch has one place and the rounds of each die rise from place to place.
pub fn check<R: Rounds, A: Allocator + Copy>(
    alloc: A,
    batch: &Batch<A>,
    calendar: &R,
    plan: &Plan<A>,
    shortage: &Shortage<A>,
) -> Result<Verdict, AllocError>
    requires { IsSound batch.now }
    ensures verdict { IfOk result (λ verdict. IsVerdict batch.now (R.current calendar.now) (R.closed calendar.now)
        plan.now.rounds plan.now.places shortage.now verdict) }
    ensures least { IfOk result (λ verdict. (verdict ≡ Verdict.Least plan.now.rounds) ↔
        IsCertificate batch.now (R.current calendar.now) (R.closed calendar.now) plan.now.rounds plan.now.places shortage.now) }
{
    let pages = shortage.as_slice();
    let places = plan.places.as_slice();
    if let Some(refusal) = refusal_of(alloc, batch, calendar, plan.rounds, places)? {
        return Ok(Verdict::Refused(refusal));
    }
    if let Some(refusal) = refusal_of_shortage(batch, calendar, plan.rounds, pages) {
        return Ok(Verdict::Refused(refusal));
    }
    Ok(Verdict::Least(plan.rounds))
}

/// The first thing that is wrong with the places of a plan and the rounds that it claims.
fn refusal_of<R: Rounds, A: Allocator + Copy>(
    alloc: A,
    batch: &Batch<A>,
    calendar: &R,
    rounds: u64,
    places: &[Place],
) -> Result<Option<Refusal>, AllocError>
    requires { IsSound batch.now }
    ensures found { IfOk result (λ refusal. MatchOption refusal
        (IsPlan batch.now (R.current calendar.now) (R.closed calendar.now) places.now
        × (rounds_of (R.current calendar.now) places.now ≡ rounds))
        (λ r. (pages : List Page) → IsRefused batch.now (R.current calendar.now) (R.closed calendar.now) rounds places.now pages r)) }
    ensures fits { IfOk result (λ refusal. IsNone refusal → 0 < rounds → R.current calendar.now + rounds ≤ 2 ^ 64) }
{
    if let Some(refusal) = refusal_of_pages(alloc, batch, places)? {
        return Ok(Some(refusal));
    }
    if !are_open(calendar, places) {
        return Ok(Some(Refusal::RoundClosed));
    }
    if !are_apart(alloc, places)? {
        return Ok(Some(Refusal::PlaceTwice));
    }
    if !take_rounds(places, calendar.now(), rounds) {
        return Ok(Some(Refusal::LastRound));
    }
    Ok(None)
}

/// What is wrong with the pages that have places, and with the dies that read them: a page of the batch has
/// none, or one has two, or one is read from a die that does not hold it.
fn refusal_of_pages<A: Allocator + Copy>(
    alloc: A,
    batch: &Batch<A>,
    places: &[Place],
) -> Result<Option<Refusal>, AllocError>
    requires { IsSound batch.now }
    ensures { IfOk result (λ refusal. MatchOption refusal
        (ArePlaced batch.now places.now × ArePlacedOnce places.now × AreHeld batch.now places.now)
        (λ r. (current rounds : ℕ) (closed : ℕ → ℕ → Bool) (pages : List Page)
        → IsRefused batch.now current closed rounds places.now pages r)) }
{
    let seen = see_pages(batch, places);
    if !are_all_marked(&seen.placed[..batch.len()]) {
        return Ok(Some(Refusal::PageMissing));
    }
    if !seen.once && !come_once(alloc, places)? {
        return Ok(Some(Refusal::PageTwice));
    }
    if !seen.held {
        return Ok(Some(Refusal::NotAHolder));
    }
    Ok(None)
}

/// Looks at each place once, at its page in the batch.
fn see_pages<A: Allocator>(batch: &Batch<A>, places: &[Place]) -> Seen
    requires { IsSound batch.now }
    ensures long { length result.placed ≡ 1024 }
    ensures placed { AreMarks batch.now (λ page. list_any (λ x. x.page.0 == page) places.now) result.placed }
    ensures once { IsTrue result.once → ArePlacedOnce places.now }
    ensures held { IsTrue result.held ↔ AreHeld batch.now places.now }
{
    let mut placed = [false; MAX_PAGES];
    let mut once = true;
    let mut held = true;
    for (index, place) in places.iter().enumerate() {
        // Where the plan has the batch's order, the page stands at the same index.
        match batch.index_of(place.page, index) {
            Some(entry) => {
                once &= !placed[entry];
                placed[entry] = true;
                held &= batch.holds_at(entry, place.die);
            }
            None => {
                once = false;
                held = false;
            }
        }
    }
    Seen { placed, once, held }
}

/// Whether each of the marks is set.
fn are_all_marked(marks: &[bool]) -> bool
    ensures { IsTrue result ↔ All (λ mark. IsTrue mark) marks.now }
{
    marks.iter().all(|mark| *mark)
}

/// Whether no page has two of the places.
fn come_once<A: Allocator + Copy>(alloc: A, places: &[Place]) -> Result<bool, AllocError>
    ensures { IfOk result (λ once. IsTrue once ↔ ArePlacedOnce places.now) }
{
    let mut pages = BTreeSet::new(alloc);
    for place in places {
        if !pages.insert(place.page.0)? {
            return Ok(false);
        }
    }
    Ok(true)
}

/// Whether each place is open.
fn are_open<R: Rounds>(calendar: &R, places: &[Place]) -> bool
    ensures { IsTrue result ↔ AreOpen (R.current calendar.now) (R.closed calendar.now) places.now }
{
    places.iter().all(|x| calendar.is_open(x.die, x.round))
}

/// Whether no two of the places are at one die in one round.
fn are_apart<A: Allocator + Copy>(alloc: A, places: &[Place]) -> Result<bool, AllocError>
    ensures { IfOk result (λ apart. IsTrue apart ↔ AreApart places.now) }
{
    if rise(places) {
        return Ok(true);
    }
    let mut taken = BTreeSet::new(alloc);
    for place in places {
        if !taken.insert((place.die.0, place.round.0))? {
            return Ok(false);
        }
    }
    Ok(true)
}

/// Whether the rounds of each die rise from one place to the next, so that no two are one.
fn rise(places: &[Place]) -> bool
    ensures { IsTrue result → AreApart places.now }
{
    let mut free = [0u64; 256];
    for place in places {
        let die = place.die.0 as usize;
        let Some(next) = place.round.0.checked_add(1) else {
            return false;
        };
        if next <= free[die] {
            return false;
        }
        free[die] = next;
    }
    true
}

/// Whether the places, none before the current round, end in so many rounds.
fn take_rounds(places: &[Place], now: Round, rounds: u64) -> bool
    requires { All (λ x. now.0 ≤ x.round.0) places.now }
    ensures taken { IsTrue result ↔ (rounds_of now.0 places.now ≡ rounds) }
    ensures fits { IsTrue result → 0 < rounds → now.0 + rounds ≤ 2 ^ 64 }
{
    if places.is_empty() {
        return rounds == 0;
    }
    let last = last_round(places);
    0 < rounds && last - now.0 == rounds - 1
}

/// The last round of the places, and 0 for none.
fn last_round(places: &[Place]) -> u64
    ensures { result ≡ fold (λ last x. max last x.round.0) 0 places.now }
{
    let mut last = 0u64;
    for place in places {
        last = last.max(place.round.0);
    }
    last
}

/// The first thing that is wrong with the pages that are to show that no plan has fewer rounds.
fn refusal_of_shortage<R: Rounds, A: Allocator>(
    batch: &Batch<A>,
    calendar: &R,
    rounds: u64,
    pages: &[Page],
) -> Option<Refusal>
    requires sound { IsSound batch.now }
    requires fits { 0 < rounds → R.current calendar.now + rounds ≤ 2 ^ 64 }
    ensures { MatchOption result (ShowsNoFewer batch.now (R.current calendar.now) (R.closed calendar.now) rounds pages.now)
        (λ r. (places : List Place) → IsPlan batch.now (R.current calendar.now) (R.closed calendar.now) places
        → rounds_of (R.current calendar.now) places ≡ rounds
        → IsRefused batch.now (R.current calendar.now) (R.closed calendar.now) rounds places pages.now r) }
{
    let Some(dies) = named_holders(batch, pages) else {
        return Some(Refusal::ShortagePage);
    };
    if rounds == 0 {
        if !pages.is_empty() {
            return Some(Refusal::NotShort);
        }
    } else if !are_more(calendar, rounds - 1, &dies, pages.len()) {
        return Some(Refusal::NotShort);
    }
    None
}

/// Which dies hold any of the pages, by their numbers, where the pages are in the batch and each is named
/// once.
fn named_holders<A: Allocator>(batch: &Batch<A>, pages: &[Page]) -> Option<[bool; 256]>
    requires { IsSound batch.now }
    ensures { MatchOption result (¬ (AreNamed batch.now pages.now))
        (λ dies. AreNamed batch.now pages.now × AreHoldersMarked batch.now pages.now dies) }
{
    let mut named = [false; MAX_PAGES];
    let mut dies = [false; 256];
    let mut likely = 0;
    for page in pages {
        let Some(entry) = batch.index_of(*page, likely) else {
            return None;
        };
        if named[entry] {
            return None;
        }
        named[entry] = true;
        mark(&mut dies, batch.holders_at(entry));
        // Where the shortage has the batch's order, the next page stands behind.
        likely = entry + 1;
    }
    Some(dies)
}

/// Which dies hold any of the pages, by their numbers.
pub fn holders_of<A: Allocator>(batch: &Batch<A>, pages: &[Page]) -> [bool; 256]
    requires { (page : ℕ) → times_named batch.now page ≤ 1 }
    ensures long { length result ≡ 256 }
    ensures marks { (die : ℕ) → slice_index_or result die false ≡ holds_any batch.now pages.now die }
{
    let mut marks = [false; 256];
    for page in pages {
        mark_holders(&mut marks, batch, *page);
    }
    marks
}

/// Marks the holders of a page, beside those that are marked.
fn mark_holders<A: Allocator>(marks: &mut [bool; 256], batch: &Batch<A>, page: Page)
    requires { times_named batch.now page.0 ≤ 1 }
    ensures { (die : ℕ) → slice_index_or marks.new die false ≡ (slice_index_or marks.old die false || holds batch.now page.0 die) }
{
    match batch.holders(page) {
        Some(holders) => mark(marks, holders),
        None => {}
    }
}

/// Marks the dies, beside those that are marked.
fn mark(marks: &mut [bool; 256], dies: &[Die])
    ensures { (die : ℕ) → slice_index_or marks.new die false ≡ (slice_index_or marks.old die false || is_among dies.now die) }
{
    for die in dies {
        marks[die.0 as usize] = true;
    }
}
