//! What events are answered, in words.
use crate::content::show_content;
use crate::output::Output;
use crate::refusals::Reason;
use fa_batch_terms::Place;
use fa_machine::{
    AdmitRefused, ClaimId, ClaimRefused, CommitCopyRefused, Copied, Flush, FlushRefused, FlushState,
};
use fa_types::{Page, Round, Seq};
use std::alloc::Allocator;

/// A claim, or why it was refused.
pub fn show_claim(answer: &Result<ClaimId, ClaimRefused>, output: &mut Output) {
    match answer {
        Ok(claim) => output.pair("claim", claim.0),
        Err(refused) => output.reason(refused),
    }
}

/// The number of a write, or why it was refused.
pub fn show_seq<E: Reason>(answer: &Result<Seq, E>, output: &mut Output) {
    match answer {
        Ok(seq) => output.pair("seq", seq.0),
        Err(refused) => output.reason(refused),
    }
}

/// A round, or why it was refused.
pub fn show_round<E: Reason>(answer: &Result<Round, E>, output: &mut Output) {
    match answer {
        Ok(round) => output.pair("round", round.0),
        Err(refused) => output.reason(refused),
    }
}

/// A flush that begins, or why it was refused.
pub fn show_flush(answer: &Result<Flush, FlushRefused>, output: &mut Output) {
    match answer {
        Ok(flush) => output.pair("flush", flush.number),
        Err(refused) => output.reason(refused),
    }
}

/// A word, or why it was refused.
pub fn show_word<E: Reason>(word: &str, answer: &Result<(), E>, output: &mut Output) {
    match answer {
        Ok(()) => output.word(word),
        Err(refused) => output.reason(refused),
    }
}

/// Whether a copy was current when it was committed, or why it was refused.
pub fn show_copied(answer: &Result<Copied, CommitCopyRefused>, output: &mut Output) {
    match answer {
        Ok(Copied::Current) => output.word("current"),
        Ok(Copied::Late) => output.word("late"),
        Err(refused) => output.reason(refused),
    }
}

/// How a flush stands.
pub fn show_flush_state(state: FlushState, output: &mut Output) {
    output.word(match state {
        FlushState::Waiting => "waiting",
        FlushState::Synced => "synced",
        FlushState::NoDie => "no die",
    });
}

/// Why pages were not admitted, and the page that is lost.
pub fn show_admit_refused(refused: AdmitRefused, output: &mut Output) {
    output.reason(&refused);
    if let AdmitRefused::Lost(page) = refused {
        output.number(page.0);
    }
}

/// The pages that a batch answers, each with its bytes.
pub fn show_pages<A: Allocator>(pages: &[(Page, Vec<u8, A>)], output: &mut Output) {
    output.pair("pages", pages.len() as u64);
    for page in pages {
        output.pair("page", page.0.0);
        show_content("of", page.1.as_slice(), output);
    }
}

/// The places of a plan.
pub fn show_places(places: &[Place], output: &mut Output) {
    for place in places {
        output.pair("place", place.page.0);
        output.number(u64::from(place.die.0));
        output.number(place.round.0);
    }
}

/// The pages of a shortage, if there are any.
pub fn show_shortage(pages: &[Page], output: &mut Output) {
    if !pages.is_empty() {
        output.word("short");
    }
    for page in pages {
        output.number(page.0);
    }
}
