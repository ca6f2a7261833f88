//! Looks at an array, in words.
use crate::output::Output;
use crate::words::die_of;
use fa_machine::{HistoryEntry, ReadState};
use fa_types::{Die, Page, Round, Rounds};

/// The greatest number of rounds of which a look tells whether they are closed.
const MAX_ROUNDS: u64 = 4096;

/// How a batch stands.
pub fn show_batch_state(state: ReadState, output: &mut Output) {
    output.word(match state {
        ReadState::Waiting => "waiting",
        ReadState::Torn => "torn",
        ReadState::Ready => "ready",
    });
}

/// The next thin page, and the die that it goes to.
pub fn show_thin(found: Option<(Page, Die)>, output: &mut Output) {
    match found {
        Some((page, die)) => {
            output.pair("page", page.0);
            output.pair("to", u64::from(die.0));
        }
        None => output.word("none is thin"),
    }
}

/// Which of the next `count` rounds are closed on a die, the current one first.
pub fn show_closed<R: Rounds>(rounds: &R, die: u64, count: u64, output: &mut Output) {
    output.pair("closed", die);
    let now = rounds.now().0;
    for later in 0..count.min(MAX_ROUNDS) {
        let round = now.saturating_add(later);
        if !rounds.is_open(die_of(die), Round(round)) {
            output.number(round);
        }
    }
}

/// How many Commits and how many Starts there were.
pub fn show_counts(counts: (u64, u64), output: &mut Output) {
    output.pair("commits", counts.0);
    output.pair("starts", counts.1);
}

/// The entries of a history, and how many they are.
pub fn show_history(history: &[HistoryEntry], output: &mut Output) {
    output.pair("entries", history.len() as u64);
    for entry in history {
        show_entry(*entry, output);
    }
}

fn show_entry(entry: HistoryEntry, output: &mut Output) {
    let (word, page, seq) = match entry {
        HistoryEntry::Commit { page, seq, .. } => ("commit", page, seq),
        HistoryEntry::Start { page, seq, .. } => ("start", page, seq),
    };
    output.pair(word, page.0);
    output.number(seq.0);
}
