//! The closed rounds of dies as runs.
use fa_closed::Run;
use fa_types::{Die, Round, Rounds};
use std::alloc::{AllocError, Allocator};

/// The closed ones of so many rounds from the current one, of the first so many dies, as runs in the place of those that were there; the
/// current round is told as 1. The error is out of memory.
pub(crate) fn closings<R: Rounds, A: Allocator>(
    runs: &mut Vec<Run, A>,
    calendar: &R,
    dies: u8,
    rounds: u64,
) -> Result<(), AllocError> {
    runs.clear();
    let now = calendar.now().0;
    if now.checked_add(rounds).is_none() {
        return Ok(());
    }
    'dies: for number in 0..dies {
        if calendar.open_count(Die(number), rounds) < rounds {
            close_die(runs, calendar, Die(number), rounds)?;
        }
    }
    Ok(())
}

/// Adds the runs of one die.
fn close_die<R: Rounds, A: Allocator>(
    runs: &mut Vec<Run, A>,
    calendar: &R,
    die: Die,
    rounds: u64,
) -> Result<(), AllocError> {
    let now = calendar.now().0;
    'rounds: for past in 0..rounds {
        let round = now.saturating_add(past);
        if !calendar.is_open(die, Round(round)) {
            close(runs, die, past.saturating_add(1))?;
        }
    }
    Ok(())
}

/// Adds a round to the last run, where that is of the die and ends right before it, or as a run of its own.
fn close<A: Allocator>(runs: &mut Vec<Run, A>, die: Die, round: u64) -> Result<(), AllocError> {
    if let Some(run) = runs.last_mut() {
        if run.die.0 == die.0 && run.last.0.saturating_add(1) == round {
            run.last = Round(round);
            return Ok(());
        }
    }
    runs.push(Run {
        die,
        first: Round(round),
        last: Round(round),
    })?;
    Ok(())
}
