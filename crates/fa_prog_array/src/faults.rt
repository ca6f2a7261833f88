//! The faults that took dies out, in words.
use fa_faults::{Cause, Fault};
use fa_prog_status::FaultStatus;
use std::alloc::{AllocError, Global};

/// What a slot with wrong bytes is in words.
const WRONG_SLOT: &str = "a slot has other bytes than were written";

/// These faults in words. The error is out of memory.
pub(crate) fn told(global: Global, faults: &[Fault]) -> Result<Vec<FaultStatus>, AllocError> {
    let mut told = Vec::with_capacity(global, faults.len())?;
    for fault in faults {
        told.push(told_one(global, *fault)?)?;
    }
    Ok(told)
}

/// A fault in words. The error is out of memory.
fn told_one(global: Global, fault: Fault) -> Result<FaultStatus, AllocError> {
    Ok(FaultStatus {
        die: fault.die,
        cause: fault.cause.number(),
        words: words_of(global, fault.cause)?,
        round: fault.round.0,
    })
}

/// A cause in words. The error is out of memory.
fn words_of(global: Global, cause: Cause) -> Result<String, AllocError> {
    match cause {
        Cause::Image(fault) => fault.to_string(global),
        Cause::Wrong => WRONG_SLOT.to_string(global),
    }
}
