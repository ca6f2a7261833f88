//! The last faults that took dies out.
ghost use Rattle.std.specs.Prelude.{◌≡◌, ◌∷◌, ◌++◌, [], IfOk};
ghost use Rattle.circular_buffer.specs.Buffer.{keep_last};
ghost use Rattle.fa_faults.specs.Causes.{cause_of as rule_cause, fault_of as rule_fault};

use circular_buffer::HeapCircularBuffer;
use fa_core_outcome::Outcome;
use fa_image::ImageFault;
use fa_types::{Die, Round};
use std::alloc::{AllocError, Allocator, Global};

/// How many faults are kept.
pub const MAX_FAULTS: usize = 64;

/// Why a die went out.
#[derive(Clone, Copy, PartialEq, Eq)]
pub enum Cause {
    /// Causes 1 to 6: its image refused a call, by the number of the call.
    Image(ImageFault),
    /// Cause 7: a slot of it was not the one that was asked for, by its tag or its digest.
    Wrong,
}

impl Cause {
    ghost use Rattle.fa_faults.specs.Causes.{cause_number};

    /// The number of the cause, 1 to 7.
    pub fn number(self) -> u8
        ensures { result ≡ cause_number self }
    {
        match self {
            Cause::Image(fault) => fault.number(),
            Cause::Wrong => 7,
        }
    }
}

/// A die went out.
#[derive(Clone, Copy, PartialEq, Eq)]
pub struct Fault {
    /// The die.
    pub die: Die,
    /// Why it went out.
    pub cause: Cause,
    /// The round in which it did.
    pub round: Round,
}

/// The last 64 faults. No call but `new` and `kept` takes memory.
#[derive(Drop)]
pub struct Faults<A: Allocator = Global> {
    ring: HeapCircularBuffer<Fault, A>,
    ghost room: { ring.capacity ≡ 64 },
}

impl<A: Allocator> Faults<A> {
    ghost use Rattle.fa_faults.specs.Faults.{faults_of};

    /// No fault yet. The error is out of memory.
    pub fn new(alloc: A) -> Result<Faults<A>, AllocError>
        ensures { IfOk result (λ faults. faults_of faults ≡ []) }
    {
        let ring = HeapCircularBuffer::with_capacity(alloc, MAX_FAULTS)?;
        Ok(Faults { ring })
    }

    /// One more fault. Of more than 64 the oldest is forgotten.
    pub fn note(&mut self, fault: Fault)
        ensures { faults_of self.new ≡ keep_last 64 (faults_of self.old ++ fault ∷ []) }
    {
        self.ring.push_back(fault);
    }

    /// The faults, the oldest first. The error is out of memory.
    pub fn kept<B: Allocator>(&self, alloc: B) -> Result<Vec<Fault, B>, AllocError>
        ensures { IfOk result (λ faults. faults.items ≡ faults_of self.now) }
    {
        self.ring.to_vec(alloc)
    }
}

/// What is noted of a die whose job ended so: why it went out, if it was live and is out.
pub fn fault_of(
    was_live: bool,
    is_live: bool,
    die: Die,
    outcome: Outcome,
    round: Round,
) -> Option<Fault>
    ensures { result ≡ rule_fault was_live is_live die outcome round }
{
    if was_live && !is_live {
        Some(Fault {
            die,
            cause: cause_of(outcome),
            round,
        })
    } else {
        None
    }
}

/// Why a die went out whose job ended so.
fn cause_of(outcome: Outcome) -> Cause
    ensures { result ≡ rule_cause outcome }
{
    match outcome {
        Outcome::Fault(fault) => Cause::Image(fault),
        _ => Cause::Wrong,
    }
}
