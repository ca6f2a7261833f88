//! A request, from its beginning to its answer.

use crate::preparing::{answer_len, memory_for, prepare_stage};
use fa_core_calls::Events;
use fa_machine::ReadState;
use fa_shared_lock::Locked;
use fa_shared_sleepers::{Awaits, lacks_home};
use fa_shared_steps::{Fill, Request, Stage, Task, begin, content, fill_with};
use fa_tag::Payload;
use fa_types::{BlockFault, Page};
use std::alloc::{AllocError, Allocator, Global};
use std::marker::Model;
use std::mem::replace;
use std::sync::ledger::Ledger;

/// Buffers that a batch handed out, with the pages whose bytes they had.
pub type Lent<A = Global> = Vec<(Page, Vec<u8, A>), A>;

/// How many buffers may wait for a later request before they are given back.
const MAX_LENT: usize = 16;

/// A request of a block store over an array that others use too. Its turns are made with the array's lock held (`fa_shared_turns`), each
/// with at most one event of the array, behind a Fold where the history is full. Between turns the lock is free, and [`Op::prepare`] does
/// what wants no lock.
#[derive(Drop)]
pub struct Op<A: Allocator = Global, B: Allocator = Global> {
    alloc: A,
    task: Task,
    stage: Stage<A>,
    answer: Vec<u8, B>,
    // Buffers of the array whose bytes the answer has, to be given back. They are no part of what clauses see.
    lent: Lent<A>,
}

impl<A: Allocator, B: Allocator> Model for Op<A, B> {
    ghost use Rattle.fa_shared_request.specs.Ops.{OpView};
    ghost use Rattle.fa_shared_steps.specs.Ranges.{IsRange};

    ghost Value = { OpView A };

    ghost view = { λ op. record { task = op.task; stage = op.stage; answer = op.answer.items } };

    ghost invariant = { λ op. IsRange op.task.range };
}

impl<A: Allocator + Copy, B: Allocator> Op<A, B> {
    ghost use Rattle.fa_shared_steps.specs.Ranges.{IsRange};
    ghost use Rattle.std.specs.Prelude.{◌≡◌, ℕ, ◌^◌, ◌<◌, ◌≤◌, [], IfErr, IfOk};
    ghost use Rattle.fa_shared_request.specs.Ops.{Prepares, answer_of, ended as rule_ended, stage_of, task_in};
    ghost use Rattle.fa_shared_steps.specs.Stages.{beginning};
    ghost use Rattle.fa_shared_request.specs.Tallies.{pages_in, tally_of};
    ghost use Rattle.fa_shared_steps.specs.Tasks.{answered, end_of, task_of};
    ghost use Rattle.fa_shared_request.specs.Waiting.{awaits_flush as rule_flush, waits, wants_room as rule_room, without_room};

    /// A request of a store whose pages have so many bytes, of which no turn was made. A read has all memory for its answer from the
    /// beginning, of the second allocator. The error is out of memory, for a request that is to answer some bytes.
    pub fn new(alloc: A, into: B, request: Request, page_bytes: u64) -> Result<Op<A, B>, AllocError>
        requires some_bytes { 1 ≤ page_bytes }
        requires small { page_bytes ≤ 4096 }
        requires inside { end_of request ≤ 2 ^ 32 }
        ensures task { IfOk result (λ op. task_in op ≡ task_of page_bytes request) }
        ensures stage { IfOk result (λ op. stage_of op ≡ beginning (task_of page_bytes request)) }
        ensures answer { IfOk result (λ op. answer_of op ≡ []) }
        ensures refused { IfErr result (λ error. 0 < answered (task_of page_bytes request)) }
        ensures tally { IfOk result (λ op. (commits : ℕ) → tally_of commits op
            ≡ record { commits = commits; left = pages_in (task_of page_bytes request); refused = 0 }) }
    {
        let task = request.task(page_bytes);
        let stage = begin(task);
        let answer = memory_for(into, answer_len(task))?;
        Ok(Op {
            alloc,
            task,
            stage,
            answer,
            lent: Vec::new(alloc),
        })
    }

    /// What it comes to.
    pub fn task(&self) -> Task
        ensures task { result ≡ task_in self.now }
        ensures range { IsRange result.range }
    {
        self.task
    }

    /// Where it takes memory from that is not its answer's.
    pub fn alloc(&self) -> A {
        self.alloc
    }

    /// Takes out how far it is, for a turn that goes on from there. Until it is put back the request stands as one that has ended.
    pub fn take_stage(&mut self) -> Stage<A>
        ensures stage { result ≡ stage_of self.old }
        ensures task { task_in self.new ≡ task_in self.old }
        ensures answer { answer_of self.new ≡ answer_of self.old }
    {
        replace(&mut self.stage, Stage::Ended(None))
    }

    /// Puts back how far it is, behind a turn.
    pub fn put_stage(&mut self, stage: Stage<A>)
        ensures stage { stage_of self.new ≡ stage }
        ensures task { task_in self.new ≡ task_in self.old }
        ensures answer { answer_of self.new ≡ answer_of self.old }
    {
        self.stage = stage;
    }

    /// Does what wants no lock, if there is something: lists pages, or makes what a page is to hold or the answer of a read. The bytes
    /// are those of a write.
    pub fn prepare(&mut self, bytes: &[u8])
        ensures prepared { Prepares (task_in self.old) bytes.now (stage_of self.old) (answer_of self.old) (stage_of self.new)
            (answer_of self.new) }
        ensures task { task_in self.new ≡ task_in self.old }
    {
        let stage = replace(&mut self.stage, Stage::Ended(None));
        self.stage = prepare_stage(
            self.alloc,
            self.task,
            bytes,
            stage,
            &mut self.answer,
            &mut self.lent,
        );
    }

    /// Gives the array the buffers back that its last batch handed out, where their bytes are in the answer. It is no event.
    pub fn give_back<L: Ledger, E: Events<A>>(&mut self, locked: &mut Locked<L, E, A>)
        ensures op { self.new ≡ self.old }
        ensures locked { locked.new ≡ locked.old }
    {
        if !self.lent.is_empty() {
            locked.give_back(replace(&mut self.lent, Vec::new(self.alloc)));
        }
    }

    /// Takes buffers of the array that an earlier request has, to be given back in its first turn. It is no event.
    pub fn lend(&mut self, lent: Lent<A>)
        ensures { self.new ≡ self.old }
    {
        self.lent = lent;
    }

    /// The buffers that are to be given back, for a later request to do so.
    pub fn take_lent(&mut self) -> Lent<A>
        ensures { self.new ≡ self.old }
    {
        replace(&mut self.lent, Vec::new(self.alloc))
    }

    /// Whether it has more buffers to give back than are to wait for a later request. What is told is in no clause.
    pub fn lends_many(&self) -> bool {
        self.lent.len() > MAX_LENT
    }

    /// Whether the bytes of a page are to be hashed next. [`Op::next_content`] gives them, and [`Op::prepare_with`] takes what is made of
    /// them. Which call is made then is a matter of speed alone, so what is answered is in no clause.
    pub fn has_content(&self) -> bool {
        matches!(&self.stage, Stage::Filling(_, _)) && self.task.fill == Some(Fill::Bytes)
    }

    /// The bytes of a page that are to be hashed next, in memory of their own, for whoever hashes those of several requests side by side.
    /// The bytes that are passed are those of a write. None where there are no such bytes, or for want of memory. What is given is in no
    /// clause: [`Op::prepare_with`] looks at it.
    pub fn next_content(&self, bytes: &[u8]) -> Option<Vec<u8, A>> {
        match &self.stage {
            Stage::Filling(held, _) if self.task.fill == Some(Fill::Bytes) => {
                match content(self.alloc, self.task, bytes, held.page) {
                    Some(Ok(content)) => Some(content),
                    Some(Err(_)) | None => None,
                }
            }
            _ => None,
        }
    }

    /// Does what [`Op::prepare`] does, with a payload that was made of what [`Op::next_content`] gave. Where the page's bytes are others,
    /// or no bytes are to be hashed, the payload is dropped, and all is made as there.
    pub fn prepare_with(&mut self, bytes: &[u8], payload: Payload<A>)
        ensures prepared { Prepares (task_in self.old) bytes.now (stage_of self.old) (answer_of self.old) (stage_of self.new)
            (answer_of self.new) }
        ensures task { task_in self.new ≡ task_in self.old }
    {
        let stage = replace(&mut self.stage, Stage::Ended(None));
        match stage {
            Stage::Filling(held, fewer) => {
                self.stage = fill_with(self.alloc, self.task, bytes, held, fewer, payload);
            }
            stage => {
                self.stage = stage;
                self.prepare(bytes);
            }
        }
    }

    /// How the request ended. None where it has not.
    pub fn ended(&self) -> Option<Option<BlockFault>>
        ensures { result ≡ rule_ended (stage_of self.now) }
    {
        match &self.stage {
            Stage::Ended(fault) => Some(*fault),
            _ => None,
        }
    }

    /// Whether it may have to wait at its stage for what others do.
    pub fn may_wait(&self) -> bool
        ensures { result ≡ waits (stage_of self.now) }
    {
        matches!(
            &self.stage,
            Stage::Asking(_, _)
                | Stage::Reading(_, _)
                | Stage::Claiming(_)
                | Stage::Reserving(_, _)
                | Stage::Committing(_, _)
                | Stage::Abandoning(_, _)
                | Stage::Flushing(_)
        )
    }

    /// Whether what it may have to wait for is room for a page.
    pub fn wants_room(&self) -> bool
        ensures { result ≡ rule_room (stage_of self.now) }
    {
        matches!(&self.stage, Stage::Reserving(_, _))
    }

    /// Whether it is about to reserve copies of a page, and a die has no room that one of these would go to. What is told is a matter of
    /// speed alone, and in no clause.
    pub fn lacks_home<L: Ledger, E: Events<A>>(&self, locked: &Locked<L, E, A>) -> bool {
        match &self.stage {
            Stage::Reserving(held, _) => lacks_home(locked.array(), held.page),
            _ => false,
        }
    }

    /// Whether such a die gets room before long, so that it is better for whoever has this seat to wait than to write the copy to another
    /// die, where its program is to be synced. What is told is a matter of speed alone, and in no clause.
    pub fn may_wait_for_home<L: Ledger, E: Events<A>>(
        &self,
        locked: &Locked<L, E, A>,
        seat: u32,
    ) -> bool {
        match &self.stage {
            Stage::Reserving(held, _) => !locked.homes_to_come(seat, held.page).is_empty(),
            _ => false,
        }
    }

    /// Whether what it may have to wait for is its flush.
    pub fn awaits_flush(&self) -> bool
        ensures { result ≡ rule_flush (stage_of self.now) }
    {
        matches!(&self.stage, Stage::Flushing(_))
    }

    /// Refuses it so, where it wants room and none can come: its next turn releases its page. At any other stage nothing is done.
    pub fn refuse_room(&mut self, fault: BlockFault)
        ensures stage { stage_of self.new ≡ without_room fault (stage_of self.old) }
        ensures task { task_in self.new ≡ task_in self.old }
        ensures answer { answer_of self.new ≡ answer_of self.old }
    {
        let stage = replace(&mut self.stage, Stage::Ended(None));
        self.stage = match stage {
            Stage::Reserving(held, _) => Stage::Releasing(held, Some(fault)),
            stage => stage,
        };
    }

    /// What it waits for, where whoever has this seat waits for it: its batch, the programs of its claim, its flush, dies that get room, or
    /// any change. A batch that is to be planned anew waits for other requests. What is answered settles who is woken when, and is in no
    /// clause.
    pub fn awaits<L: Ledger, E: Events<A>>(&self, locked: &Locked<L, E, A>, seat: u32) -> Awaits {
        match &self.stage {
            Stage::Reading(_, batch) => match locked.array().results(*batch) {
                ReadState::Waiting => Awaits::Batch(*batch),
                ReadState::Ready | ReadState::Torn => Awaits::Change,
            },
            Stage::Reserving(held, _) => {
                let dies = locked.homes_to_come(seat, held.page);
                if dies.is_empty() {
                    Awaits::Change
                } else {
                    Awaits::Room(dies)
                }
            }
            Stage::Committing(held, _) => Awaits::Programs(held.claim),
            Stage::Flushing(flush) => Awaits::Flush(*flush),
            _ => Awaits::Change,
        }
    }

    /// The answer of a read, as far as it was made.
    pub fn into_answer(self) -> Vec<u8, B>
        ensures { result.items ≡ answer_of self }
    {
        let Op { answer, .. } = self;
        answer
    }
}
