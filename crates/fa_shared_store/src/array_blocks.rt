//! The store that an array is to one of those who share it.
ghost use Rattle.std.specs.Prelude.{◌≤◌};

use crate::context::Context;
use crate::running::{finish, run, run_read, store_bytes};
use fa_core_calls::Events;
use fa_shared::Shared;
use fa_shared_lock::{Hands, Seat};
use fa_shared_request::{Lent, Op};
use fa_shared_steps::Request;
use fa_types::{BlockFault, Blocks};
use std::alloc::Allocator;
use std::sync::Wait;
use std::sync::ledger::Ledger;
use std::time::Clock;

/// A block store over an array that others use too, each by a store of their own. Its calls wait for the dies; meanwhile its hands work for
/// them, and others do.
#[derive(Drop)]
pub struct ArrayBlocks<
    'a,
    R: Wait + Clock,
    L: Ledger,
    E: Events<A>,
    A: Allocator + Copy,
    H: Hands<L, E, A> + Drop,
> {
    context: Context<'a, R, L, E, A>,
    seat: Seat<L>,
    hands: H,
    // Buffers of the array that its last read was lent.
    lent: Lent<A>,
    bytes: u64,
    ghost few_bytes: { bytes ≤ 4294967296 },
}

impl<
    'a,
    R: Wait + Clock,
    L: Ledger,
    E: Events<A>,
    A: Allocator + Copy,
    H: Hands<L, E, A> + Drop,
> ArrayBlocks<'a, R, L, E, A, H> {
    ghost use Rattle.std.specs.Prelude.{◌≡◌, true, is_none, is_some, unwrap_or};
    ghost use Rattle.fa_shared_request.specs.Counts.{IsMade, is_served};
    ghost use Rattle.fa_shared_request.specs.Ops.{ended, stage_of, task_in};
    ghost use Rattle.fa_shared_steps.specs.Stages.{beginning};
    ghost use Rattle.fa_shared_request.specs.Tallies.{pages_in};

    /// The store of a seat. While it waits for dies it makes jobs by these hands.
    pub fn new(
        rt: &'a R,
        alloc: A,
        shared: &'a Shared<L, E, A>,
        seat: Seat<L>,
        hands: H,
    ) -> ArrayBlocks<'a, R, L, E, A, H>
        ensures { result.seat ≡ seat }
    {
        let guard = shared.lock(rt);
        let geometry = guard.array().geometry();
        shared.let_go(guard);
        let (bytes, page_bytes) = store_bytes(geometry);
        ArrayBlocks {
            context: Context {
                rt,
                alloc,
                shared,
                page_bytes,
            },
            seat,
            hands,
            lent: Vec::new(alloc),
            bytes,
        }
    }

    /// Goes on with a request until it has ended, and hands it back. No turn of it was made before. The bytes are those of a write. Each
    /// page that it writes is committed with the seat, once, if it isn't refused.
    pub fn run(&mut self, op: Op<A, A>, bytes: &[u8]) -> Op<A, A>
        requires { stage_of op ≡ beginning (task_in op) }
        ensures task { task_in result ≡ task_in op }
        ensures ended { is_some (ended (stage_of result)) ≡ true }
        ensures made { IsMade (pages_in (task_in op)) self.old.seat (is_served (stage_of result)) self.new.seat }
    {
        let mut op = op;
        let _end = finish(
            &self.context,
            &mut self.seat,
            &mut self.hands,
            &mut op,
            bytes,
        );
        op
    }

    /// The seat, to be gathered.
    pub fn into_seat(self) -> Seat<L>
        ensures { result ≡ self.entry.seat }
    {
        let ArrayBlocks { seat, .. } = self;
        seat
    }
}

impl<
    'a,
    R: Wait + Clock,
    L: Ledger,
    E: Events<A>,
    A: Allocator + Copy,
    H: Hands<L, E, A> + Drop,
> Blocks for ArrayBlocks<'a, R, L, E, A, H> {
    ghost use Rattle.std.specs.Prelude.{◌≡◌};
    ghost use Rattle.fa_shared_request.specs.Counts.{IsMade, is_accepted, pages_of};
    ghost use Rattle.fa_shared_request.specs.SharedStore.{shared_meets, shared_view, shared_whole};
    ghost use Rattle.fa_types.specs.Store.{IsAnswer};

    ghost view = { λ store. shared_view store.bytes store.context.page_bytes };

    ghost made = { λ before call answer after. (after.bytes ≡ before.bytes) × (after.context.page_bytes ≡ before.context.page_bytes)
        × IsAnswer call answer
        × IsMade (pages_of before.context.page_bytes call) before.seat (is_accepted answer) after.seat };

    ghost meets = { λ before after call answer made.
        shared_meets before.bytes before.context.page_bytes after.bytes after.context.page_bytes call answer made.0 made.1 made.2 };

    ghost whole = { λ store. shared_whole store.bytes store.context.page_bytes store.context.some_bytes };

    fn size(&self) -> u64 {
        self.bytes
    }

    fn page_bytes(&self) -> u32 {
        self.context.page_bytes
    }

    fn read<B: Allocator>(
        &mut self,
        alloc: B,
        offset: u64,
        len: u64,
    ) -> Result<Vec<u8, B>, BlockFault> {
        run_read(
            &self.context,
            &mut self.seat,
            &mut self.hands,
            &mut self.lent,
            offset,
            len,
            alloc,
        )
    }

    fn write(&mut self, offset: u64, bytes: &[u8], fua: bool) -> Result<(), BlockFault> {
        let len = bytes.len() as u64;
        let request = Request::Write { offset, len, fua };
        run(
            &self.context,
            &mut self.seat,
            &mut self.hands,
            request,
            bytes,
        )
    }

    fn zero(&mut self, offset: u64, len: u64, fua: bool, hole: bool) -> Result<(), BlockFault> {
        let request = Request::Zero {
            offset,
            len,
            fua,
            hole,
        };
        run(&self.context, &mut self.seat, &mut self.hands, request, &[])
    }

    fn trim(&mut self, offset: u64, len: u64, fua: bool) -> Result<(), BlockFault> {
        let request = Request::Trim { offset, len, fua };
        run(&self.context, &mut self.seat, &mut self.hands, request, &[])
    }

    fn flush(&mut self) -> Result<(), BlockFault> {
        let answer = run(
            &self.context,
            &mut self.seat,
            &mut self.hands,
            Request::Flush,
            &[],
        );
        match answer {
            Err(BlockFault::NoRoom | BlockFault::NoMemory) => Err(BlockFault::Lost),
            answer => answer,
        }
    }
}
