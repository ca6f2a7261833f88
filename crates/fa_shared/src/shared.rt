//! The array that threads share.
ghost use Rattle.std.specs.Prelude.{◌≡◌, ℕ, ◌+◌, IfErr, IfOk, IfSome};
ghost use Rattle.fa_core_tables.specs.Counted.{capped};
ghost use Rattle.fa_shared_lock.specs.Seats.{commits_together, commits_with, number_of};

use fa_core_calls::{Events, Looks};
use fa_faults::{Fault, Faults};
use fa_shared_lock::{Gathered, Locked, Seat};
use fa_shared_sleepers::{Awaits, MAX_SEATS, SeatSet};
use std::alloc::{AllocError, Allocator, Global};
use std::hint::spin_loop;
use std::sync::ledger::{Blank, Ledger};
use std::sync::{Condvar, CondvarTimeouts, Mutex, MutexGuard, Wait};
use std::time::{Clock, Duration};

/// How long a request sleeps at most before looking again, in milliseconds: first, and behind that. What it waits for is seldom as long on
/// its way as the first, so somebody who has taken jobs of several dies may be held up by the image of one.
const FIRST_SLEEP: u64 = 20;

const REQUEST_SLEEP: u64 = 80;

/// How long those sleep at most who work for the array, in milliseconds.
const WORKER_SLEEP: u64 = 1000;

/// How often somebody tries to take the lock before sleeping for it. Holds are short: most end within these tries, which take as long as a
/// sleep and a wake.
const TRIES: u32 = 800;

/// An array that threads share, with the faults that took its dies out. Nobody holds its lock but for one event, or for two that belong
/// together, and no page, image or socket is touched under it. The faults have a lock of their own.
#[derive(Drop)]
pub struct Shared<L: Ledger, E: Events<A>, A: Allocator + Copy = Global> {
    locked: Mutex<Locked<L, E, A>>,
    faults: Mutex<Faults<A>>,
    // By the numbers of seats: what wakes whoever has the seat.
    bells: Vec<Condvar, A>,
}

impl<L: Ledger, E: Events<A>, A: Allocator + Copy> Shared<L, E, A> {
    /// An array to be shared, with a ledger of 257 parts that nothing else names. The book begins with the Commits that were made before.
    /// Where memory is refused, or so many Commits were made that a count of 64 bits does not tell them, the array is handed back.
    pub fn new(alloc: A, blank: Blank, array: E) -> Result<Shared<L, E, A>, E>
        requires name { blank.name ≡ L.name }
        requires parts { (blank.parts ≡ L.parts) × (blank.parts ≡ 257) }
        requires whole { E.whole array }
        ensures refused { IfErr result (λ back. back ≡ array) }
    {
        let Ok((faults, bells)) = make_parts(alloc) else {
            return Err(array);
        };
        Ok(Shared {
            locked: Mutex::new(Locked::new(alloc, blank, array)?),
            faults: Mutex::new(faults),
            bells,
        })
    }

    /// The array under its lock, which is free again once the guard is dropped.
    pub fn lock<R: Wait>(&self, rt: &R) -> MutexGuard<'_, Locked<L, E, A>> {
        for _ in 0..TRIES {
            if let Some(guard) = self.locked.try_lock() {
                return guard;
            }
            spin_loop();
        }
        self.locked.lock(rt)
    }

    /// Frees the lock behind a look. Nobody is woken.
    pub fn let_go(&self, guard: MutexGuard<'_, Locked<L, E, A>>) {
        drop(guard);
    }

    /// Frees the lock, and wakes those for whom it is time. Rounds that may pass have passed before.
    pub fn release(&self, seat: &mut Seat<L>, guard: MutexGuard<'_, Locked<L, E, A>>)
        ensures commits { commits_with seat.new ≡ commits_with seat.old }
        ensures number { number_of seat.new ≡ number_of seat.old }
    {
        let mut guard = guard;
        guard.settle(seat);
        let due = guard.due();
        drop(guard);
        self.wake(due);
    }

    /// Frees the lock until what is awaited has come, or for no reason, and then takes it again. Rounds that may pass have passed before,
    /// and those for whom it is time are woken. One who helps may be woken to make jobs of dies. Nobody sleeps longer than a second, and a
    /// request no longer than a tenth of one; where a fifth of that has passed, workers look at what others have taken of their dies.
    pub fn sleep<'a, R: Wait + Clock>(
        &'a self,
        rt: &R,
        seat: &mut Seat<L>,
        awaits: Awaits,
        helps: bool,
        guard: MutexGuard<'a, Locked<L, E, A>>,
    ) -> MutexGuard<'a, Locked<L, E, A>>
        ensures commits { commits_with seat.new ≡ commits_with seat.old }
        ensures number { number_of seat.new ≡ number_of seat.old }
    {
        let number = seat.number();
        let mut guard = guard;
        guard.settle(seat);
        guard.lie_down(number, awaits, helps);
        let due = guard.due();
        self.wake(due);
        let Some(bell) = self.bells.get(number as usize) else {
            return guard;
        };
        if !due.contains(number) {
            guard = if is_request(awaits) {
                self.wait_twice(rt, bell, number, guard)
            } else {
                bell.wait_timeout(rt, guard, Duration::from_millis(WORKER_SLEEP))
                    .0
            };
        }
        guard.get_up(number);
        guard
    }

    /// Waits at the bell of a request's seat. Behind a first while those are woken who may make what it waits for in the place of others.
    /// Whoever was woken by then, as that while ended, waits no longer: nobody rings twice.
    fn wait_twice<'a, R: Wait + Clock>(
        &'a self,
        rt: &R,
        bell: &Condvar,
        number: u32,
        guard: MutexGuard<'a, Locked<L, E, A>>,
    ) -> MutexGuard<'a, Locked<L, E, A>> {
        let first = Duration::from_millis(FIRST_SLEEP);
        let (mut guard, waited) = bell.wait_timeout(rt, guard, first);
        if !waited.timed_out() {
            return guard;
        }
        guard.note_long_wait();
        let due = guard.due();
        self.wake(due);
        if guard.is_called(number) {
            return guard;
        }
        bell.wait_timeout(rt, guard, Duration::from_millis(REQUEST_SLEEP))
            .0
    }

    /// Wakes those who have these seats.
    fn wake(&self, seats: SeatSet) {
        let mut seats = seats;
        for _ in 0..MAX_SEATS {
            let Some(seat) = seats.pop() else {
                return;
            };
            if let Some(bell) = self.bells.get(seat as usize) {
                bell.notify_one();
            }
        }
    }

    /// One more seat. None where 256 are out.
    pub fn seat<R: Wait>(&self, rt: &R) -> Option<Seat<L>>
        ensures { IfSome result (λ seat. commits_with seat ≡ 0) }
    {
        self.locked.lock(rt).seat()
    }

    /// Whoever works for the array is to end.
    pub fn stop<R: Wait>(&self, rt: &R) {
        self.locked.lock(rt).stop();
        for bell in &self.bells {
            bell.notify_all();
        }
    }

    /// Whether whoever works for the array is to end.
    pub fn stopped<R: Wait>(&self, rt: &R) -> bool {
        self.locked.lock(rt).is_stopping()
    }

    /// A die went out, by an event that was made under the array's lock.
    pub fn note_fault<R: Wait>(&self, rt: &R, fault: Fault) {
        self.faults.lock(rt).note(fault);
    }

    /// The last 64 faults, the oldest first. The error is out of memory.
    pub fn faults<R: Wait, B: Allocator>(
        &self,
        rt: &R,
        alloc: B,
    ) -> Result<Vec<Fault, B>, AllocError> {
        self.faults.lock(rt).kept(alloc)
    }

    /// All seats that are out come back, and the answer is how many Commits there were, and that many were made with these seats and with
    /// those that came back before. Refused, the seats are handed back.
    pub fn gather<R: Wait, B: Allocator>(
        &self,
        rt: &R,
        seats: Vec<Seat<L>, B>,
    ) -> Result<u64, Gathered<L, B>>
        requires parts { L.parts ≡ 257 }
        ensures sum { IfOk result (λ count. (before : ℕ) × (count ≡ capped (before + commits_together seats.items))) }
        ensures missing { IfErr result (λ refused. refused ≡ Gathered.Missing seats) }
    {
        self.locked.lock(rt).gather(seats)
    }

    /// The array is given up as it is.
    pub fn discard(self) {
        drop(self);
    }

    /// The array, shared no more.
    pub fn into_array(self) -> E
        ensures { E.whole result }
    {
        let Shared { locked, .. } = self;
        locked.into_inner().into_array()
    }
}

/// An array is given up as it is. The parts of one are proved to be dropped in each crate that drops one, so other crates have it done
/// here.
pub fn discard<E: Looks>(array: E) {
    drop(array);
}

/// The faults of a shared array, and what wakes those who sleep. The error is out of memory.
fn make_parts<A: Allocator + Copy>(alloc: A) -> Result<(Faults<A>, Vec<Condvar, A>), AllocError> {
    let faults = Faults::new(alloc)?;
    let mut bells = Vec::with_capacity(alloc, MAX_SEATS as usize)?;
    for _ in 0..MAX_SEATS {
        bells.push(Condvar::new())?;
    }
    Ok((faults, bells))
}

/// Whether a request waits so, or somebody who works for the array and was refused a window. Else somebody waits for work.
fn is_request(awaits: Awaits) -> bool {
    match awaits {
        Awaits::Job(_) | Awaits::Window { was_refused: false } | Awaits::ThinPage => false,
        Awaits::Window { was_refused: true }
        | Awaits::Batch(_)
        | Awaits::Programs(_)
        | Awaits::Flush(_)
        | Awaits::Room(_)
        | Awaits::Change => true,
    }
}
