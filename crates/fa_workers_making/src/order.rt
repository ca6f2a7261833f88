//! A job with all that its calls want.
ghost use Rattle.std.specs.Prelude.{◌≡◌, ◌+◌, ◌<◌, IfErr, IfSome, OnOk, length, option_map};
ghost use Rattle.fa_core_outcome.specs.Outcomes.{outcome_of};
ghost use Rattle.fa_core_outcome.specs.Fits.{IsJobFor};
ghost use Rattle.fa_core_outcome.specs.Handed.{handed_of};
ghost use Rattle.fa_image.specs.Image.{Gave, ReadingSlot, slot_count};
ghost use Rattle.fa_jobs.specs.Made.{Ran};
ghost use Rattle.fa_jobs.specs.Orders.{IsJobFor-prop};
ghost use Rattle.fa_tag.specs.SlotGrammar.{IsOpened, payload_of};
ghost use Rattle.fa_workers_making.specs.Beginning.{Begins, EndsMove, IsRefused};

use fa_core_outcome::{Job, Outcome};
use fa_image::{Image, ImageFault};
use fa_jobs::{Gate, begin_read, end_move, run_job};
use fa_machine::Flight;
use fa_tag::{Opened, PayloadDigest};
use fa_types::{Die, Geometry, Slot, TAG_BYTES};
use std::alloc::{Allocator, Global};

/// How far a job has come by its first call.
#[derive(Clone, Copy)]
pub(crate) enum Begun {
    /// It has ended so. A read's slot is not opened.
    Over(Outcome),
    /// The slot was read that is to be moved.
    SlotRead,
}

/// A job that a die has taken, of an array of this geometry and number.
#[derive(Drop)]
pub struct Order<A: Allocator = Global> {
    /// The die.
    pub die: Die,
    geometry: Geometry,
    array: [u8; 16],
    /// The job, which the array handed out.
    pub job: Job<A>,
    ghost fits: { IsJobFor geometry array die.0 (handed_of job) } by { IsJobFor-prop geometry array die.0 (handed_of job) },
}

/// The job that was handed out, if one was.
pub fn order_of<A: Allocator>(
    die: Die,
    geometry: Geometry,
    array: [u8; 16],
    job: Option<Job<A>>,
) -> Option<Order<A>>
    requires { IfSome job (λ job. IsJobFor geometry array die.0 (handed_of job)) }
    ensures job { option_map (λ order. handed_of order.job) result ≡ option_map handed_of job }
    ensures die { IfSome result (λ order. order.die ≡ die) }
{
    match job {
        None => None,
        Some(job) => Some(Order {
            die,
            geometry,
            array,
            job,
        }),
    }
}

impl<A: Allocator> Order<A> {
    /// The die.
    pub fn die(&self) -> Die
        ensures { result ≡ self.now.die }
    {
        self.die
    }

    /// How the job ends on a die that has no image for it.
    pub(crate) fn refused(&self) -> Outcome {
        Outcome::Fault(fault_of(self.job.flight))
    }

    /// Makes the job's calls on the image, if it is one for the array and the memory has the right sizes, and tells how the job ended.
    /// Otherwise the image refuses the job, and none of its calls is made.
    pub(crate) fn run<I: Image, G: Gate, B: Allocator>(
        &self,
        image: &mut I,
        scratch: &mut Vec<u8, B>,
        buffer: &mut Vec<u8, B>,
        gate: &G,
    ) -> Outcome
        ensures ran { (I.view image.old).geometry ≡ self.now.geometry → length scratch.old.items ≡ self.now.geometry.page_bytes + 64
            → length buffer.old.items ≡ self.now.geometry.page_bytes
            → Ran I.made self.now.geometry self.now.array self.now.die.0 (handed_of self.now.job) (outcome_of result buffer.new.items)
            image.old image.new }
        ensures geometry { (I.view image.new).geometry ≡ (I.view image.old).geometry }
        ensures scratch { length scratch.new.items ≡ length scratch.old.items }
        ensures buffer { length buffer.new.items ≡ length buffer.old.items }
    {
        let page_bytes = self.geometry.page_bytes as usize;
        if image.geometry() != self.geometry
            || scratch.len() != page_bytes + TAG_BYTES
            || buffer.len() != page_bytes
        {
            return self.refused();
        }
        run_job(
            self.die,
            image,
            &self.array,
            &self.job,
            scratch,
            buffer,
            gate,
        )
    }

    /// Makes the first call of a job on the image, and all of one that neither reads nor moves a page. What it has read is to be opened: a
    /// read stands as one of a bad slot until then, and a move is to be gone on with, by [`Order::end_move`].
    pub(crate) fn begin<I: Image, G: Gate, B: Allocator>(
        &self,
        image: &mut I,
        scratch: &mut Vec<u8, B>,
        buffer: &mut Vec<u8, B>,
        gate: &G,
    ) -> Begun
        ensures begins { (I.view image.old).geometry ≡ self.now.geometry → length scratch.old.items ≡ self.now.geometry.page_bytes + 64
            → length buffer.old.items ≡ self.now.geometry.page_bytes
            → Begins I.made self.now.geometry self.now.array self.now.die.0 (handed_of self.now.job) result scratch.new.items
            buffer.new.items image.old image.new }
        ensures scratch { length scratch.new.items ≡ length scratch.old.items }
        ensures buffer { length buffer.new.items ≡ length buffer.old.items }
    {
        match self.job.flight {
            Flight::Read { slot, .. } => match self.read_slot(image, slot, scratch, gate) {
                Ok(()) => Begun::Over(Outcome::Read(Opened::Bad)),
                Err(outcome) => Begun::Over(outcome),
            },
            Flight::Move { from, .. } => match self.read_slot(image, from, scratch, gate) {
                Ok(()) => Begun::SlotRead,
                Err(outcome) => Begun::Over(outcome),
            },
            _ => Begun::Over(self.run(image, scratch, buffer, gate)),
        }
    }

    /// Reads a slot of an image that is one for the array. The error is how a job ends whose slot is not read.
    fn read_slot<I: Image, G: Gate, B: Allocator>(
        &self,
        image: &mut I,
        slot: Slot,
        scratch: &mut Vec<u8, B>,
        gate: &G,
    ) -> Result<(), Outcome>
        requires { slot.0 < slot_count self.now.geometry }
        ensures read { (I.view image.old).geometry ≡ self.now.geometry → length scratch.old.items ≡ self.now.geometry.page_bytes + 64
            → OnOk result (I.made image.old (ReadingSlot slot.0) (Gave scratch.new.items) image.new) }
        ensures refused { (I.view image.old).geometry ≡ self.now.geometry → length scratch.old.items ≡ self.now.geometry.page_bytes + 64
            → IfErr result (λ outcome. IsRefused I.made slot.0 outcome image.old image.new) }
        ensures scratch { length scratch.new.items ≡ length scratch.old.items }
    {
        let geometry = image.geometry();
        if geometry != self.geometry || scratch.len() != self.slot_len() {
            return Err(self.refused());
        }
        match begin_read(self.die, image, slot, scratch, gate) {
            Ok(()) => Ok(()),
            Err(fault) => Err(Outcome::Fault(fault)),
        }
    }

    /// Goes on with a move whose slot was read and opened, with the digest of its payload begun, if the image is one for the array and the
    /// memory has the right size, and tells how the job ended. Otherwise the image refuses the job.
    pub(crate) fn end_move<I: Image, G: Gate, B: Allocator>(
        &self,
        image: &mut I,
        opened: Opened,
        digest: &PayloadDigest,
        scratch: &mut Vec<u8, B>,
        gate: &G,
    ) -> Outcome
        requires opened { IsOpened scratch.old.items opened }
        requires begun { digest.now ≡ payload_of scratch.old.items }
        ensures ends { (I.view image.old).geometry ≡ self.now.geometry → length scratch.old.items ≡ self.now.geometry.page_bytes + 64
            → EndsMove I.made self.now.geometry self.now.array self.now.die.0 (handed_of self.now.job) result scratch.old.items
            image.old image.new }
        ensures scratch { length scratch.new.items ≡ length scratch.old.items }
    {
        let Flight::Move {
            page,
            version,
            from,
            to,
        } = self.job.flight
        else {
            return self.refused();
        };
        let geometry = image.geometry();
        if geometry != self.geometry || scratch.len() != self.slot_len() {
            return self.refused();
        }
        end_move(
            self.die,
            image,
            page,
            version,
            from,
            to,
            opened,
            digest,
            scratch.as_mut_slice(),
            gate,
        )
    }

    /// How many bytes a slot has.
    fn slot_len(&self) -> usize
        ensures { result ≡ self.now.geometry.page_bytes + 64 }
    {
        self.geometry.page_bytes as usize + TAG_BYTES
    }
}

/// The first call of a job, which an image refuses that is not there.
fn fault_of(flight: Flight) -> ImageFault {
    match flight {
        Flight::Header { .. } => ImageFault::WriteHeader,
        Flight::Move { .. } | Flight::Read { .. } => ImageFault::ReadSlot,
        Flight::Program { .. } => ImageFault::Program,
        Flight::Erase { .. } | Flight::Sync { .. } => ImageFault::Sync,
    }
}
