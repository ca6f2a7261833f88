//! A job's calls of its die's image.
ghost use Rattle.std.specs.Prelude.{◌≡◌, length};
ghost use Rattle.fa_core_outcome.specs.Outcomes.{outcome_of};
ghost use Rattle.fa_image.specs.Image.{slot_bytes};
ghost use Rattle.fa_core_outcome.specs.Handed.{handed_of};
ghost use Rattle.fa_jobs.specs.Made.{Ran};
ghost use Rattle.fa_core_outcome.specs.Fits.{IsJobFor};

use crate::gate::Gate;
use crate::header::run_header;
use crate::moving::run_move;
use crate::reading::run_read;
use crate::writing::{run_erase, run_program, run_sync};
use fa_core_outcome::{Job, Outcome};
use fa_image::Image;
use fa_machine::Flight;
use fa_types::Die;
use std::alloc::Allocator;

/// Makes the calls of a job on its die's image, one or two, each with the gate before it and behind it, and tells how the job ended. It
/// takes no memory: `scratch` has a slot's bytes, and `buffer` a page's, which are what a read gave where the outcome is one. The two may
/// have changed places then.
pub fn run_job<I: Image, G: Gate, A: Allocator, B: Allocator>(
    die: Die,
    image: &mut I,
    array: &[u8; 16],
    job: &Job<A>,
    scratch: &mut Vec<u8, B>,
    buffer: &mut Vec<u8, B>,
    gate: &G,
) -> Outcome
    requires job { IsJobFor (I.view image.old).geometry array.now die.0 (handed_of job.now) }
    requires scratch { length scratch.old.items ≡ slot_bytes (I.view image.old).geometry }
    requires buffer { length buffer.old.items ≡ (I.view image.old).geometry.page_bytes }
    ensures ran { Ran I.made (I.view image.old).geometry array.now die.0 (handed_of job.now) (outcome_of result buffer.new.items)
        image.old image.new }
    ensures geometry { (I.view image.new).geometry ≡ (I.view image.old).geometry }
    ensures scratch { length scratch.new.items ≡ length scratch.old.items }
    ensures buffer { length buffer.new.items ≡ length buffer.old.items }
{
    match job.flight {
        Flight::Header { epoch, live } => run_header(die, image, array, epoch, live, gate),
        Flight::Move {
            page,
            version,
            from,
            to,
        } => run_move(
            die,
            image,
            page,
            version,
            from,
            to,
            scratch.as_mut_slice(),
            gate,
        ),
        Flight::Erase { block } => run_erase(die, image, block, gate),
        Flight::Read { slot, .. } => run_read(die, image, slot, scratch, buffer, gate),
        Flight::Program {
            page,
            version,
            slot,
        } => match &job.payload {
            Some(payload) => {
                run_program(
                    die,
                    image,
                    page,
                    version,
                    slot,
                    payload,
                    job.lasting,
                    scratch.as_mut_slice(),
                    gate,
                )
            }
            None => Outcome::Wrong,
        },
        Flight::Sync { .. } => run_sync(die, image, gate),
    }
}
