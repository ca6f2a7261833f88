//! A job that a die has taken, with all that its calls want.
ghost use Rattle.fa_core_outcome.specs.Fits.{IsJobFor};
ghost use Rattle.fa_core_outcome.specs.Handed.{handed_of};
ghost use Rattle.fa_jobs.specs.Orders.{IsJobFor-prop};

use fa_core_outcome::{Job, Outcome};
use fa_image::Image;
use fa_jobs::{Open, run_job};
use fa_machine::Flight;
use fa_types::{Die, Geometry, TAG_BYTES};
use flasharr_lab_parts::Heap;

/// A job that a die has taken, of an array of this geometry and number.
#[derive(Drop)]
pub struct Taken<'a> {
    die: Die,
    geometry: Geometry,
    array: [u8; 16],
    job: Job<&'a Heap>,
    ghost fits: { IsJobFor geometry array die.0 (handed_of job) } by { IsJobFor-prop geometry array die.0 (handed_of job) },
}

/// The job that was handed out.
pub(crate) fn taken_of<'a>(
    die: Die,
    geometry: Geometry,
    array: [u8; 16],
    job: Job<&'a Heap>,
) -> Taken<'a>
    requires { IsJobFor geometry array die.0 (handed_of job) }
{
    Taken {
        die,
        geometry,
        array,
        job,
    }
}

impl<'a> Taken<'a> {
    /// What it is to do.
    pub(crate) fn flight(&self) -> Flight {
        self.job.flight
    }

    /// The die.
    pub fn die(&self) -> Die {
        self.die
    }

    /// Makes the job's calls on the image, and tells how the job ended. None is made where the memory has another size than the image
    /// wants.
    pub(crate) fn run<I: Image>(
        &self,
        image: &mut I,
        scratch: &mut Vec<u8, &'a Heap>,
        buffer: &mut Vec<u8, &'a Heap>,
    ) -> Outcome {
        let page_bytes = self.geometry.page_bytes as usize;
        if image.geometry() != self.geometry
            || scratch.len() != page_bytes + TAG_BYTES
            || buffer.len() != page_bytes
        {
            return Outcome::Wrong;
        }
        run_job(
            self.die,
            image,
            &self.array,
            &self.job,
            scratch,
            buffer,
            &Open,
        )
    }
}
