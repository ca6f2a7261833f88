//! What a read that was begun comes to.
ghost use Rattle.std.specs.Prelude.{◌≡◌, ◌+◌, ℕ, List, length};
ghost use Rattle.fa_core_outcome.specs.Outcomes.{outcome_of};
ghost use Rattle.fa_core_outcome.specs.declared.outcome.Outcome.{Outcome};
ghost use Rattle.fa_image.specs.Image.{Gave, ReadingSlot};
ghost use Rattle.fa_machine.specs.Taking.{Handed};
ghost use Rattle.fa_machine.specs.declared.ids.BatchId.{BatchId};
ghost use Rattle.fa_machine.specs.declared.jobs.Flight.TheVariants.{Read};
ghost use Rattle.fa_machine.specs.declared.places.Version.{Version};
ghost use Rattle.fa_types.specs.declared.geometry.Geometry.{Geometry};
ghost use Rattle.fa_types.specs.declared.numbers.Page.{Page};
ghost use Rattle.fa_types.specs.declared.numbers.Slot.{Slot};
ghost use Rattle.fa_jobs.specs.Opens.{Opens};
ghost use Rattle.fa_jobs.specs.Made.{Ran};

use fa_image::Image;

/// A read whose slot was read by one call of its die's image has run, as `run_job` runs it, once that slot is opened and its payload handed
/// out.
pub fn a_read_that_is_opened_has_run<I: Image>()
    ensures { (geometry : Geometry) (array : List ℕ) (die : ℕ) (job : Handed) (batch : BatchId) (page : Page) (version : Version)
        (slot : Slot)
        (bytes handed : List ℕ) (outcome : Outcome) (before after : I) → job.flight ≡ Read batch page version slot
        → I.made before (ReadingSlot slot.0) (Gave bytes) after → length bytes ≡ geometry.page_bytes + 64
        → Opens bytes geometry.page_bytes outcome handed
        → Ran I.made geometry array die job (outcome_of outcome handed) before after }
{}
