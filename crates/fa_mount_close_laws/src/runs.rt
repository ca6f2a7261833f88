//! Laws, each the contract of a function with no code.
ghost use Rattle.std.specs.Prelude.{◌≡◌, ℕ, Bool, IsTrue, List, None, Option, Some, [], false, length, map};
ghost use Rattle.std.specs.List.{AllByRecursion};
ghost use Rattle.fa_mount_close_laws.specs.Closed.{AreOfMask};
ghost use Rattle.fa_mount_close_laws.specs.Mounted.{LastCopiesAgree};
ghost use Rattle.fa_mount_headers.specs.declared.judging.Standing.{Standing};
ghost use Rattle.fa_machine.specs.Beginning.{IsBeginning};
ghost use Rattle.fa_machine.specs.Cells.{Cell, Outcome};
ghost use Rattle.fa_machine.specs.Run.{Happening, ImageCall, Run};
ghost use Rattle.fa_machine.specs.State.{Core};
ghost use Rattle.fa_machine.specs.Step.{Done};
ghost use Rattle.fa_machine.specs.Taking.{Handed};
ghost use Rattle.fa_machine.specs.World.{IsTold, Work, World, outcome_of};
ghost use Rattle.fa_mount_close_laws.specs.DrivenClosed.{ClosesDriven};
ghost use Rattle.fa_mount_close_laws.specs.Drives.{AreHonest, AreImages, Drive, Driven, Drives, HasEvent, IsOwed, MakesCall, MakesNext};
ghost use Rattle.fa_mount_close_laws.specs.Drives.{OnlyMade, acts_of, beginning, events_of};
ghost use Rattle.fa_mount.specs.MountsArray.{MountsArray};
ghost use Rattle.fa_mount_close_laws.specs.Images.{IsImageOf, OnlyCalled};
ghost use Rattle.fa_mount_close_laws.specs.DrivenMounted.{images_on};
ghost use Rattle.fa_mount_scan.specs.ContentCells.{IsCellOf};
ghost use Rattle.fa_mount_scan.specs.MountedWorld.{CopiesAgree, IsMountedWorld, bytes_of, is_spare_of};
ghost use Rattle.fa_core_outcome.specs.Fits.{IsJobFor};
ghost use Rattle.fa_jobs.specs.Made.{Ran};

use crate::closing::{a_closed_array_is_mounted_again, a_mounted_world_has_no_newer_cell};
use fa_image::Image;
use fa_laws::steps::the_geometry_is_kept;

/// Any bytes of a slot are a cell of the array's machine, also those that a refused write has left.
pub fn any_bytes_are_a_cell()
    ensures { (bytes : List ℕ) → (cell : Cell) × IsCellOf bytes cell }
{}

/// The calls that a job makes of its die's image are calls that the array's machine makes, one for one, in a world that has this job in
/// flight on the die and sees the image's slots. The world that they lead to sees what then stands in the slots, and nothing else of it
/// has changed. There a Done of the die may tell the job's outcome, and no other. The image returns what was written.
pub fn a_job_makes_the_worlds_calls<I: Image>()
    ensures { (w : World) (array : List ℕ) (die : ℕ) (job : Handed) (outcome : Outcome) (before after : I)
        → w.works die ≡ Some (record { job = job; gave = [] }) → IsJobFor w.core.page_map.geometry array die job
        → IsImageOf I.view w die before → (ran : Ran I.made w.core.page_map.geometry array die job outcome before after)
        → IsTrue (I.honest after)
        → (v : World) × Run w (map (ImageCall die) ran.gave) v × OnlyCalled w die v × IsImageOf I.view v die after
        × IsTold v (Done die outcome) }
{}

/// The calls that a job makes of its die's image drive the array, one for one. They change the image and what the job was given, and
/// nothing else. A Done may then tell the job's outcome.
pub fn a_job_drives_the_array<I: Image>()
    ensures { (old : Driven I) (array : List ℕ) (die : ℕ) (job : Handed) (outcome : Outcome) (before after : I)
        → old.works die ≡ Some (record { job = job; gave = [] }) → old.images die ≡ Some before
        → IsJobFor old.core.page_map.geometry array die job
        → (ran : Ran I.made old.core.page_map.geometry array die job outcome before after)
        → (new : Driven I) × Drives I.made array old (map (λ gave. MakesCall die) ran.gave) new
        × OnlyMade old die (record { job = job; gave = ran.gave }) after new × IsOwed new (Done die outcome) }
{}

/// What drives an array over images, from a world on from which runs begin and that sees what stands in their slots, is a run of the
/// array's machine with the same events. It leads to the array's state, and to a world that sees what stands in the slots at the end. The
/// images return what was written.
pub fn what_drives_an_array_is_a_run<I: Image>()
    ensures { (first : World) (array : List ℕ) (images : ℕ → Option I) (drives : List Drive) (last : Driven I) → IsBeginning first
        → AreImages I.view first images → Drives I.made array (beginning first.core images) drives last → AreHonest I.honest last.images
        → (happenings : List Happening) × (w : World) × Run first happenings w × (events_of happenings ≡ acts_of drives)
        × (w.core ≡ last.core) × AreImages I.view w last.images }
{
    the_geometry_is_kept();
}

/// What is mounted of images, and what then drives the array over them, is a run of the array's machine from a beginning: from a world
/// over what stands in the slots of the images as they were mounted. The images return what was written, as they are mounted and as they
/// are at the end, and the current copies of one page have one payload.
pub fn what_is_mounted_and_driven_is_a_run<I: Image, A>()
    ensures { (copies : ℕ) (unclean : Bool) (before after : List I) (array : List ℕ) (dies : List Standing) (core : Core)
        (drives : List Drive) (last : Driven I) → MountsArray A I.view I.made copies unclean before after array dies core
        → length dies ≡ core.page_map.geometry.dies → CopiesAgree (bytes_of (map I.view after) dies) core.page_map
        → AllByRecursion (λ image. IsTrue (I.honest image)) after
        → Drives I.made array (beginning core (images_on dies after)) drives last → AreHonest I.honest last.images
        → (first : World) × (happenings : List Happening) × (w : World) × (first.core ≡ core)
        × IsMountedWorld (bytes_of (map I.view after) dies) (is_spare_of dies) first × IsBeginning first × Run first happenings w
        × (events_of happenings ≡ acts_of drives) × (w.core ≡ last.core) × AreImages I.view w last.images }
{
    the_geometry_is_kept();
}

/// What is mounted, then driven, and then closed, and is mounted again without leave for an unclean one, of the images of the dies that
/// closing left, has the plain array to which the run leads. The images return what was written, and the copies of last writes agree as the
/// array is first mounted.
pub fn what_was_driven_and_closed_is_mounted_again<I: Image, A>()
    ensures { (copies : ℕ) (unclean : Bool) (before after : List I) (array : List ℕ) (dies : List Standing) (core : Core)
        (drives : List Drive) (last : Driven I) (closing closed these later : List I) (mask again : ℕ) (number : List ℕ)
        (stands : List Standing) (next : Core) → MountsArray A I.view I.made copies unclean before after array dies core
        → length dies ≡ core.page_map.geometry.dies → CopiesAgree (bytes_of (map I.view after) dies) core.page_map
        → LastCopiesAgree (bytes_of (map I.view after) dies) core.page_map → AllByRecursion (λ image. IsTrue (I.honest image)) after
        → Drives I.made array (beginning core (images_on dies after)) drives last → AreHonest I.honest last.images
        → ClosesDriven I.made last array dies closing closed mask → AreOfMask dies mask closed these
        → (mounts : MountsArray A I.view I.made again false these later number stands next) → length stands ≡ next.page_map.geometry.dies
        → AllByRecursion (λ image. IsTrue (I.honest image)) mounts.mounts.between
        → AllByRecursion (λ image. IsTrue (I.honest image)) later
        → (first : World) × (happenings : List Happening) × (w v : World) × (first.core ≡ core) × IsBeginning first
        × Run first happenings w × (events_of happenings ≡ acts_of drives) × (w.core ≡ last.core)
        × (v.core ≡ next) × IsMountedWorld (bytes_of (map I.view later) stands) (is_spare_of stands) v × IsBeginning v
        × (v.plain ≡ w.plain) }
{
    the_geometry_is_kept();
    a_mounted_world_has_no_newer_cell();
    a_closed_array_is_mounted_again::<I, A>();
}

/// A Done tells the outcome that its job's calls gave, so it comes after them, and a call is one of a job that is in flight.
pub fn wrong_drives_are_none<I: Image>()
    ensures told { (old new : Driven I) (die : ℕ) (work : Work) (outcome : Outcome) → old.works die ≡ Some work
        → HasEvent old (Done die outcome) new → outcome_of die work.job work.gave ≡ Some outcome }
    ensures early { (old new : Driven I) (die : ℕ) (job : Handed) (outcome : Outcome)
        → old.works die ≡ Some (record { job = job; gave = [] }) → ¬ (HasEvent old (Done die outcome) new) }
    ensures untaken { (old new : Driven I) (array : List ℕ) (die : ℕ) → old.works die ≡ None → ¬ (MakesNext I.made array old die new) }
{}
