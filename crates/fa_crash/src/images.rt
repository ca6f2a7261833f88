//! What flushes mean for an array that is driven over images.
ghost use Rattle.std.specs.Prelude.{◌≡◌, ℕ, ◌++◌, ◌≤◌, List, ◌∷◌, Ok, Option};
ghost use Rattle.fa_crash.specs.Flushed.{AreOfLast, IsPromised};
ghost use Rattle.fa_crash.specs.Unsynced.{Unsynced, nothing_unsynced, number_of};
ghost use Rattle.fa_crash.specs.Whole.{RunWhole};
ghost use Rattle.fa_crash.specs.Images.{WriteWhole};
ghost use Rattle.fa_machine.specs.Beginning.{IsBeginning};
ghost use Rattle.fa_machine.specs.Run.{Happening};
ghost use Rattle.fa_machine.specs.Step.{FlushBegin, FlushState};
ghost use Rattle.fa_machine.specs.World.{World};
ghost use Rattle.fa_machine.specs.declared.answers.Flush.{Flush};
ghost use Rattle.fa_machine.specs.declared.answers.FlushState.TheVariants.{Synced};
ghost use Rattle.fa_mount_close_laws.specs.Drives.{AreHonest, AreImages, Drive, Driven, Drives, MakesEvent, acts_of, beginning, events_of};

use fa_image::Image;
use fa_laws::steps::the_geometry_is_kept;

/// What drives an array over images that write whole is a run of which the laws of crashes speak, with the same events. It leads to the
/// array's state, and to a world that sees what stands in the slots at the end. Where a flush was begun and is answered as synced, each
/// page is promised with the number that it had as the flush began. The images return what was written.
pub fn what_drives_whole_images_is_a_whole_run<I: Image>()
    ensures run { (first : World) (array : List ℕ) (images : ℕ → Option I) (drives : List Drive) (last : Driven I) → IsBeginning first
        → AreImages I.view first images → Drives I.made array (beginning first.core images) drives last → AreHonest I.honest last.images
        → WriteWhole I.view I.made
        → (happenings : List Happening) × (w : World) × (u : Unsynced) × RunWhole first (nothing_unsynced first) happenings w u
        × (events_of happenings ≡ acts_of drives) × (w.core ≡ last.core) × AreImages I.view w last.images }
    ensures promised { (first : World) (array : List ℕ) (images : ℕ → Option I) (earlier during later : List Drive) (at last : Driven I)
        (flush : Flush) → IsBeginning first → AreOfLast first → AreImages I.view first images
        → Drives I.made array (beginning first.core images) earlier at
        → Drives I.made array at (MakesEvent (FlushBegin (Ok flush)) ∷ during ++ MakesEvent (FlushState flush Synced) ∷ later) last
        → AreHonest I.honest last.images → WriteWhole I.view I.made
        → (w : World) × (u : Unsynced) × (w.core ≡ last.core) × AreImages I.view w last.images
        × ((page : ℕ) → 1 ≤ number_of at.core page → IsPromised first page (number_of at.core page) w u) }
{
    the_geometry_is_kept();
}
