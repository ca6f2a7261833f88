//! What the flush of the store of one thread means.
ghost use Rattle.std.specs.Prelude.{◌≡◌, ℕ, ◌≤◌, List, true};
ghost use Rattle.fa_crash.specs.Flushed.{AreOfLast, IsPromised};
ghost use Rattle.fa_crash.specs.Unsynced.{Unsynced, nothing_unsynced, number_of};
ghost use Rattle.fa_crash.specs.Whole.{RunWhole};
ghost use Rattle.fa_machine.specs.Beginning.{IsBeginning};
ghost use Rattle.fa_machine.specs.Run.{Happening, Run};
ghost use Rattle.fa_machine.specs.World.{World};
ghost use Rattle.fa_mount.specs.Standings.{AreApart};
ghost use Rattle.fa_mount_close_laws.specs.Drives.{AreHonest};
ghost use Rattle.fa_shared_steps.specs.declared.request.Task.{Task};
ghost use Rattle.fa_solo.specs.Calls.{MakesWhole};
ghost use Rattle.fa_solo_job.specs.declared.inner.Inner.{Inner};
ghost use Rattle.fa_solo_laws.specs.Driving.{image_on};
ghost use Rattle.fa_solo_laws.specs.Standing.{IsWorldOf};
ghost use Rattle.fa_types.specs.Store.{Done};

use fa_image::Image;
use fa_laws::steps::{
    a_commit_raises_the_number, live_dies_are_kept, numbers_are_kept, spares_are_kept,
    the_geometry_is_kept, the_last_number_never_falls,
};
use fa_sound::sound::{a_beginning_is_sound, a_step_keeps_sound};

/// A flush of the store of one thread that is accepted, or any other call with a flush, promises each page with the number that it has as
/// the call ends, and so with what was written before it and what it wrote itself. Over any world that the array and its images are of as
/// the call begins, it is a run to one that they are of as it ends; where its refused writes are whole, the pages are promised behind it.
/// The images return what was written, and no two dies have one image.
pub fn a_flush_of_the_store_promises_each_page<L, M, I: Image, A>()
    ensures { (old new : Inner L M I A) (task : Task) (bytes : List ℕ) (first w : World) (earlier : List Happening) (u : Unsynced)
        → IsBeginning first → AreOfLast first → RunWhole first (nothing_unsynced first) earlier w u → IsWorldOf I.view old w
        → AreApart old.dies.items → task.flush ≡ true → MakesWhole I.made task bytes Done old new
        → AreHonest I.honest (image_on new.dies.items new.images.items)
        → (happenings : List Happening) × (last : World) × Run w happenings last × IsWorldOf I.view new last
        × ((v : Unsynced) (page : ℕ) → RunWhole w u happenings last v → 1 ≤ number_of last.core page
        → IsPromised first page (number_of last.core page) last v) }
{
    a_beginning_is_sound();
    a_step_keeps_sound();
    live_dies_are_kept();
    spares_are_kept();
    numbers_are_kept();
    a_commit_raises_the_number();
    the_geometry_is_kept();
    the_last_number_never_falls();
}
