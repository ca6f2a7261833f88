//! What a flush of the store of one thread comes to for the images.
ghost use Rattle.std.specs.Prelude.{◌≡◌, ℕ, ◌+◌, ◌%◌, ◌^◌, ◌≤◌, List, Some, true};
ghost use Rattle.fa_solo_laws.specs.Driving.{image_on};
ghost use Rattle.fa_solo_laws.specs.Standing.{IsWorldOf};
ghost use Rattle.fa_machine.specs.State.{is_live};
ghost use Rattle.fa_machine.specs.World.{World};
ghost use Rattle.fa_mount.specs.Standings.{AreApart};
ghost use Rattle.fa_shared_steps.specs.declared.request.Task.{Task};
ghost use Rattle.fa_mount_close_laws.specs.Drives.{AreHonest};
ghost use Rattle.fa_solo.specs.Calls.{MakesWhole};
ghost use Rattle.fa_solo_job.specs.declared.inner.Inner.{Inner};
ghost use Rattle.fa_types.specs.Store.{Answer, Done};

use fa_image::Image;
use fa_laws::promises::a_die_leaves_only_with_a_fault;
use fa_laws::steps::{
    a_sync_is_of_its_take, flushes_are_counted, live_dies_are_kept, no_older_sync_answers_a_flush,
    numbers_are_kept, spares_are_kept, synced_rises_by_a_sync, the_geometry_is_kept,
    the_last_number_never_falls,
};

/// A flush of the store of one thread that is accepted syncs, and so does any other call with a flush. Over any world that the array and
/// its images are of as the call begins, the image of each die that is live then and as it ends has accepted a sync meanwhile, or more than
/// one. It counts them, and begins anew behind 2^64 - 1. The images return what was written, and no two dies have one image.
pub fn a_flush_of_the_store_syncs<L, M, I: Image, A>()
    ensures { (old new : Inner L M I A) (task : Task) (bytes : List ℕ) (w : World) (die : ℕ) (before after : I)
        → IsWorldOf I.view old w → AreApart old.dies.items → task.flush ≡ true → MakesWhole I.made task bytes Done old new
        → AreHonest I.honest (image_on new.dies.items new.images.items)
        → is_live old.locked.core.page_map die ≡ true → is_live new.locked.core.page_map die ≡ true
        → image_on old.dies.items old.images.items die ≡ Some before → image_on new.dies.items new.images.items die ≡ Some after
        → (count : ℕ) × (1 ≤ count) × ((I.view after).syncs ≡ ((I.view before).syncs + count) % 2 ^ 64) }
{
    live_dies_are_kept();
    spares_are_kept();
    numbers_are_kept();
    the_geometry_is_kept();
    the_last_number_never_falls();
    synced_rises_by_a_sync();
    a_sync_is_of_its_take();
    flushes_are_counted();
    no_older_sync_answers_a_flush();
    a_die_leaves_only_with_a_fault();
}
