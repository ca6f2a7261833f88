//! How a die goes out in a call of the store of one thread.
ghost use Rattle.std.specs.Prelude.{◌≡◌, ℕ, List, Some, true, false};
ghost use Rattle.std.specs.FinMap.{contains_key};
ghost use Rattle.fa_solo_laws.specs.Driving.{image_on};
ghost use Rattle.fa_solo_laws.specs.Standing.{IsWorldOf};
ghost use Rattle.fa_image.specs.Image.{one_more};
ghost use Rattle.fa_machine.specs.State.{is_live};
ghost use Rattle.fa_machine.specs.World.{World};
ghost use Rattle.fa_mount.specs.Standings.{AreApart};
ghost use Rattle.fa_shared_steps.specs.declared.request.Task.{Task};
ghost use Rattle.fa_mount_close_laws.specs.Drives.{AreHonest};
ghost use Rattle.fa_solo.specs.Calls.{MakesWhole};
ghost use Rattle.fa_solo_job.specs.declared.inner.Inner.{Inner};
ghost use Rattle.fa_types.specs.Store.{Answer};

use fa_image::Image;
use fa_laws::promises::a_die_leaves_only_with_a_fault;
use fa_laws::steps::{
    a_sync_is_of_its_take, flushes_are_counted, live_dies_are_kept, numbers_are_kept,
    spares_are_kept, synced_rises_by_a_sync, the_geometry_is_kept, the_last_number_never_falls,
};

/// In a call of the store of one thread a die goes out only with a fault of its image. Over any world that the store's array and images are
/// of as the call begins, a die that is live then and is not live as it ends has an image that has refused one call more, and so another
/// number of faults. The same is told of a spare that is none any more as the call ends, and is not live. The images return what was
/// written, and no two dies have one image.
pub fn a_die_leaves_the_store_only_with_a_fault<L, M, I: Image, A>()
    ensures live { (old new : Inner L M I A) (task : Task) (bytes : List ℕ) (answer : Answer) (w : World) (die : ℕ) (before after : I)
        → IsWorldOf I.view old w → AreApart old.dies.items → MakesWhole I.made task bytes answer old new
        → AreHonest I.honest (image_on new.dies.items new.images.items)
        → is_live old.locked.core.page_map die ≡ true → is_live new.locked.core.page_map die ≡ false
        → image_on old.dies.items old.images.items die ≡ Some before → image_on new.dies.items new.images.items die ≡ Some after
        → ((I.view after).faults ≡ one_more (I.view before).faults) × ((I.view after).faults ≡ (I.view before).faults → ⊥) }
    ensures spare { (old new : Inner L M I A) (task : Task) (bytes : List ℕ) (answer : Answer) (w : World) (die : ℕ) (before after : I)
        → IsWorldOf I.view old w → AreApart old.dies.items → MakesWhole I.made task bytes answer old new
        → AreHonest I.honest (image_on new.dies.items new.images.items)
        → contains_key old.locked.core.spares die ≡ true
        → is_live new.locked.core.page_map die ≡ false → contains_key new.locked.core.spares die ≡ false
        → image_on old.dies.items old.images.items die ≡ Some before → image_on new.dies.items new.images.items die ≡ Some after
        → ((I.view after).faults ≡ one_more (I.view before).faults) × ((I.view after).faults ≡ (I.view before).faults → ⊥) }
{
    live_dies_are_kept();
    spares_are_kept();
    numbers_are_kept();
    the_geometry_is_kept();
    the_last_number_never_falls();
    synced_rises_by_a_sync();
    a_sync_is_of_its_take();
    flushes_are_counted();
    a_die_leaves_only_with_a_fault();
}
