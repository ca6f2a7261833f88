//! What a request comes to over the store of one thread.
ghost use Rattle.std.specs.Prelude.{◌≡◌, ◌⊎◌, ℕ, ◌*◌, ◌≤◌, List, None};
ghost use Rattle.fa_solo_laws.specs.Begun.{IsCalm};
ghost use Rattle.fa_solo_laws.specs.Calls.{HasBytes, call_of};
ghost use Rattle.fa_solo_laws.specs.Shown.{store_of};
ghost use Rattle.fa_solo_laws.specs.Driving.{image_on};
ghost use Rattle.fa_solo_laws.specs.Standing.{IsCopyGivenUp, IsRequestGivenUp, IsWorldOf};
ghost use Rattle.fa_machine.specs.World.{World};
ghost use Rattle.fa_mount.specs.Standings.{AreApart};
ghost use Rattle.fa_shared_steps.specs.Tasks.{end_of, task_of};
ghost use Rattle.fa_shared_steps.specs.declared.request.Request.{Request};
ghost use Rattle.fa_mount_close_laws.specs.Drives.{AreHonest};
ghost use Rattle.fa_solo.specs.Calls.{MakesRequest, MakesWhole};
ghost use Rattle.fa_solo_job.specs.declared.inner.Inner.{Inner};
ghost use Rattle.fa_types.specs.Store.{Answer, IsAnswer, Meets, Serves};

use crate::requests::a_request_serves;
use fa_image::Image;
use fa_laws::steps::{
    flushes_are_counted, live_dies_are_kept, numbers_are_kept, spares_are_kept,
    the_geometry_is_kept, the_last_number_never_falls, the_round_is_kept,
};

/// A request of the store of one thread serves, as a store that is alone does: over any world that the store's array and images are of, it
/// leads to one that they are of then, with its answer. A read that is answered gives the bytes of the plain array, an accepted write
/// leaves its bytes and nothing else, and a refusal has its cause. Or the request was given up: it took 2^64 - 1 turns and had not ended.
/// It was refused as lost, and the array and its images are of a world still to which runs lead. The images return what was written, no two
/// dies have one image, no lost page is being copied, and the request lies within the array.
pub fn a_request_of_the_store_serves<L, M, I: Image, A>()
    ensures { (old new : Inner L M I A) (request : Request) (bytes : List ℕ) (answer : Answer) (w : World) → IsWorldOf I.view old w
        → IsCalm w
        → AreApart old.dies.items → end_of request ≤ w.core.page_map.geometry.pages * w.core.page_map.geometry.page_bytes
        → HasBytes request bytes → IsAnswer (call_of request bytes) answer
        → (makes : MakesRequest I.made (task_of w.core.page_map.geometry.page_bytes request) bytes answer old new)
        → AreHonest I.honest (image_on new.dies.items new.images.items)
        → (v : World) × IsWorldOf I.view new v × (Serves (store_of w) (call_of request bytes) answer (store_of v)
        ⊎ IsRequestGivenUp I.made (task_of w.core.page_map.geometry.page_bytes request) bytes answer old new makes) }
{
    the_geometry_is_kept();
    a_request_serves::<A>();
}

/// A call of the store of one thread meets what a store that is alone is asked for: over any world that the store's array and images are
/// of, it leads to one that they are of then, with its answer. A read that is answered gives the bytes of the plain array, and no page of
/// it was lost; an accepted write leaves its bytes and nothing else; a refusal has its cause as the call ends. That is told of the whole
/// call, with the spares that are brought in before its request, and with what is done for the array's order behind it. Or its request was
/// given up: it took 2^64 - 1 turns and had not ended, and was refused as lost. No copy of a page is under way as the call begins, nor as
/// it ends, unless one was looked at 2^64 - 1 times in vain. The images return what was written, no two dies have one image, and the
/// request lies within the array.
pub fn a_call_of_the_store_meets<L, M, I: Image, A>()
    ensures { (old new : Inner L M I A) (request : Request) (bytes : List ℕ) (answer : Answer) (w : World) → IsWorldOf I.view old w
        → old.locked.core.copying ≡ None → AreApart old.dies.items
        → end_of request ≤ w.core.page_map.geometry.pages * w.core.page_map.geometry.page_bytes → HasBytes request bytes
        → IsAnswer (call_of request bytes) answer
        → (call : MakesWhole I.made (task_of w.core.page_map.geometry.page_bytes request) bytes answer old new)
        → AreHonest I.honest (image_on new.dies.items new.images.items)
        → (last : World) × IsWorldOf I.view new last × (Meets (store_of w) (call_of request bytes) answer (store_of last)
        ⊎ IsRequestGivenUp I.made (task_of w.core.page_map.geometry.page_bytes request) bytes answer call.begun call.done call.request)
        × ((new.locked.core.copying ≡ None)
        ⊎ IsCopyGivenUp I.made (task_of w.core.page_map.geometry.page_bytes request) bytes answer old new call) }
{
    live_dies_are_kept();
    spares_are_kept();
    numbers_are_kept();
    the_geometry_is_kept();
    the_last_number_never_falls();
    flushes_are_counted();
    the_round_is_kept();
    a_request_serves::<A>();
}
