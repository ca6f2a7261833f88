//! What any request comes to.
ghost use Rattle.std.specs.Prelude.{◌≡◌, ◌≢◌, ℕ, ◌<◌, ◌/◌, Bool, List, None, Option, Some, false, length, slice_index};
ghost use Rattle.fa_solo_laws.specs.Asked.{Asked, Moment, Strayed, Turn, TurnsTo};
ghost use Rattle.fa_solo_laws.specs.Begun.{HasBegun, IsCalm};
ghost use Rattle.fa_solo_laws.specs.Calls.{HasBytes, answer_of, call_of};
ghost use Rattle.fa_solo_laws.specs.Shown.{store_of};
ghost use Rattle.fa_laws.specs.Reached.{IsReached};
ghost use Rattle.fa_machine.specs.Beginning.{IsBeginning};
ghost use Rattle.fa_machine.specs.World.{World};
ghost use Rattle.fa_shared_steps.specs.Tasks.{task_of};
ghost use Rattle.fa_shared_steps.specs.declared.request.Request.{Request};
ghost use Rattle.fa_shared_steps.specs.declared.request.Task.{Task};
ghost use Rattle.fa_shared_steps.specs.declared.request.Request.TheVariants.{Write};
ghost use Rattle.fa_shared_steps.specs.declared.stage.Stage.TheVariants.{Ended};
ghost use Rattle.fa_types.specs.Store.{IsWhole, Meets, Serves, with_bytes};
ghost use Rattle.fa_types.specs.declared.blocks.BlockFault.{BlockFault};
ghost use Rattle.fa_types.specs.declared.blocks.BlockFault.TheVariants.{NoRoom, Spent};

use fa_laws::steps::{
    live_dies_are_kept, numbers_are_kept, spares_are_kept, the_geometry_is_kept,
    the_last_number_never_falls,
};

/// A request that nobody else writes meanwhile serves, as a store that is alone does. A read gives the bytes of its range. A write, a zero
/// or a trim leaves its bytes and nothing else. A flush writes nothing. One that is refused has a cause, and leaves a beginning of its
/// bytes. What is answered is one of the answers that its call can have. The first request may begin over an array that was just mounted,
/// and where one ends another may begin, over a world that runs lead to.
pub fn a_request_serves<A>()
    ensures serves { (request : Request) (seat : ℕ) (bytes : List ℕ) (before after : Moment A) (turns : List Turn) (end : Option BlockFault)
        → HasBegun request before → HasBytes request bytes
        → Asked (task_of before.world.core.page_map.geometry.page_bytes request) seat bytes before turns after → after.stage ≡ Ended end
        → Serves (store_of before.world) (call_of request bytes) (answer_of request end after.answer) (store_of after.world) }
    ensures meets { (request : Request) (seat : ℕ) (bytes : List ℕ) (before after : Moment A) (turns : List Turn) (end : Option BlockFault)
        → HasBegun request before → HasBytes request bytes
        → Asked (task_of before.world.core.page_map.geometry.page_bytes request) seat bytes before turns after → after.stage ≡ Ended end
        → Meets (store_of before.world) (call_of request bytes) (answer_of request end after.answer) (store_of after.world) }
    ensures reached { (t : Task) (seat : ℕ) (bytes : List ℕ) (before after : Moment A) (turns : List Turn) → IsReached before.world
        → Asked t seat bytes before turns after → IsReached after.world }
    ensures calm { (w : World) → IsBeginning w → IsReached w × IsCalm w }
    ensures whole { (w : World) → IsReached w → IsWhole (store_of w) }
{
    live_dies_are_kept();
    spares_are_kept();
    numbers_are_kept();
    the_geometry_is_kept();
    the_last_number_never_falls();
}

/// No request strays: the conditions of its events hold whenever it makes one. No write ends without a fault where a byte that is not lost
/// is another one than it wrote, or than it was. None is refused for want of room where a die may be collected, or as spent where no
/// counter is at its end.
pub fn wrong_requests_are_none<A>()
    ensures strays { (request : Request) (seat : ℕ) (bytes : List ℕ) (before middle after : Moment A) (turns : List Turn)
        → HasBegun request before → HasBytes request bytes
        → Asked (task_of before.world.core.page_map.geometry.page_bytes request) seat bytes before turns middle
        → ¬ (TurnsTo (task_of before.world.core.page_map.geometry.page_bytes request) seat bytes middle Strayed after) }
    ensures bytes { (offset len seat i : ℕ) (fua : Bool) (bytes : List ℕ) (before after : Moment A) (turns : List Turn)
        → HasBegun (Write offset len fua) before → length bytes ≡ len → i < (store_of after.world).size
        → (store_of after.world).lost (i / (store_of after.world).page_bytes) ≡ false
        → slice_index (store_of after.world).content i ≢ slice_index (with_bytes offset bytes (store_of before.world).content) i
        → after.stage ≡ Ended None
        → ¬ (Asked (task_of before.world.core.page_map.geometry.page_bytes (Write offset len fua)) seat bytes before turns after) }
    ensures room { (offset len seat : ℕ) (fua : Bool) (bytes : List ℕ) (before after : Moment A) (turns : List Turn)
        → HasBegun (Write offset len fua) before → length bytes ≡ len → (store_of after.world).no_room ≡ false
        → after.stage ≡ Ended (Some NoRoom)
        → ¬ (Asked (task_of before.world.core.page_map.geometry.page_bytes (Write offset len fua)) seat bytes before turns after) }
    ensures spent { (offset len seat : ℕ) (fua : Bool) (bytes : List ℕ) (before after : Moment A) (turns : List Turn)
        → HasBegun (Write offset len fua) before → length bytes ≡ len → (store_of after.world).spent ≡ false
        → after.stage ≡ Ended (Some Spent)
        → ¬ (Asked (task_of before.world.core.page_map.geometry.page_bytes (Write offset len fua)) seat bytes before turns after) }
{
    live_dies_are_kept();
    spares_are_kept();
    numbers_are_kept();
    the_geometry_is_kept();
    the_last_number_never_falls();
}
