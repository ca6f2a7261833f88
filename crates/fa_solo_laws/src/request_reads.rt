//! What a read comes to.
ghost use Rattle.std.specs.Prelude.{◌≡◌, ◌≢◌, ℕ, List, None, Some, true};
ghost use Rattle.fa_solo_laws.specs.Asked.{Asked, Moment, Turn};
ghost use Rattle.fa_solo_laws.specs.Begun.{HasBegun};
ghost use Rattle.fa_solo_laws.specs.Shown.{store_of};
ghost use Rattle.fa_shared_steps.specs.Tasks.{task_of};
ghost use Rattle.fa_shared_steps.specs.declared.request.Request.TheVariants.{Read};
ghost use Rattle.fa_shared_steps.specs.declared.stage.Stage.TheVariants.{Ended};
ghost use Rattle.fa_types.specs.Store.{Gave, IsMet, Reading, Refused, Serves, bytes_at};
ghost use Rattle.fa_types.specs.declared.blocks.BlockFault.{BlockFault};

use fa_laws::steps::{
    live_dies_are_kept, numbers_are_kept, spares_are_kept, the_geometry_is_kept,
    the_last_number_never_falls,
};

/// A read that nobody else writes meanwhile gives the bytes of its range, of which no page was lost as it began, or is refused for a cause.
/// Nothing is written.
pub fn a_read_serves<A>()
    ensures gave { (offset len seat : ℕ) (bytes : List ℕ) (before after : Moment A) (turns : List Turn)
        → HasBegun (Read offset len) before
        → Asked (task_of before.world.core.page_map.geometry.page_bytes (Read offset len)) seat bytes before turns after
        → after.stage ≡ Ended None → Serves (store_of before.world) (Reading offset len) (Gave after.answer) (store_of after.world) }
    ensures refused { (offset len seat : ℕ) (bytes : List ℕ) (before after : Moment A) (turns : List Turn) (fault : BlockFault)
        → HasBegun (Read offset len) before
        → Asked (task_of before.world.core.page_map.geometry.page_bytes (Read offset len)) seat bytes before turns after
        → after.stage ≡ Ended (Some fault) → Serves (store_of before.world) (Reading offset len) (Refused fault) (store_of after.world) }
    ensures plain { (offset len seat : ℕ) (bytes : List ℕ) (before after : Moment A) (turns : List Turn)
        → HasBegun (Read offset len) before
        → Asked (task_of before.world.core.page_map.geometry.page_bytes (Read offset len)) seat bytes before turns after
        → after.world.plain ≡ before.world.plain }
{
    live_dies_are_kept();
    spares_are_kept();
    numbers_are_kept();
    the_geometry_is_kept();
    the_last_number_never_falls();
}

/// No read ends with other bytes than those of its range, or without a fault where a page of the range was lost as it began.
pub fn wrong_reads_are_none<A>()
    ensures bytes { (offset len seat : ℕ) (bytes : List ℕ) (before after : Moment A) (turns : List Turn)
        → HasBegun (Read offset len) before
        → after.answer ≢ bytes_at offset len (store_of before.world).content → after.stage ≡ Ended None
        → ¬ (Asked (task_of before.world.core.page_map.geometry.page_bytes (Read offset len)) seat bytes before turns after) }
    ensures lost { (offset len seat page : ℕ) (bytes : List ℕ) (before after : Moment A) (turns : List Turn)
        → HasBegun (Read offset len) before → (store_of before.world).lost page ≡ true
        → IsMet before.world.core.page_map.geometry.page_bytes offset len page → after.stage ≡ Ended None
        → ¬ (Asked (task_of before.world.core.page_map.geometry.page_bytes (Read offset len)) seat bytes before turns after) }
{
    live_dies_are_kept();
    spares_are_kept();
    numbers_are_kept();
    the_geometry_is_kept();
    the_last_number_never_falls();
}
