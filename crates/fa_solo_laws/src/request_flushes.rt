//! What a flush comes to.
ghost use Rattle.std.specs.Prelude.{◌≡◌, ℕ, List, None, true};
ghost use Rattle.fa_solo_laws.specs.Asked.{Asked, Moment, Turn, happenings_of};
ghost use Rattle.fa_laws.specs.Reached.{IsReached};
ghost use Rattle.fa_laws.specs.Syncing.{TakesAndEndsSync};
ghost use Rattle.fa_machine.specs.Run.{Run};
ghost use Rattle.fa_machine.specs.State.{is_live};
ghost use Rattle.fa_shared_steps.specs.Stages.{beginning};
ghost use Rattle.fa_shared_steps.specs.declared.request.Task.{Task};
ghost use Rattle.fa_shared_steps.specs.declared.stage.Stage.TheVariants.{Ended};

use fa_laws::steps::{
    a_sync_is_of_its_take, flushes_are_counted, live_dies_are_kept, no_older_sync_answers_a_flush,
    numbers_are_kept, spares_are_kept, synced_rises_by_a_sync, the_geometry_is_kept,
    the_last_number_never_falls,
};

/// What becomes of a request is a run. One with a flush that ends without a fault ends behind a sync of each die that is live as it begins
/// and as it ends: the die took the sync meanwhile, and ended it.
pub fn a_flush_has_synced<A>()
    ensures run { (t : Task) (seat : ℕ) (bytes : List ℕ) (before after : Moment A) (turns : List Turn)
        → Asked t seat bytes before turns after → Run before.world (happenings_of turns) after.world }
    ensures synced { (t : Task) (seat die : ℕ) (bytes : List ℕ) (before after : Moment A) (turns : List Turn) → IsReached before.world
        → before.stage ≡ beginning t → t.flush ≡ true → Asked t seat bytes before turns after → after.stage ≡ Ended None
        → is_live before.world.core.page_map die ≡ true → is_live after.world.core.page_map die ≡ true
        → TakesAndEndsSync die (happenings_of turns) }
{
    live_dies_are_kept();
    spares_are_kept();
    numbers_are_kept();
    the_geometry_is_kept();
    the_last_number_never_falls();
    synced_rises_by_a_sync();
    a_sync_is_of_its_take();
    flushes_are_counted();
    no_older_sync_answers_a_flush();
}
