//! In how few rounds a read of the store of one thread is answered.

ghost use Rattle.std.specs.Prelude.{◌≡◌, ◌⊎◌, ℕ, ◌+◌, ◌-◌, ◌≤◌, List, []};
ghost use Rattle.fa_batch_terms.specs.Plan.{rounds_of};
ghost use Rattle.fa_batch_terms.specs.declared.place.Place.{Place};
ghost use Rattle.fa_laws.specs.Reached.{IsReached};
ghost use Rattle.fa_machine.specs.State.{Core};
ghost use Rattle.fa_machine.specs.Step.{Act, Step};
ghost use Rattle.fa_machine.specs.World.{World};
ghost use Rattle.fa_mount_close_laws.specs.Drives.{AreHonest};
ghost use Rattle.fa_session.specs.Exchanges.{Chain, Exchange};
ghost use Rattle.fa_shared_steps.specs.Ranges.{first_page, past_page};
ghost use Rattle.fa_shared_steps.specs.Tasks.{task_of};
ghost use Rattle.fa_shared_steps.specs.declared.request.Request.TheVariants.{Read};
ghost use Rattle.fa_solo_laws.specs.Driving.{image_on};
ghost use Rattle.fa_solo_laws.specs.Rest.{CountsDies, IsAtRest, IsIdle, IsPlanFor, pages_of, range_in};
ghost use Rattle.fa_solo_laws.specs.Sessions.{IsStoreOf, OneGivenUp};
ghost use Rattle.fa_solo.specs.Calls.{MakesWhole};
ghost use Rattle.fa_solo.specs.Stores.{StoreMakes, StoreState};
ghost use Rattle.fa_solo_job.specs.declared.inner.Inner.{Inner};
ghost use Rattle.fa_types.specs.Store.{Gave};

use crate::requests::a_request_serves;
use fa_cert::laws::certificate_is_least;
use fa_image::Image;
use fa_laws::steps::{
    flushes_are_counted, live_dies_are_kept, numbers_are_kept, spares_are_kept,
    the_geometry_is_kept, the_last_number_never_falls, the_round_is_kept,
};

/// The epoch rises by one in each event in which a die goes out or comes in. In any other it stays, and so do the live dies.
pub fn the_epoch_counts_dies()
    ensures { (old new : Core) (act : Act) → Step old act new → CountsDies old new }
{}

/// A read of the store of one thread that is answered raises the round by no more than the rounds of any plan of its pages, each at a die
/// that holds it, against the calendar as it stood when the call began: so it takes the least number of rounds. The read is of at most
/// 1,024 pages, and no die goes out or comes in meanwhile, so that the epoch stays. As the call begins the array is in a state to which a
/// run leads; nothing is open, as between any two calls (`nothing_is_open_between_calls`); and the array is at rest: no live die wants a
/// window, none that has one has a block to collect, and no page is thin. All that holds again as the call ends.
pub fn a_read_takes_the_least_rounds<L, M, I: Image, A>()
    ensures rounds { (old new : Inner L M I A) (offset len : ℕ) (given : List ℕ) (places : List Place) (w : World) → IsReached w
        → w.core ≡ old.locked.core → IsIdle old.locked.core → IsAtRest old.locked.core
        → past_page (range_in old.locked.core offset len) - first_page (range_in old.locked.core offset len) ≤ 1024
        → MakesWhole I.made (task_of old.locked.core.page_map.geometry.page_bytes (Read offset len)) [] (Gave given) old new
        → new.locked.core.epoch ≡ old.locked.core.epoch
        → IsPlanFor old.locked.core (pages_of (range_in old.locked.core offset len)) places
        → new.locked.core.calendar.round ≤ old.locked.core.calendar.round + rounds_of old.locked.core.calendar.round places }
    ensures rest { (old new : Inner L M I A) (offset len : ℕ) (given : List ℕ) (w : World) → IsReached w
        → w.core ≡ old.locked.core → IsIdle old.locked.core → IsAtRest old.locked.core
        → past_page (range_in old.locked.core offset len) - first_page (range_in old.locked.core offset len) ≤ 1024
        → MakesWhole I.made (task_of old.locked.core.page_map.geometry.page_bytes (Read offset len)) [] (Gave given) old new
        → new.locked.core.epoch ≡ old.locked.core.epoch
        → IsIdle new.locked.core × IsAtRest new.locked.core }
{
    certificate_is_least();
}

/// The same behind any list of calls, writes and flushes among them, of a store that was over a world as they began, as one is that was
/// just mounted. The images return what was written, and the array is at rest as the read begins. Or one of the calls before it was given
/// up.
pub fn a_read_behind_calls_takes_the_least_rounds<L, M, I: Image, A>()
    ensures { (start old : StoreState L M I A) (new : Inner L M I A) (w : World) (exchanges : List Exchange) (offset len : ℕ)
        (given : List ℕ)
        (places : List Place) → IsStoreOf I.view start w → (chain : Chain (StoreMakes I.made) start exchanges old)
        → AreHonest I.honest (image_on old.inner.dies.items old.inner.images.items) → IsAtRest old.inner.locked.core
        → past_page (range_in old.inner.locked.core offset len) - first_page (range_in old.inner.locked.core offset len) ≤ 1024
        → MakesWhole I.made (task_of old.inner.locked.core.page_map.geometry.page_bytes (Read offset len)) [] (Gave given) old.inner new
        → new.locked.core.epoch ≡ old.inner.locked.core.epoch
        → IsPlanFor old.inner.locked.core (pages_of (range_in old.inner.locked.core offset len)) places
        → (new.locked.core.calendar.round ≤ old.inner.locked.core.calendar.round + rounds_of old.inner.locked.core.calendar.round places)
        ⊎ OneGivenUp I.made start exchanges old chain }
{
    live_dies_are_kept();
    spares_are_kept();
    numbers_are_kept();
    the_geometry_is_kept();
    the_last_number_never_falls();
    flushes_are_counted();
    the_round_is_kept();
    a_request_serves::<A>();
    a_read_takes_the_least_rounds::<L, M, I, A>();
}
