//! What a connection comes to over the store of one thread.
ghost use Rattle.std.specs.Prelude.{◌≡◌, ◌⊎◌, ℕ, List};
ghost use Rattle.fa_solo_laws.specs.Shown.{store_of};
ghost use Rattle.fa_solo_laws.specs.Driving.{image_on};
ghost use Rattle.fa_solo_laws.specs.Sessions.{IsSessionGivenUp, IsStoreOf};
ghost use Rattle.fa_solo_laws.specs.Standing.{IsWorldOf};
ghost use Rattle.fa_io.specs.Streams.{Streams};
ghost use Rattle.fa_machine.specs.World.{World};
ghost use Rattle.fa_mount_close_laws.specs.Drives.{AreHonest};
ghost use Rattle.fa_session.specs.Session.{Session};
ghost use Rattle.fa_session.specs.declared.session_end.SessionEnd.{SessionEnd};
ghost use Rattle.fa_solo.specs.Stores.{StoreMakes, StoreState};
ghost use Rattle.fa_types.specs.Store.{Answer, Call, Meets};

use crate::requests::a_request_serves;
use fa_image::Image;
use fa_laws::steps::{
    flushes_are_counted, live_dies_are_kept, numbers_are_kept, spares_are_kept,
    the_geometry_is_kept, the_last_number_never_falls, the_round_is_kept,
};
use fa_types::Blocks;

/// A connection that `fa_session::serve_stream` serves over the store of one thread is one over a store that is alone, whose content is
/// the plain array: with the same bytes in and out, the same calls with the same answers, and the same end, over the stores that worlds
/// show. The first of the worlds is one that the store's array and images are of, and they are of the last one at the end. Or one of the
/// calls was given up: its request took 2^64 - 1 turns, and was refused as lost, or a copy behind it was looked at as often in vain. The
/// array and the images are of a world then still to which runs lead. The images return what was written. A connection over any store whose
/// calls are these is one of this kind.
pub fn a_session_of_the_store_meets<L, M, I: Image, A, S: Blocks>()
    ensures meets { (old new : StoreState L M I A) (export : List ℕ) (streams : Streams) (end : SessionEnd) (w : World)
        → IsStoreOf I.view old w → (session : Session (StoreMakes I.made) export old.bytes streams old new end)
        → AreHonest I.honest (image_on new.inner.dies.items new.inner.images.items)
        → (last : World) × IsWorldOf I.view new.inner last × ((IsStoreOf I.view new last
        × Session (λ before call answer after. Meets before call answer after) export old.bytes streams (store_of w) (store_of last) end)
        ⊎ IsSessionGivenUp I.made export old.bytes streams old new end session) }
    ensures seen { (seen : S → StoreState L M I A)
        → ((before after : S) (call : Call) (answer : Answer) → S.made before call answer after
        → StoreMakes I.made (seen before) call answer (seen after)) → (old new : S) (export : List ℕ) (size : ℕ) (streams : Streams)
        (end : SessionEnd) → Session S.made export size streams old new end
        → Session (StoreMakes I.made) export size streams (seen old) (seen new) end }
{
    live_dies_are_kept();
    spares_are_kept();
    numbers_are_kept();
    the_geometry_is_kept();
    the_last_number_never_falls();
    flushes_are_counted();
    the_round_is_kept();
    a_request_serves::<A>();
}
