//! Laws, each the contract of a function with no code.
ghost use Rattle.std.specs.Prelude.{ℕ, List};
ghost use Rattle.std.specs.List.{AllByRecursion};
ghost use Rattle.fa_solo_laws.specs.Begun.{IsCalm};
ghost use Rattle.fa_solo_laws.specs.Shown.{store_of};
ghost use Rattle.fa_solo_laws.specs.Driving.{IsDeedOf, StandsFor, image_on};
ghost use Rattle.fa_solo_laws.specs.Standing.{IsWorldOf};
ghost use Rattle.fa_mount_headers.specs.declared.judging.Standing.{Standing};
ghost use Rattle.fa_machine.specs.World.{World};
ghost use Rattle.fa_mount.specs.Standings.{AreApart};
ghost use Rattle.fa_mount_close_laws.specs.Drives.{AreHonest, Drive, Driven, Drives, acts_of};
ghost use Rattle.fa_solo_job.specs.Deeds.{Goes, IsForDies, IsForOrder, IsForRequests};
ghost use Rattle.fa_solo_job.specs.House.{House};
ghost use Rattle.fa_solo_job.specs.Inner.{Does, Tidies};
ghost use Rattle.fa_solo_job.specs.declared.inner.Inner.{Inner};
ghost use Rattle.fa_types.specs.Store.{IsUnwritten};

use fa_image::Image;
use fa_laws::steps::{
    live_dies_are_kept, numbers_are_kept, spares_are_kept, the_geometry_is_kept,
    the_last_number_never_falls,
};

/// The deeds of a store of one thread drive its array over its images: event by event, and each job by its calls. The events are those
/// that the store makes, for dies, for requests, or for the array's order, and the Takes and Dones of its jobs. The store's images are
/// those that the drive leads to, and no job is left in flight. No two dies have one image.
pub fn the_deeds_drive_the_array<I: Image>()
    ensures dies { (array : List ℕ) (dies : List Standing) (seat : ℕ) (old new : House I) (first : Driven I) → AreApart dies
        → StandsFor dies old first → Goes I.made array dies seat IsForDies old new
        → (drives : List Drive) × (last : Driven I) × Drives I.made array first drives last × StandsFor dies new last
        × AllByRecursion (IsDeedOf IsForDies) (acts_of drives) }
    ensures requests { (array : List ℕ) (dies : List Standing) (seat : ℕ) (old new : House I) (first : Driven I) → AreApart dies
        → StandsFor dies old first → Goes I.made array dies seat IsForRequests old new
        → (drives : List Drive) × (last : Driven I) × Drives I.made array first drives last × StandsFor dies new last
        × AllByRecursion (IsDeedOf IsForRequests) (acts_of drives) }
    ensures order { (array : List ℕ) (dies : List Standing) (seat : ℕ) (old new : House I) (first : Driven I) → AreApart dies
        → StandsFor dies old first → Goes I.made array dies seat IsForOrder old new
        → (drives : List Drive) × (last : Driven I) × Drives I.made array first drives last × StandsFor dies new last
        × AllByRecursion (IsDeedOf IsForOrder) (acts_of drives) }
{
    the_geometry_is_kept();
}

/// What the store of one thread does besides its requests writes nothing: over any world that the store's array and images are of, the
/// deeds that come before a request, and all that is done for the array's order behind it, lead to a world that they are of then, with the
/// same plain array. A page that was lost is lost still. One more copy of a page is of the bytes that were told for it. The images return
/// what was written, no two dies have one image, and no lost page is being copied as it begins.
pub fn the_order_of_the_store_writes_nothing<L, M, I: Image, A>()
    ensures before { (old new : Inner L M I A) (w : World) → IsWorldOf I.view old w → IsCalm w → AreApart old.dies.items
        → Does I.made IsForRequests old new → AreHonest I.honest (image_on new.dies.items new.images.items)
        → (v : World) × IsWorldOf I.view new v × IsUnwritten (store_of w) (store_of v) }
    ensures behind { (old new : Inner L M I A) (w : World) → IsWorldOf I.view old w → IsCalm w → AreApart old.dies.items
        → Tidies I.made old new → AreHonest I.honest (image_on new.dies.items new.images.items)
        → (v : World) × IsWorldOf I.view new v × IsUnwritten (store_of w) (store_of v) }
{
    live_dies_are_kept();
    spares_are_kept();
    numbers_are_kept();
    the_geometry_is_kept();
    the_last_number_never_falls();
}
