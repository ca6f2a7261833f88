//! Which pages are lost.
ghost use Rattle.std.specs.Prelude.{◌≡◌, ℕ, Contains, List, Ok, Some, true};
ghost use Rattle.fa_laws.specs.Leaving.{RunLeaving};
ghost use Rattle.fa_laws.specs.Reached.{IsReached};
ghost use Rattle.fa_machine.specs.Copies.{is_lost};
ghost use Rattle.fa_machine.specs.Reading.{Admitted};
ghost use Rattle.fa_machine.specs.Run.{Happening, HappensEvent};
ghost use Rattle.fa_machine.specs.Step.{Admit};
ghost use Rattle.fa_machine.specs.World.{World};
ghost use Rattle.fa_machine.specs.declared.places.Copying.{Copying};

use fa_laws::steps::{live_dies_are_kept, numbers_are_kept, spares_are_kept, the_geometry_is_kept};

/// A page that is lost stays lost as long as it is not written, where no copy of it is under way, whatever else happens. So no batch with
/// it is admitted.
pub fn a_lost_page_stays_lost()
    ensures lost { (w last : World) (happenings : List Happening) (page : ℕ) → IsReached w → is_lost w.core.page_map page ≡ true
        → ((c : Copying) → w.core.copying ≡ Some c → c.page.0 ≡ page → ⊥) → RunLeaving page w happenings last
        → is_lost last.core.page_map page ≡ true }
    ensures never_read { (w last after : World) (happenings : List Happening) (page : ℕ) (pages : List ℕ) (admitted : Admitted)
        → IsReached w
        → is_lost w.core.page_map page ≡ true → ((c : Copying) → w.core.copying ≡ Some c → c.page.0 ≡ page → ⊥)
        → RunLeaving page w happenings last → Contains pages page → ¬ (HappensEvent last (Admit pages (Ok admitted)) after) }
{
    live_dies_are_kept();
    spares_are_kept();
    numbers_are_kept();
    the_geometry_is_kept();
}
