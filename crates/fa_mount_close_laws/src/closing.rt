//! Laws of what stands on the dies of an array that has nothing open.
ghost use Rattle.std.specs.Prelude.{◌≡◌, ◌⊎◌, ℕ, ◌<◌, Bool, IsTrue, List, false, length, map, true};
ghost use Rattle.std.specs.FinMap.{get};
ghost use Rattle.std.specs.List.{AllByRecursion};
ghost use Rattle.fa_mount_close_laws.specs.Closed.{AreOfMask, WasClosed};
ghost use Rattle.fa_mount_close_laws.specs.LastCells.{AreOfLast, HoldAll, IsLastOn};
ghost use Rattle.fa_mount_close_laws.specs.Mounted.{AreCellsOf, LastCopiesAgree};
ghost use Rattle.fa_laws.specs.Formatted.{formatted};
ghost use Rattle.fa_mount_headers.specs.Found.{ReadsHeaders};
ghost use Rattle.fa_mount_headers.specs.Rules.{can_hold};
ghost use Rattle.fa_mount_headers.specs.declared.fault.MountFault.TheVariants.{ImageFault, NoMemory};
ghost use Rattle.fa_mount_headers.specs.declared.fault.MountRefused.{MountRefused};
ghost use Rattle.fa_mount_headers.specs.declared.found.Found.{Found};
ghost use Rattle.fa_mount_headers.specs.declared.judging.Standing.{Standing};
ghost use Rattle.fa_types.specs.declared.geometry.Geometry.{Geometry};
ghost use Rattle.fa_machine.specs.Beginning.{IsBeginning};
ghost use Rattle.fa_machine.specs.Looks.{is_busy};
ghost use Rattle.fa_machine.specs.Run.{Happening, Run};
ghost use Rattle.fa_machine.specs.State.{Core, MapState, is_live};
ghost use Rattle.fa_machine.specs.World.{World};
ghost use Rattle.fa_mount.specs.MountsArray.{IsTooLate, MountsArray, RefusesArray};
ghost use Rattle.fa_mount_scan.specs.MountedWorld.{CopiesAgree, HoldMap, IsMountedWorld, SlotBytes, bytes_of, is_spare_of};

use fa_image::Image;
use fa_sound::sound::{a_beginning_is_sound, a_step_keeps_sound};

/// In every run from a beginning in which each good cell of a page on a live die is of its last write or of an older one, this is
/// so again wherever no job, claim, batch or copy is open.
pub fn no_newer_cell_is_left()
    ensures { (first w : World) (happenings : List Happening) → IsBeginning first → AreOfLast first → Run first happenings w
        → is_busy w.core ≡ false → AreOfLast w }
{
    a_beginning_is_sound();
    a_step_keeps_sound();
}

/// Then, on any live dies on which each page that was written is held, the good cells of a page say its last write and the plain
/// array's page, and there is none where the page was never written.
pub fn the_last_writes_stand_on_the_dies()
    ensures { (first w : World) (happenings : List Happening) (these : ℕ → Bool) (page : ℕ) → IsBeginning first → AreOfLast first
        → Run first happenings w → is_busy w.core ≡ false → HoldAll w these → page < w.core.page_map.geometry.pages
        → IsLastOn w these page (get w.core.page_map.versions page) }
{
    a_beginning_is_sound();
    a_step_keeps_sound();
}

/// An array that was formatted has no good cell, so runs begin in which this holds.
pub fn a_formatted_array_has_no_cell()
    ensures { (geometry : Geometry) → AreOfLast (formatted geometry) }
{}

/// In a world that was just mounted each good cell of a page on a live die is of its last write or of an older one, where the copies
/// of last writes agree.
pub fn a_mounted_world_has_no_newer_cell()
    ensures { (bytes : SlotBytes) (is_spare : ℕ → Bool) (w : World) → IsMountedWorld bytes is_spare w
        → LastCopiesAgree bytes w.core.page_map → AreOfLast w }
{}

/// Where nothing is open, and each page that was written is held on some live dies, what is mounted of these dies alone is what the
/// array had: each page has its number, the copies agree, and the plain array of a world over it is the same.
pub fn what_stands_on_the_dies_is_mounted()
    ensures numbers { (first w : World) (happenings : List Happening) (these : ℕ → Bool) (bytes : SlotBytes) (is_spare : ℕ → Bool)
        (m : MapState) (page : ℕ) → IsBeginning first → AreOfLast first → Run first happenings w → is_busy w.core ≡ false → HoldAll w these
        → AreCellsOf w these bytes → m.geometry ≡ w.core.page_map.geometry → HoldMap bytes is_spare m.geometry m
        → ((die : ℕ) → is_live m die ≡ these die) → get m.versions page ≡ get w.core.page_map.versions page }
    ensures agree { (first w : World) (happenings : List Happening) (these : ℕ → Bool) (bytes : SlotBytes) (is_spare : ℕ → Bool)
        (m : MapState) → IsBeginning first → AreOfLast first → Run first happenings w → is_busy w.core ≡ false → HoldAll w these
        → AreCellsOf w these bytes → m.geometry ≡ w.core.page_map.geometry → HoldMap bytes is_spare m.geometry m
        → ((die : ℕ) → is_live m die ≡ these die) → CopiesAgree bytes m × LastCopiesAgree bytes m }
    ensures plain { (first w v : World) (happenings : List Happening) (these : ℕ → Bool) (bytes : SlotBytes) (is_spare : ℕ → Bool)
        → IsBeginning first → AreOfLast first → Run first happenings w → is_busy w.core ≡ false → HoldAll w these
        → AreCellsOf w these bytes → v.core.page_map.geometry ≡ w.core.page_map.geometry → IsMountedWorld bytes is_spare v
        → ((die : ℕ) → is_live v.core.page_map die ≡ these die) → v.plain ≡ w.plain }
{
    a_beginning_is_sound();
    a_step_keeps_sound();
}

/// An array that was closed, and is mounted again without leave for an unclean one, of the images of the dies that closing left, has
/// the plain array that it had: over what stands in these images there is a world with it, from which runs begin anew. The images
/// return what was written, also as their headers are read, and are mounted as closing left them.
pub fn a_closed_array_is_mounted_again<I: Image, A>()
    ensures { (first w : World) (happenings : List Happening) (array : List ℕ) (dies : List Standing) (before after these later : List I)
        (mask copies : ℕ) (number : List ℕ) (stands : List Standing) (core : Core)
        → IsBeginning first → AreOfLast first → Run first happenings w
        → WasClosed I.view I.made w array dies before after mask → AreOfMask dies mask after these
        → (mounts : MountsArray A I.view I.made copies false these later number stands core) → length stands ≡ core.page_map.geometry.dies
        → AllByRecursion (λ image. IsTrue (I.honest image)) mounts.mounts.between
        → AllByRecursion (λ image. IsTrue (I.honest image)) later
        → (v : World) × (v.core ≡ core) × IsMountedWorld (bytes_of (map I.view later) stands) (is_spare_of stands) v
        × IsBeginning v × AreOfLast v × (v.plain ≡ w.plain) }
{
    a_beginning_is_sound();
    a_step_keeps_sound();
}

/// Such a mount is refused only where an image refused a read, where memory was refused, or where the epoch is too great. The images
/// return what was written as their headers are read, and as many copies can be held as the array is to have of each page.
pub fn a_closed_array_is_refused_for_its_images_alone<I: Image, A>()
    ensures { (first w : World) (happenings : List Happening) (array : List ℕ) (dies : List Standing) (before after these later : List I)
        (mask copies : ℕ) (refusal : MountRefused) → IsBeginning first → AreOfLast first → Run first happenings w
        → WasClosed I.view I.made w array dies before after mask → AreOfMask dies mask after these
        → can_hold copies w.core.page_map.geometry ≡ true
        → ((read : List I) (founds : List Found) → ReadsHeaders I.view I.made these read founds
        → AllByRecursion (λ image. IsTrue (I.honest image)) read)
        → RefusesArray A I.view I.made copies false these later refusal
        → (refusal.fault ≡ ImageFault) ⊎ (refusal.fault ≡ NoMemory) ⊎ IsTooLate A I.view I.made copies false these later refusal }
{
    a_beginning_is_sound();
    a_step_keeps_sound();
}
