//! What a life of an array begins with.
ghost use Rattle.std.specs.Prelude.{◌≡◌, ℕ, IsTrue, List, Option, length, map};
ghost use Rattle.std.specs.List.{AllByRecursion};
ghost use Rattle.fa_crash.specs.Cut.{IsCut};
ghost use Rattle.fa_crash.specs.Flushed.{AreOfLast};
ghost use Rattle.fa_crash.specs.Headers.{NameOurs, tells};
ghost use Rattle.fa_crash.specs.Unsynced.{Unsynced, nothing_unsynced};
ghost use Rattle.fa_crash.specs.Whole.{RunWhole};
ghost use Rattle.fa_crash.specs.Behind.{AreImagesClosed, AreImagesLeft, AreThere, BeginsAgain, BeginsLife, HaveHolders, HoldersStand};
ghost use Rattle.fa_crash.specs.Life.{IsLife};
ghost use Rattle.fa_laws.specs.Formatted.{formatted};
ghost use Rattle.fa_machine.specs.Beginning.{IsBeginning};
ghost use Rattle.fa_machine.specs.Cells.{Cell};
ghost use Rattle.fa_machine.specs.Run.{Happening};
ghost use Rattle.fa_machine.specs.State.{Core};
ghost use Rattle.fa_machine.specs.World.{HeaderTells, World};
ghost use Rattle.fa_mount.specs.RecoversArray.{RecoversArray};
ghost use Rattle.fa_mount_headers.specs.Rules.{seen_from};
ghost use Rattle.fa_mount_headers.specs.declared.judging.Standing.{Standing};
ghost use Rattle.fa_mount_scan.specs.MountedWorld.{bytes_of, is_spare_of};
ghost use Rattle.fa_types.specs.declared.geometry.Geometry.{Geometry};

use crate::beginnings::a_formatted_array_is_such_a_beginning;
use crate::crashes::{
    the_newest_headers_name_dies_of_the_array, what_a_cut_leaves_are_first_headers_again,
};
use crate::headers::the_mask_has_the_holders;
use crate::mounts::{
    a_promised_page_is_promised_again, a_promised_page_outlasts_a_crash,
    what_is_mounted_is_such_a_beginning_again,
};
use fa_image::Image;
use fa_laws::beginnings::a_formatted_array_is_a_beginning;
use fa_laws::steps::the_geometry_is_kept;
use fa_mount::laws::what_is_mounted_is_a_beginning;
use fa_mount_scan::laws::what_is_mounted_stands_there;

/// An array of two dies that was formatted begins a life, whose headers are of epoch 0 and name both.
pub fn a_formatted_array_begins_a_life()
    ensures { (geometry : Geometry) → geometry.dies ≡ 2 → geometry.spares ≡ 0
        → IsLife (formatted geometry) (λ die. record { epoch = 0; live = 3 }) (formatted geometry) (nothing_unsynced (formatted geometry)) }
{
    a_formatted_array_is_a_beginning();
    a_formatted_array_is_such_a_beginning();
}

/// What [`fa_mount::recover`] gives of images that are there is such as runs begin with, and each page that was promised outlasts: of
/// images that have what a cut left in the slots of those dies that the newest header names, where these are dies of the array, each holder
/// stands as live, and no page was lost of which no holder's image is there. The images were synced before they were read.
pub fn what_is_there_begins_again<I: Image, A>()
    ensures { (first w : World) (told : ℕ → HeaderTells) (happenings : List Happening) (u : Unsynced) (cells : ℕ → ℕ → Cell)
        (heads : ℕ → Option HeaderTells) (copies : ℕ) (before after : List I) (array : List ℕ) (dies : List Standing) (core : Core)
        → IsBeginning first → AreOfLast first → RunWhole first (nothing_unsynced first) happenings w u → IsCut w u cells heads
        → (recovers : RecoversArray A I.view I.made copies before after array dies core) → length dies ≡ core.page_map.geometry.dies
        → AllByRecursion (λ image. IsTrue (I.honest image)) after
        → AreThere first told cells (seen_from 0 recovers.mounts.mounts.headers.founds) (bytes_of (map I.view after) dies)
        → NameOurs first told → HoldersStand w (seen_from 0 recovers.mounts.mounts.headers.founds)
        → HaveHolders first w (seen_from 0 recovers.mounts.mounts.headers.founds)
        → BeginsAgain first w told u (seen_from 0 recovers.mounts.mounts.headers.founds) (bytes_of (map I.view after) dies)
        (is_spare_of dies) core }
{
    the_geometry_is_kept();
    what_is_mounted_stands_there::<I, A>();
    what_is_mounted_is_such_a_beginning_again();
    what_is_mounted_is_a_beginning::<I, A>();
    a_promised_page_outlasts_a_crash();
    a_promised_page_is_promised_again();
}

/// What [`fa_mount::recover`] gives behind a crash begins a life again. Its images are what the cut left, the newest header among them, and
/// no page was lost of which no holder's image is there. Then the runs of the next life begin with nothing unsynced, where the images were
/// synced before they were read; all that the laws of crashes ask of a beginning holds of it; and each page that was promised has at least
/// its number, with the bytes of the number that it has, and is promised again. So nothing that was flushed in one life is lost in a later
/// one.
pub fn what_is_recovered_begins_a_life<I: Image, A>()
    ensures { (first w : World) (told : ℕ → HeaderTells) (u : Unsynced) (cells : ℕ → ℕ → Cell) (heads : ℕ → Option HeaderTells) (copies : ℕ)
        (before after : List I) (array : List ℕ) (dies : List Standing) (core : Core) → IsLife first told w u → IsCut w u cells heads
        → (recovers : RecoversArray A I.view I.made copies before after array dies core) → length dies ≡ core.page_map.geometry.dies
        → AllByRecursion (λ image. IsTrue (I.honest image)) after
        → AreImagesLeft first told cells heads (seen_from 0 recovers.mounts.mounts.headers.founds) (bytes_of (map I.view after) dies)
        → HaveHolders first w (seen_from 0 recovers.mounts.mounts.headers.founds)
        → BeginsLife first w (tells told heads) u (seen_from 0 recovers.mounts.mounts.headers.founds) (bytes_of (map I.view after) dies)
        (is_spare_of dies) core }
{
    the_newest_headers_name_dies_of_the_array();
    what_a_cut_leaves_are_first_headers_again();
    the_mask_has_the_holders();
    what_is_there_begins_again::<I, A>();
}

/// So does what it gives of an array that was closed with all its live dies: in any world of a life in which nothing is under way, so that
/// closing left what stands there, and with headers that name the live dies.
pub fn what_was_closed_begins_a_life<I: Image, A>()
    ensures { (first w : World) (before_told told : ℕ → HeaderTells) (u : Unsynced) (copies : ℕ) (before after : List I) (array : List ℕ)
        (dies : List Standing) (core : Core) → IsLife first before_told w u
        → (recovers : RecoversArray A I.view I.made copies before after array dies core) → length dies ≡ core.page_map.geometry.dies
        → AllByRecursion (λ image. IsTrue (I.honest image)) after
        → AreImagesClosed first w told (seen_from 0 recovers.mounts.mounts.headers.founds) (bytes_of (map I.view after) dies)
        → HaveHolders first w (seen_from 0 recovers.mounts.mounts.headers.founds)
        → BeginsLife first w told u (seen_from 0 recovers.mounts.mounts.headers.founds) (bytes_of (map I.view after) dies)
        (is_spare_of dies) core }
{
    the_newest_headers_name_dies_of_the_array();
    what_is_there_begins_again::<I, A>();
}
