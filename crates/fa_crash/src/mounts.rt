//! A flushed page is there after a crash.
ghost use Rattle.std.specs.Prelude.{◌≡◌, ℕ, ◌<◌, ◌≤◌, Bool, IsTrue, true, List, Ok, Option, Some, length, map, slice_get};
ghost use Rattle.std.specs.List.{AllByRecursion};
ghost use Rattle.fa_crash.specs.Cut.{IsCut};
ghost use Rattle.fa_crash.specs.Flushed.{AreOfLast, IsPromised};
ghost use Rattle.fa_crash.specs.Headers.{AreFirstHeaders};
ghost use Rattle.fa_crash.specs.Unsynced.{Unsynced, nothing_unsynced};
ghost use Rattle.fa_crash.specs.Whole.{RunWhole};
ghost use Rattle.fa_crash.specs.HeadersLeft.{AreHeadersLeft};
ghost use Rattle.fa_crash.specs.Left.{AreHoldersLive, AreLeft, HasOutlasted, IsMountedLeft};
ghost use Rattle.fa_machine.specs.declared.places.Version.{Version};
ghost use Rattle.fa_machine.specs.Among.{Among};
ghost use Rattle.fa_machine.specs.Beginning.{IsBeginning};
ghost use Rattle.fa_machine.specs.Cells.{Cell};
ghost use Rattle.fa_machine.specs.Copies.{holds_page};
ghost use Rattle.fa_machine.specs.Run.{Happening};
ghost use Rattle.fa_machine.specs.State.{MapState, is_live};
ghost use Rattle.fa_machine.specs.World.{HeaderTells, World};
ghost use Rattle.fa_mount_scan.specs.MountedWorld.{CopiesAgree, IsMountedWorld, SlotBytes, bytes_of};
ghost use Rattle.fa_mount_scan.specs.Mounting.{Mounts};
ghost use Rattle.fa_mount_headers.specs.Rules.{seen_from};
ghost use Rattle.fa_mount_headers.specs.declared.seen.Seen.{Seen};
ghost use Rattle.fa_mount_scan.specs.declared.slots.content.SlotContent.{SlotContent};
ghost use Rattle.fa_mount_headers.specs.declared.judging.Standing.{Standing};

use crate::crashes::{
    a_promised_page_is_left_on_its_holders, each_good_cell_of_a_cut_is_reserved,
    what_is_mounted_is_promised,
};
use crate::headers::the_mask_has_the_holders;
use fa_image::Image;
use fa_mount_scan::laws::{
    bytes_are_one_cell, what_is_mounted_stands_there, what_was_found_is_what_is_seen,
};

/// A page that was flushed outlasts each crash. Behind any cut, in what is mounted of any images among which there is one of a die that
/// held the page, and that is mounted as live, the page has at least the number that it had as the flush began, and the bytes that were
/// reserved for the number that it has. So it is with a page that was mounted, from the mount on.
pub fn a_promised_page_outlasts_a_crash()
    ensures { (first w : World) (u : Unsynced) (page number die : ℕ) (cells : ℕ → ℕ → Cell) (heads : ℕ → Option HeaderTells)
        (bytes : SlotBytes) (is_spare : ℕ → Bool) (m : MapState) → IsPromised first page number w u → IsCut w u cells heads
        → IsMountedLeft first w cells bytes is_spare m → holds_page w.core.page_map page die ≡ true → is_live m die ≡ true
        → HasOutlasted w bytes m page number }
{
    a_promised_page_is_left_on_its_holders();
    bytes_are_one_cell();
    what_was_found_is_what_is_seen();
}

/// The same of images that were mounted, as an array that may be unclean or not, where those that were mounted as live have what the cut
/// left on dies of the array, and return what was written.
pub fn a_promised_page_is_mounted_again<I: Image, A>()
    ensures { (first w : World) (u : Unsynced) (page number die : ℕ) (cells : ℕ → ℕ → Cell) (heads : ℕ → Option HeaderTells) (copies : ℕ)
        (unclean : Bool) (before after : List I) (array : List ℕ) (epoch : ℕ) (clean : Bool) (dies : List Standing) (m : MapState)
        → IsPromised first page number w u → IsCut w u cells heads
        → Mounts A I.view I.made copies unclean before after array epoch clean dies m → length dies ≡ m.geometry.dies
        → AllByRecursion (λ image. IsTrue (I.honest image)) after → AreLeft first w cells (bytes_of (map I.view after) dies) m
        → holds_page w.core.page_map page die ≡ true → is_live m die ≡ true
        → HasOutlasted w (bytes_of (map I.view after) dies) m page number }
{
    a_promised_page_outlasts_a_crash();
    what_is_mounted_stands_there::<I, A>();
}

/// The same of images that were mounted, of which one is of a die that held the page, as its header tells, and had all of its slots read:
/// this die is in the mask of the greatest epoch, and is mounted as live.
pub fn a_promised_page_is_mounted_from_a_holder<I: Image, A>()
    ensures { (first w : World) (told : ℕ → HeaderTells) (u : Unsynced) (page number : ℕ) (cells : ℕ → ℕ → Cell)
        (heads : ℕ → Option HeaderTells) (copies : ℕ) (unclean : Bool) (before after : List I) (array : List ℕ) (epoch : ℕ) (clean : Bool)
        (dies : List Standing) (m : MapState) (x : Seen) (slots : List SlotContent)
        → IsPromised first page number w u → AreFirstHeaders first told → IsCut w u cells heads
        → (mounts : Mounts A I.view I.made copies unclean before after array epoch clean dies m) → length dies ≡ m.geometry.dies
        → AllByRecursion (λ image. IsTrue (I.honest image)) after → AreLeft first w cells (bytes_of (map I.view after) dies) m
        → AreHeadersLeft first told heads (seen_from 0 mounts.headers.founds) → Among x (seen_from 0 mounts.headers.founds)
        → x.header.die.0 < m.geometry.dies → slice_get mounts.outcomes x.header.die.0 ≡ Some (Some (Ok slots))
        → holds_page w.core.page_map page x.header.die.0 ≡ true → HasOutlasted w (bytes_of (map I.view after) dies) m page number }
{
    a_promised_page_is_mounted_again::<I, A>();
    the_mask_has_the_holders();
}

/// What is mounted of a cut is again such as runs begin with, where each page that was written as the array was mounted has a holder that
/// is mounted as live: the copies that are held agree, and each good cell is of the page's last write, with its bytes, or of an older one.
pub fn what_is_mounted_is_such_a_beginning_again()
    ensures agree { (first w : World) (happenings : List Happening) (u : Unsynced) (cells : ℕ → ℕ → Cell) (heads : ℕ → Option HeaderTells)
        (bytes : SlotBytes) (is_spare : ℕ → Bool) (m : MapState) → IsBeginning first → AreOfLast first
        → RunWhole first (nothing_unsynced first) happenings w u → IsCut w u cells heads → IsMountedLeft first w cells bytes is_spare m
        → AreHoldersLive first w m → CopiesAgree bytes m }
    ensures last { (first w next : World) (happenings : List Happening) (u : Unsynced) (cells : ℕ → ℕ → Cell)
        (heads : ℕ → Option HeaderTells) (bytes : SlotBytes) (is_spare : ℕ → Bool) → IsBeginning first → AreOfLast first
        → RunWhole first (nothing_unsynced first) happenings w u → IsCut w u cells heads → IsMountedWorld bytes is_spare next
        → AreLeft first w cells bytes next.core.page_map → AreHoldersLive first w next.core.page_map → AreOfLast next }
{
    what_is_mounted_is_promised();
    a_promised_page_is_left_on_its_holders();
    each_good_cell_of_a_cut_is_reserved();
    bytes_are_one_cell();
    what_was_found_is_what_is_seen();
}

/// What was promised before a crash is promised again: in each run over what is mounted of a cut, the page is promised from the mount on,
/// with the number that it was mounted with, and this is no smaller one. The run begins with nothing unsynced, so its images were synced
/// before they were read.
pub fn a_promised_page_is_promised_again()
    ensures { (first w next last : World) (u v : Unsynced) (page number die : ℕ) (cells : ℕ → ℕ → Cell) (heads : ℕ → Option HeaderTells)
        (bytes : SlotBytes) (is_spare : ℕ → Bool) (happenings : List Happening) → IsPromised first page number w u → IsCut w u cells heads
        → IsMountedWorld bytes is_spare next → IsBeginning next → AreLeft first w cells bytes next.core.page_map
        → AreHoldersLive first w next.core.page_map → holds_page w.core.page_map page die ≡ true
        → is_live next.core.page_map die ≡ true → RunWhole next (nothing_unsynced next) happenings last v
        → (version : Version) × (number ≤ version.seq.0) × IsPromised next page version.seq.0 last v }
{
    a_promised_page_outlasts_a_crash();
    what_is_mounted_is_such_a_beginning_again();
    what_is_mounted_is_promised();
}
