//! Recovering an array behind a crash.
ghost use Rattle.std.specs.Prelude.{◌≡◌, ℕ, ◌<◌, true, List, None, Option};
ghost use Rattle.fa_crash.specs.Cut.{IsCut};
ghost use Rattle.fa_crash.specs.Headers.{AreFirstHeaders, AreToldAlike};
ghost use Rattle.fa_crash.specs.Unsynced.{Unsynced, nothing_unsynced};
ghost use Rattle.fa_crash.specs.Whole.{RunWhole};
ghost use Rattle.fa_crash.specs.HeadersLeft.{AreHeadersLeft};
ghost use Rattle.fa_crash.specs.AllThere.{AreOfOneArray, HaveDiesOfMask};
ghost use Rattle.fa_machine.specs.Among.{Among};
ghost use Rattle.fa_machine.specs.Beginning.{IsBeginning};
ghost use Rattle.fa_machine.specs.Cells.{Cell};
ghost use Rattle.fa_machine.specs.Copies.{holds_page};
ghost use Rattle.fa_machine.specs.Run.{Happening};
ghost use Rattle.fa_machine.specs.World.{HeaderTells, World};
ghost use Rattle.fa_crash.specs.Read.{AreFewGone, AreReadLeft, AreSparesMarked};
ghost use Rattle.fa_mount_headers.specs.Judged.{standings_of};
ghost use Rattle.fa_mount_headers.specs.Rules.{greatest_epoch, mask_in};
ghost use Rattle.fa_mount_scan.specs.Recovering.{AreSlotsRefused};
ghost use Rattle.fa_mount_scan.specs.Scanned.{Outcome};
ghost use Rattle.fa_mount_headers.specs.Recovering.{whole_refusal};
ghost use Rattle.fa_mount_headers.specs.declared.fault.MountRefused.{MountRefused};
ghost use Rattle.fa_mount_headers.specs.declared.seen.Seen.{Seen};

use crate::crashes::{
    a_header_names_the_holders, headers_of_one_epoch_are_alike,
    what_has_its_mark_is_as_it_was_mounted,
};
use crate::headers::the_mask_has_the_holders;
use fa_mount_scan::laws::what_was_found_is_what_is_seen;

/// Behind each cut, recovering is not refused for what the headers say where each die of the mask of their greatest epoch has an image with
/// one, and one of these holds a page: not for older epochs, missing marks of a clean close, or dies that are out.
pub fn recovering_is_not_refused_by_the_headers()
    ensures { (first w : World) (told : ℕ → HeaderTells) (happenings : List Happening) (u : Unsynced) (cells : ℕ → ℕ → Cell)
        (heads : ℕ → Option HeaderTells) (seen : List Seen) (x : Seen) (page copies : ℕ) → IsBeginning first → AreFirstHeaders first told
        → AreToldAlike told → RunWhole first (nothing_unsynced first) happenings w u → IsCut w u cells heads
        → AreHeadersLeft first told heads seen → AreOfOneArray copies seen → HaveDiesOfMask seen → Among x seen
        → holds_page w.core.page_map page x.header.die.0 ≡ true → whole_refusal copies seen ≡ None }
{
    the_mask_has_the_holders();
    a_header_names_the_holders();
    headers_of_one_epoch_are_alike();
}

/// Nor is it for what the slots hold, where each die of that mask was read, the images with the mark of a spare are those of the spares as
/// the array was mounted, fewer dies are out than each page has copies, and one of the dies holds a page.
pub fn recovering_is_not_refused_by_the_slots()
    ensures { (first w : World) (told : ℕ → HeaderTells) (happenings : List Happening) (u : Unsynced) (cells : ℕ → ℕ → Cell)
        (heads : ℕ → Option HeaderTells) (seen : List Seen) (x : Seen) (page dies copies : ℕ) (outcomes : List Outcome)
        (refusal : MountRefused) → IsBeginning first → AreFirstHeaders first told
        → RunWhole first (nothing_unsynced first) happenings w u → IsCut w u cells heads → AreHeadersLeft first told heads seen
        → AreSparesMarked first seen → AreReadLeft first cells seen outcomes → Among x seen → x.header.die.0 < dies
        → holds_page w.core.page_map page x.header.die.0 ≡ true
        → AreFewGone copies (mask_in (greatest_epoch seen) seen) (standings_of (mask_in (greatest_epoch seen) seen) seen dies) outcomes
        → ¬ (AreSlotsRefused copies (mask_in (greatest_epoch seen) seen) (standings_of (mask_in (greatest_epoch seen) seen) seen dies)
        outcomes refusal) }
{
    the_mask_has_the_holders();
    what_has_its_mark_is_as_it_was_mounted();
    what_was_found_is_what_is_seen();
}
