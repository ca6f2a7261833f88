//! The mask of the greatest epoch, and the mark of a clean close.
ghost use Rattle.std.specs.Prelude.{◌≡◌, ℕ, ◌<◌, true, List, None, Option};
ghost use Rattle.fa_crash.specs.Cut.{IsCut};
ghost use Rattle.fa_crash.specs.Headers.{AreFirstHeaders};
ghost use Rattle.fa_crash.specs.Unsynced.{Unsynced, nothing_unsynced};
ghost use Rattle.fa_crash.specs.Whole.{RunWhole};
ghost use Rattle.fa_crash.specs.HeadersLeft.{AreHeadersLeft};
ghost use Rattle.fa_machine.specs.Among.{Among};
ghost use Rattle.fa_machine.specs.Beginning.{IsBeginning};
ghost use Rattle.fa_machine.specs.Cells.{Cell};
ghost use Rattle.fa_machine.specs.Copies.{holds_page};
ghost use Rattle.fa_machine.specs.Run.{Happening};
ghost use Rattle.fa_machine.specs.World.{HeaderTells, World};
ghost use Rattle.fa_mount_headers.specs.Judged.{standing_of};
ghost use Rattle.fa_mount_headers.specs.Rules.{greatest_epoch, is_in, mask_in, unclean_die};
ghost use Rattle.fa_mount_headers.specs.declared.judging.Standing.TheVariants.{Live};
ghost use Rattle.fa_mount_headers.specs.declared.seen.Seen.{Seen};

use crate::crashes::{a_header_names_the_holders, what_has_its_mark_is_as_it_was_mounted};

/// Behind each cut, and with any images of which one is of a die that holds a page, that die is in the mask of the greatest epoch of their
/// headers, and stands as live.
pub fn the_mask_has_the_holders()
    ensures mask { (first w : World) (told : ℕ → HeaderTells) (happenings : List Happening) (u : Unsynced) (cells : ℕ → ℕ → Cell)
        (heads : ℕ → Option HeaderTells) (seen : List Seen) (x : Seen) (page : ℕ) → IsBeginning first → AreFirstHeaders first told
        → RunWhole first (nothing_unsynced first) happenings w u → IsCut w u cells heads → AreHeadersLeft first told heads seen
        → Among x seen → holds_page w.core.page_map page x.header.die.0 ≡ true
        → is_in (mask_in (greatest_epoch seen) seen) x.header.die.0 ≡ true }
    ensures live { (first w : World) (told : ℕ → HeaderTells) (happenings : List Happening) (u : Unsynced) (cells : ℕ → ℕ → Cell)
        (heads : ℕ → Option HeaderTells) (seen : List Seen) (x : Seen) (page : ℕ) → IsBeginning first → AreFirstHeaders first told
        → RunWhole first (nothing_unsynced first) happenings w u → IsCut w u cells heads → AreHeadersLeft first told heads seen
        → Among x seen → holds_page w.core.page_map page x.header.die.0 ≡ true
        → (index : ℕ) × (standing_of (mask_in (greatest_epoch seen) seen) seen x.header.die.0 ≡ Live index) }
{
    a_header_names_the_holders();
}

/// Images behind a cut whose headers are those of a clean array, each die of the mask closed clean, have in each slot of such a die what it
/// had as the array was mounted: what is mounted of them is what the last clean close left, and nothing that was written since.
pub fn a_clean_mount_is_of_the_last_close()
    ensures { (first w : World) (told : ℕ → HeaderTells) (happenings : List Happening) (u : Unsynced) (cells : ℕ → ℕ → Cell)
        (heads : ℕ → Option HeaderTells) (seen : List Seen) (dies die slot : ℕ) → IsBeginning first → AreFirstHeaders first told
        → RunWhole first (nothing_unsynced first) happenings w u → IsCut w u cells heads → AreHeadersLeft first told heads seen
        → unclean_die dies (greatest_epoch seen) (mask_in (greatest_epoch seen) seen) seen ≡ None → die < dies
        → is_in (mask_in (greatest_epoch seen) seen) die ≡ true → cells die slot ≡ (first.images die).seen slot }
{
    what_has_its_mark_is_as_it_was_mounted();
}
