//! What is left of a page that was flushed.
ghost use Rattle.std.specs.Prelude.{◌≡◌, ℕ, ◌<◌, ◌≤◌, true, List, None, Option, Some};
ghost use Rattle.std.specs.FinMap.{get};
ghost use Rattle.fa_machine.specs.declared.places.Version.{Version};
ghost use Rattle.fa_machine.specs.Beginning.{IsBeginning};
ghost use Rattle.fa_machine.specs.Cells.{Cell};
ghost use Rattle.fa_machine.specs.Copies.{holds_page};
ghost use Rattle.fa_machine.specs.Run.{Happening};
ghost use Rattle.fa_machine.specs.State.{is_live};
ghost use Rattle.fa_machine.specs.World.{HeaderTells, World};
ghost use Rattle.fa_crash.specs.Cut.{IsCut};
ghost use Rattle.fa_crash.specs.Flushed.{AreOfLast, IsPromised, is_of_array};
ghost use Rattle.fa_crash.specs.Headers.{AreFirstHeaders, AreMountedAgain, AreToldAlike, IsNewest, NameOurs, names, tells};
ghost use Rattle.fa_crash.specs.Outlasts.{AreReserved, IsLeftOn};
ghost use Rattle.fa_crash.specs.Unsynced.{Unsynced, nothing_unsynced, number_of};
ghost use Rattle.fa_crash.specs.Whole.{RunWhole};

use fa_laws::promises::a_copy_stays_with_its_die;
use fa_laws::steps::{
    a_commit_raises_the_number, a_sync_is_of_its_take, flushes_are_counted, live_dies_are_kept,
    no_older_sync_answers_a_flush, numbers_are_kept, only_an_erase_erases, spares_are_kept,
    synced_rises_by_a_sync, the_geometry_is_kept, the_last_number_never_falls,
};
use fa_sound::sound::{a_beginning_is_sound, a_step_keeps_sound};

/// Behind each cut, each die that held a page that was flushed has a good cell of it with no smaller number than the page had as the
/// flush began; and each good cell with such a number, on any die of the array, has the bytes that were reserved for this number. So it
/// is with the number that a page had as the array was mounted.
pub fn a_promised_page_is_left_on_its_holders()
    ensures left { (first w : World) (u : Unsynced) (page number die : ℕ) (cells : ℕ → ℕ → Cell) (heads : ℕ → Option HeaderTells)
        → IsPromised first page number w u → IsCut w u cells heads → holds_page w.core.page_map page die ≡ true
        → IsLeftOn w cells page number die }
    ensures bytes { (first w : World) (u : Unsynced) (page number : ℕ) (cells : ℕ → ℕ → Cell) (heads : ℕ → Option HeaderTells)
        → IsPromised first page number w u → IsCut w u cells heads → AreReserved first w cells page number }
{
    a_beginning_is_sound();
    a_step_keeps_sound();
    live_dies_are_kept();
    spares_are_kept();
    numbers_are_kept();
    a_commit_raises_the_number();
    the_geometry_is_kept();
    only_an_erase_erases();
    a_copy_stays_with_its_die();
    synced_rises_by_a_sync();
    a_sync_is_of_its_take();
    flushes_are_counted();
    no_older_sync_answers_a_flush();
    the_last_number_never_falls();
}

/// Behind each cut, each good cell of a page on a die of the array that is of no older write than the page's last as the array was mounted
/// has the bytes that were reserved for its number. So any two of one number are alike.
pub fn each_good_cell_of_a_cut_is_reserved()
    ensures { (first w : World) (happenings : List Happening) (u : Unsynced) (page : ℕ) (cells : ℕ → ℕ → Cell)
        (heads : ℕ → Option HeaderTells) → IsBeginning first → AreOfLast first → RunWhole first (nothing_unsynced first) happenings w u
        → page < w.core.page_map.geometry.pages → IsCut w u cells heads
        → AreReserved first w cells page (number_of first.core page) }
{
    a_beginning_is_sound();
    a_step_keeps_sound();
    live_dies_are_kept();
    spares_are_kept();
    numbers_are_kept();
    a_commit_raises_the_number();
    the_geometry_is_kept();
    only_an_erase_erases();
    a_copy_stays_with_its_die();
    synced_rises_by_a_sync();
    a_sync_is_of_its_take();
    flushes_are_counted();
    no_older_sync_answers_a_flush();
    the_last_number_never_falls();
}

/// Behind each cut, each die that holds a page is in the mask of each header that is no older than its own. So among the headers of any
/// images of which one is of such a die, it is in the mask of those of the greatest epoch. A holder whose header no job has written was
/// live as the array was mounted.
pub fn a_header_names_the_holders()
    ensures names { (first w : World) (told : ℕ → HeaderTells) (happenings : List Happening) (u : Unsynced) (cells : ℕ → ℕ → Cell)
        (heads : ℕ → Option HeaderTells) (page die other : ℕ) → IsBeginning first → AreFirstHeaders first told
        → RunWhole first (nothing_unsynced first) happenings w u → IsCut w u cells heads → holds_page w.core.page_map page die ≡ true
        → (tells told heads die).epoch ≤ (tells told heads other).epoch → names (tells told heads other).live die ≡ true }
    ensures mounted { (first w : World) (told : ℕ → HeaderTells) (happenings : List Happening) (u : Unsynced) (cells : ℕ → ℕ → Cell)
        (heads : ℕ → Option HeaderTells) (page die : ℕ) → IsBeginning first → AreFirstHeaders first told
        → RunWhole first (nothing_unsynced first) happenings w u → IsCut w u cells heads → holds_page w.core.page_map page die ≡ true
        → heads die ≡ None → is_live first.core.page_map die ≡ true }
{
    a_beginning_is_sound();
    a_step_keeps_sound();
    live_dies_are_kept();
    spares_are_kept();
    numbers_are_kept();
    a_commit_raises_the_number();
    the_geometry_is_kept();
    only_an_erase_erases();
    a_copy_stays_with_its_die();
}

/// Behind each cut, the headers that jobs wrote in one epoch have one mask, and their epochs are not below that of the array as it was
/// mounted.
pub fn headers_of_one_epoch_are_alike()
    ensures alike { (first w : World) (told : ℕ → HeaderTells) (happenings : List Happening) (u : Unsynced) (cells : ℕ → ℕ → Cell)
        (heads : ℕ → Option HeaderTells) (die other : ℕ) (h l : HeaderTells) → IsBeginning first → AreFirstHeaders first told
        → RunWhole first (nothing_unsynced first) happenings w u → IsCut w u cells heads → heads die ≡ Some h → heads other ≡ Some l
        → h.epoch ≡ l.epoch → h.live ≡ l.live }
    ensures later { (first w : World) (told : ℕ → HeaderTells) (happenings : List Happening) (u : Unsynced) (cells : ℕ → ℕ → Cell)
        (heads : ℕ → Option HeaderTells) (die : ℕ) (h : HeaderTells) → IsBeginning first → AreFirstHeaders first told
        → RunWhole first (nothing_unsynced first) happenings w u → IsCut w u cells heads → heads die ≡ Some h
        → first.core.epoch ≤ h.epoch }
{
    a_beginning_is_sound();
    a_step_keeps_sound();
    live_dies_are_kept();
    spares_are_kept();
    numbers_are_kept();
    a_commit_raises_the_number();
    the_geometry_is_kept();
    only_an_erase_erases();
    a_copy_stays_with_its_die();
}

/// The headers that a cut leaves, where the next life mounted a set of dies that those of the greatest epoch name, are such as each law
/// of headers asks of a beginning. So the laws hold from life to life.
pub fn what_a_cut_leaves_are_first_headers_again()
    ensures first { (first w next : World) (told : ℕ → HeaderTells) (happenings : List Happening) (u : Unsynced) (cells : ℕ → ℕ → Cell)
        (heads : ℕ → Option HeaderTells) → IsBeginning first → AreFirstHeaders first told
        → RunWhole first (nothing_unsynced first) happenings w u → IsCut w u cells heads → AreMountedAgain first next told heads
        → AreFirstHeaders next (tells told heads) }
    ensures alike { (first w : World) (told : ℕ → HeaderTells) (happenings : List Happening) (u : Unsynced) (cells : ℕ → ℕ → Cell)
        (heads : ℕ → Option HeaderTells) → IsBeginning first → AreFirstHeaders first told → AreToldAlike told
        → RunWhole first (nothing_unsynced first) happenings w u → IsCut w u cells heads → AreToldAlike (tells told heads) }
{
    a_beginning_is_sound();
    a_step_keeps_sound();
    live_dies_are_kept();
    spares_are_kept();
    numbers_are_kept();
    a_commit_raises_the_number();
    the_geometry_is_kept();
    only_an_erase_erases();
    a_copy_stays_with_its_die();
}

/// Behind each cut, the newest of the headers name no dies but those of the array. So it is again in the next life, where each die that
/// they name is live or a spare. No others are live in any world of the run, and a die that holds a page is live.
pub fn the_newest_headers_name_dies_of_the_array()
    ensures ours { (first w : World) (told : ℕ → HeaderTells) (happenings : List Happening) (u : Unsynced) (cells : ℕ → ℕ → Cell)
        (heads : ℕ → Option HeaderTells) (top die : ℕ) → IsBeginning first → AreFirstHeaders first told → NameOurs first told
        → RunWhole first (nothing_unsynced first) happenings w u → IsCut w u cells heads → IsNewest (tells told heads) top
        → names (tells told heads top).live die ≡ true → is_of_array first die ≡ true }
    ensures again { (first w next : World) (told : ℕ → HeaderTells) (happenings : List Happening) (u : Unsynced) (cells : ℕ → ℕ → Cell)
        (heads : ℕ → Option HeaderTells) → IsBeginning first → AreFirstHeaders first told → AreToldAlike told
        → RunWhole first (nothing_unsynced first) happenings w u → IsCut w u cells heads → (again : AreMountedAgain first next told heads)
        → ((die : ℕ) → names (tells told heads again.top).live die ≡ true → is_of_array next die ≡ true)
        → NameOurs next (tells told heads) }
    ensures live { (first w : World) (told : ℕ → HeaderTells) (happenings : List Happening) (u : Unsynced) (die : ℕ) → IsBeginning first
        → AreFirstHeaders first told → RunWhole first (nothing_unsynced first) happenings w u → is_live w.core.page_map die ≡ true
        → is_of_array first die ≡ true }
    ensures holders { (first w : World) (told : ℕ → HeaderTells) (happenings : List Happening) (u : Unsynced) (page die : ℕ)
        → IsBeginning first → AreFirstHeaders first told → RunWhole first (nothing_unsynced first) happenings w u
        → holds_page w.core.page_map page die ≡ true → is_live w.core.page_map die ≡ true }
{
    a_beginning_is_sound();
    a_step_keeps_sound();
    live_dies_are_kept();
    spares_are_kept();
    numbers_are_kept();
    a_commit_raises_the_number();
    the_geometry_is_kept();
    only_an_erase_erases();
    a_copy_stays_with_its_die();
}

/// Behind each cut, a die whose header no job has written has in each slot what it had as the array was mounted. A job's header has no
/// mark of a clean close, so what has the mark is as the last clean close left it.
pub fn what_has_its_mark_is_as_it_was_mounted()
    ensures { (first w : World) (told : ℕ → HeaderTells) (happenings : List Happening) (u : Unsynced) (cells : ℕ → ℕ → Cell)
        (heads : ℕ → Option HeaderTells) (die slot : ℕ) → IsBeginning first → AreFirstHeaders first told
        → RunWhole first (nothing_unsynced first) happenings w u → IsCut w u cells heads → heads die ≡ None
        → cells die slot ≡ (first.images die).seen slot }
{
    a_beginning_is_sound();
    a_step_keeps_sound();
    live_dies_are_kept();
    spares_are_kept();
    numbers_are_kept();
    a_commit_raises_the_number();
    the_geometry_is_kept();
    only_an_erase_erases();
    a_copy_stays_with_its_die();
}

/// Each page that was mounted is promised from there on, with its number, where the images were synced before they were read.
pub fn what_is_mounted_is_promised()
    ensures { (first w : World) (happenings : List Happening) (u : Unsynced) (page : ℕ) (version : Version) → IsBeginning first
        → AreOfLast first → get first.core.page_map.versions page ≡ Some version → RunWhole first (nothing_unsynced first) happenings w u
        → IsPromised first page version.seq.0 w u }
{}
