//! What those ask next who rely on the reads, over every run.
ghost use Rattle.std.specs.Prelude.{◌≡◌, ◌≢◌, ◌==◌, ℕ, ◌<◌, ◌≤◌, ◌⊎◌, List, Result, Ok, Some, true, false};
ghost use Rattle.std.specs.List.{list_any, AllByRecursion};
ghost use Rattle.std.specs.FinMap.{contains_key, get};
ghost use Rattle.fa_types.specs.declared.numbers.Round.{Round};
ghost use Rattle.fa_types.specs.declared.numbers.Seq.{Seq};
ghost use Rattle.fa_laws.specs.InTime.{IsPlannedUntil, PlansNothing};
ghost use Rattle.fa_laws.specs.Leaving.{RunLeaving};
ghost use Rattle.fa_laws.specs.Reached.{IsReached};
ghost use Rattle.fa_laws.specs.Reading.{HasEnded, IsAnsweredLost};
ghost use Rattle.fa_laws.specs.Syncing.{TakesAndEndsSync};
ghost use Rattle.fa_machine.specs.declared.answers.Flush.{Flush};
ghost use Rattle.fa_machine.specs.declared.answers.FlushState.TheVariants.{Synced};
ghost use Rattle.fa_machine.specs.declared.answers.ReadState.TheVariants.{Ready, Torn};
ghost use Rattle.fa_machine.specs.declared.places.Booking.{Booking};
ghost use Rattle.fa_machine.specs.declared.refusals.AdmitRefused.{AdmitRefused};
ghost use Rattle.fa_machine.specs.Cells.{Fault, Outcome};
ghost use Rattle.fa_machine.specs.Conditions.{reserved_under};
ghost use Rattle.fa_machine.specs.Copies.{holds_page, is_lost};
ghost use Rattle.fa_machine.specs.Reading.{Admitted, results};
ghost use Rattle.fa_machine.specs.Run.{Happening, HappensEvent, Run};
ghost use Rattle.fa_machine.specs.State.{Reservation, is_live};
ghost use Rattle.fa_machine.specs.Step.{Act, Admit, Advance, Commit, Done, FlushBegin, FlushState};
ghost use Rattle.fa_machine.specs.World.{World};
ghost use Rattle.fa_machine.specs.Writing.{claimed_page, live_targets};

use crate::steps::{
    a_sync_is_of_its_take, flushes_are_counted, live_dies_are_kept, no_older_sync_answers_a_flush,
    spares_are_kept, synced_rises_by_a_sync, the_geometry_is_kept,
};

/// In every run a die goes out only as its job ends with a fault that its image answered. As images are honest, no read
/// and no move finds another slot than the one that it asks for.
pub fn a_die_leaves_only_with_a_fault()
    ensures { (w after : World) (act : Act) (die : ℕ) → IsReached w → HappensEvent w act after
        → is_live w.core.page_map die ≡ true → is_live after.core.page_map die ≡ false
        → (call : ℕ) × (act ≡ Done die (Fault call)) }
{
    live_dies_are_kept();
}

/// A list with a page that was written and has no holder is answered Lost, with the first such page, and nothing else.
pub fn a_lost_page_is_answered_lost()
    ensures { (w after : World) (pages : List ℕ) (answer : Result Admitted AdmitRefused) → HappensEvent w (Admit pages answer) after
        → list_any (is_lost w.core.page_map) pages ≡ true → IsAnsweredLost w.core pages answer }
{}

/// The round rises only where each read that is booked in it was started and has ended.
pub fn a_round_waits_for_its_reads()
    ensures { (w after : World) (round : Round) (die : ℕ) (booking : Booking) → IsReached w
        → HappensEvent w (Advance (Ok round)) after → get w.core.calendar.bookings (die, w.core.calendar.round) ≡ Some booking
        → HasEnded w.core die booking }
{
    live_dies_are_kept();
    the_geometry_is_kept();
}

/// A batch that was planned and then not planned anew is torn, or has an answer for each of its pages, once the last round
/// of the plan has passed.
pub fn a_batch_is_answered_in_time()
    ensures { (w planned_then last : World) (act : Act) (batch until : ℕ) (happenings : List Happening)
        → IsReached w → HappensEvent w act planned_then → IsPlannedUntil w.core act batch until
        → Run planned_then happenings last → AllByRecursion (PlansNothing batch) happenings → until ≤ last.core.calendar.round
        → (results last.core batch ≡ Torn) ⊎ (results last.core batch ≡ Ready) }
{}

/// A page that two dies hold is not lost as a job of one die ends, whatever that does to the die, so its next admission is
/// not refused as Lost for it.
pub fn two_copies_outlast_a_die()
    ensures { (w after : World) (out : ℕ) (outcome : Outcome) (page one two : ℕ) → IsReached w → HappensEvent w (Done out outcome) after
        → holds_page w.core.page_map page one ≡ true → holds_page w.core.page_map page two ≡ true → one ≢ two
        → is_lost after.core.page_map page ≡ false }
{
    live_dies_are_kept();
    the_geometry_is_kept();
}

/// An accepted Commit leaves the page on each live die on which it was reserved.
pub fn a_commit_is_held()
    ensures { (w after : World) (claim seat die : ℕ) (seq : Seq) (r : Reservation) → IsReached w
        → HappensEvent w (Commit claim seat (Ok seq)) after → reserved_under w.core claim ≡ Some r
        → list_any (λ t. t.die.0 == die) (live_targets w.core r.targets) ≡ true
        → holds_page after.core.page_map (claimed_page w.core claim) die ≡ true }
{}

/// A die that is neither live nor a spare stays so in every run: one that went out does not come back.
pub fn a_die_that_went_out_stays_out()
    ensures { (w last : World) (happenings : List Happening) (die : ℕ) → Run w happenings last
        → is_live w.core.page_map die ≡ false → contains_key w.core.spares die ≡ false → is_live last.core.page_map die ≡ false }
{
    live_dies_are_kept();
    spares_are_kept();
}

/// A page that a live die holds is held by it as long as the page is not written again and the die is live, whatever is
/// moved, erased or reserved meanwhile. So of two dies that hold a page either may go out: the page is not lost.
pub fn a_copy_stays_with_its_die()
    ensures holds { (w last : World) (happenings : List Happening) (page die : ℕ) → IsReached w
        → holds_page w.core.page_map page die ≡ true → RunLeaving page w happenings last → is_live last.core.page_map die ≡ true
        → holds_page last.core.page_map page die ≡ true }
    ensures kept { (w last : World) (happenings : List Happening) (page die : ℕ) → IsReached w
        → holds_page w.core.page_map page die ≡ true → RunLeaving page w happenings last → is_live last.core.page_map die ≡ true
        → is_lost last.core.page_map page ≡ false }
{
    live_dies_are_kept();
    spares_are_kept();
    the_geometry_is_kept();
    a_die_that_went_out_stays_out();
}

/// A flush is synced only as each die that was live when it began, and is live still, has taken a sync since, and ended it.
pub fn a_flush_is_synced_by_syncs()
    ensures { (w begun_then last after : World) (flush : Flush) (happenings : List Happening) (die : ℕ)
        → IsReached w → HappensEvent w (FlushBegin (Ok flush)) begun_then → Run begun_then happenings last
        → HappensEvent last (FlushState flush Synced) after
        → is_live w.core.page_map die ≡ true → is_live last.core.page_map die ≡ true → TakesAndEndsSync die happenings }
{
    live_dies_are_kept();
    the_geometry_is_kept();
    synced_rises_by_a_sync();
    a_sync_is_of_its_take();
    flushes_are_counted();
    no_older_sync_answers_a_flush();
}
