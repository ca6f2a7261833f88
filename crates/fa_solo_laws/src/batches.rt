//! What batches are answered while nothing is written.
ghost use Rattle.std.specs.Prelude.{◌≡◌, ◌≢◌, ℕ, Contains, List, Ok, Some, map};
ghost use Rattle.std.specs.FinMap.{get};
ghost use Rattle.std.specs.List.{AllByRecursion};
ghost use Rattle.fa_types.specs.declared.numbers.Page.{Page};
ghost use Rattle.fa_types.specs.declared.numbers.Slot.{Slot};
ghost use Rattle.fa_solo_laws.specs.Unwritten.{EndsNoBatch, GivesPlainPage, WritesNothing};
ghost use Rattle.fa_laws.specs.Reached.{IsReached};
ghost use Rattle.fa_laws.specs.Untouched.{EndsNoJob};
ghost use Rattle.fa_machine.specs.declared.answers.ReadState.TheVariants.{Ready};
ghost use Rattle.fa_machine.specs.declared.ids.BatchId.{BatchId};
ghost use Rattle.fa_machine.specs.declared.jobs.Flight.TheVariants.{Read};
ghost use Rattle.fa_machine.specs.declared.places.Version.{Version};
ghost use Rattle.fa_machine.specs.Cells.{Cell, DidRead, payload_of};
ghost use Rattle.fa_machine.specs.Reading.{Admitted, results};
ghost use Rattle.fa_machine.specs.Run.{Happening, HappensEvent, Run};
ghost use Rattle.fa_machine.specs.Step.{Admit, Done, EndBatch, Take};
ghost use Rattle.fa_machine.specs.Taking.{Handed};
ghost use Rattle.fa_machine.specs.World.{Told, World, plain_page};

use fa_laws::reads::{a_read_gives_the_page_of_its_take, what_was_told_is_the_numbers_bytes};
use fa_laws::steps::numbers_are_kept;

/// While no Commit is accepted the plain array stays as it is, and each answer of a batch gives its page of the plain array as it was
/// at the batch's Admit, whatever other events there are and whatever calls of images fail. A batch that is ready answers each page of its
/// list once, in the list's order.
pub fn a_batch_while_nothing_is_written()
    ensures answers { (w opened last after : World) (pages : List ℕ) (admitted : Admitted) (happenings : List Happening)
        (answer : List (ℕ × List ℕ)) → IsReached w → HappensEvent w (Admit pages (Ok admitted)) opened
        → Run opened happenings last → AllByRecursion WritesNothing happenings
        → HappensEvent last (EndBatch admitted.batch.0 answer) after → AllByRecursion (GivesPlainPage w) answer }
    ensures ready { (w opened last after : World) (pages : List ℕ) (admitted : Admitted) (happenings : List Happening)
        (answer : List (ℕ × List ℕ)) → IsReached w → HappensEvent w (Admit pages (Ok admitted)) opened
        → Run opened happenings last → AllByRecursion WritesNothing happenings
        → AllByRecursion (EndsNoBatch admitted.batch.0) happenings → results last.core admitted.batch.0 ≡ Ready
        → HappensEvent last (EndBatch admitted.batch.0 answer) after → answer ≡ map (λ page. (page, plain_page w page)) pages }
    ensures plain { (w last : World) (happenings : List Happening) → Run w happenings last
        → AllByRecursion WritesNothing happenings → last.plain ≡ w.plain }
{}

/// No answer of such a batch has other bytes than the plain array's page, and a batch that is ready leaves out no page of its list.
pub fn wrong_answers_are_none()
    ensures bytes { (w opened last after : World) (pages : List ℕ) (admitted : Admitted) (happenings : List Happening)
        (answer : List (ℕ × List ℕ)) (page : ℕ) (bytes : List ℕ) → IsReached w → HappensEvent w (Admit pages (Ok admitted)) opened
        → Run opened happenings last → AllByRecursion WritesNothing happenings → Contains answer (page, bytes)
        → bytes ≢ plain_page w page → ¬ (HappensEvent last (EndBatch admitted.batch.0 answer) after) }
    ensures left_out { (w opened last after : World) (pages : List ℕ) (admitted : Admitted) (happenings : List Happening)
        (answer : List (ℕ × List ℕ)) (page : ℕ) → IsReached w → HappensEvent w (Admit pages (Ok admitted)) opened
        → Run opened happenings last → AllByRecursion WritesNothing happenings
        → AllByRecursion (EndsNoBatch admitted.batch.0) happenings → results last.core admitted.batch.0 ≡ Ready
        → Contains pages page → ((bytes : List ℕ) → ¬ (Contains answer (page, bytes)))
        → ¬ (HappensEvent last (EndBatch admitted.batch.0 answer) after) }
{}

/// Where no Commit is accepted between the Take of a read and its Done, the read gives what the plain array has of the page as it ends.
/// What was told for a page with the number that the page has is what the plain array has of it until a Commit is accepted.
pub fn a_told_page_while_nothing_is_written()
    ensures read { (w taken_then last after : World) (die seat : ℕ) (job : Handed) (batch : BatchId) (page : Page) (version : Version)
        (slot : Slot) (happenings : List Happening) (cell : Cell)
        → IsReached w → HappensEvent w (Take die seat (Some job)) taken_then → job.flight ≡ Read batch page version slot
        → Run taken_then happenings last → AllByRecursion WritesNothing happenings → AllByRecursion (EndsNoJob die) happenings
        → HappensEvent last (Done die (DidRead cell)) after
        → payload_of page.0 version die slot.0 cell ≡ Some (plain_page last page.0) }
    ensures told { (w last : World) (t : Told) (version : Version) (happenings : List Happening) → IsReached w → Contains w.told t
        → get w.core.page_map.versions t.page ≡ Some version → version.seq.0 ≡ t.seq
        → Run w happenings last → AllByRecursion WritesNothing happenings → t.bytes ≡ plain_page last t.page }
{
    a_read_gives_the_page_of_its_take();
    what_was_told_is_the_numbers_bytes();
}

/// While no Commit is accepted a page keeps its number, and what a batch answers for it is told with that number as the batch ends. So one
/// more copy of the page may be reserved of these bytes.
pub fn what_a_batch_answers_is_told()
    ensures { (w opened last after : World) (pages : List ℕ) (admitted : Admitted) (happenings : List Happening)
        (answer : List (ℕ × List ℕ)) (page : ℕ) (bytes : List ℕ) (version : Version) → IsReached w
        → HappensEvent w (Admit pages (Ok admitted)) opened → Run opened happenings last → AllByRecursion WritesNothing happenings
        → HappensEvent last (EndBatch admitted.batch.0 answer) after → Contains answer (page, bytes)
        → get w.core.page_map.versions page ≡ Some version
        → Contains after.told (record { page = page; seq = version.seq.0; bytes = bytes })
        × (get after.core.page_map.versions page ≡ Some version) }
{
    numbers_are_kept();
}
