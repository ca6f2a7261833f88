//! What an accepted Commit writes, and that it is read back.
ghost use Rattle.std.specs.Prelude.{◌≡◌, ◌≢◌, ℕ, Contains, List, Ok};
ghost use Rattle.std.specs.List.{AllByRecursion};
ghost use Rattle.fa_types.specs.declared.numbers.Seq.{Seq};
ghost use Rattle.fa_types.specs.Plain.{put};
ghost use Rattle.fa_solo_laws.specs.Claimed.{KeepsClaim};
ghost use Rattle.fa_solo_laws.specs.Unwritten.{WritesNothing};
ghost use Rattle.fa_laws.specs.Reached.{IsReached};
ghost use Rattle.fa_machine.specs.Reading.{Admitted, zeros};
ghost use Rattle.fa_machine.specs.Run.{Happening, HappensEvent, Run};
ghost use Rattle.fa_machine.specs.Step.{Admit, Commit, EndBatch, Reserve, ReserveFewer, ReserveHole};
ghost use Rattle.fa_machine.specs.World.{World, plain_page};
ghost use Rattle.fa_machine.specs.Writing.{claimed_page};

use fa_laws::steps::the_last_number_never_falls;

/// What is reserved under a claim is what the next accepted Commit of the claim writes, with the number that was given, where the claim is
/// not released nor given up meanwhile.
pub fn what_was_reserved_is_written()
    ensures bytes { (w reserved_then last after : World) (claim seat : ℕ) (payload : List ℕ) (seq given : Seq)
        (happenings : List Happening) → HappensEvent w (Reserve claim payload (Ok seq)) reserved_then
        → Run reserved_then happenings last → AllByRecursion (KeepsClaim claim) happenings
        → HappensEvent last (Commit claim seat (Ok given)) after
        → (given ≡ seq) × (after.plain ≡ put (claimed_page w.core claim) payload last.plain) }
    ensures fewer { (w reserved_then last after : World) (claim seat : ℕ) (payload : List ℕ) (seq given : Seq)
        (happenings : List Happening) → HappensEvent w (ReserveFewer claim payload (Ok seq)) reserved_then
        → Run reserved_then happenings last → AllByRecursion (KeepsClaim claim) happenings
        → HappensEvent last (Commit claim seat (Ok given)) after
        → (given ≡ seq) × (after.plain ≡ put (claimed_page w.core claim) payload last.plain) }
    ensures hole { (w reserved_then last after : World) (claim seat : ℕ) (seq given : Seq)
        (happenings : List Happening) → HappensEvent w (ReserveHole claim (Ok seq)) reserved_then
        → Run reserved_then happenings last → AllByRecursion (KeepsClaim claim) happenings
        → HappensEvent last (Commit claim seat (Ok given)) after
        → (given ≡ seq) × (after.plain ≡ put (claimed_page w.core claim) (zeros w.core.page_map) last.plain) }
{
    the_last_number_never_falls();
}

/// A batch that is admitted after a Commit, and answered before another Commit is accepted, gives the bytes that the Commit wrote for its
/// page, and for any other page what the plain array had before.
pub fn what_was_written_is_read_back()
    ensures written { (w written_then calm opened last after : World) (claim seat : ℕ) (seq : Seq) (payload : List ℕ)
        (before happenings : List Happening) (pages : List ℕ) (admitted : Admitted) (answer : List (ℕ × List ℕ)) (bytes : List ℕ)
        → IsReached w → HappensEvent w (Commit claim seat (Ok seq)) written_then
        → written_then.plain ≡ put (claimed_page w.core claim) payload w.plain
        → Run written_then before calm → AllByRecursion WritesNothing before
        → HappensEvent calm (Admit pages (Ok admitted)) opened
        → Run opened happenings last → AllByRecursion WritesNothing happenings
        → HappensEvent last (EndBatch admitted.batch.0 answer) after
        → Contains answer (claimed_page w.core claim, bytes) → bytes ≡ payload }
    ensures others { (w written_then calm opened last after : World) (claim seat : ℕ) (seq : Seq)
        (before happenings : List Happening) (pages : List ℕ) (admitted : Admitted) (answer : List (ℕ × List ℕ)) (page : ℕ)
        (bytes : List ℕ) → IsReached w → HappensEvent w (Commit claim seat (Ok seq)) written_then
        → Run written_then before calm → AllByRecursion WritesNothing before
        → HappensEvent calm (Admit pages (Ok admitted)) opened
        → Run opened happenings last → AllByRecursion WritesNothing happenings
        → HappensEvent last (EndBatch admitted.batch.0 answer) after
        → page ≢ claimed_page w.core claim → Contains answer (page, bytes) → bytes ≡ plain_page w page }
{}
