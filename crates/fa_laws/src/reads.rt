//! What batches are answered, over every run.
ghost use Rattle.std.specs.Prelude.{◌≡◌, ℕ, Contains, List, Some};
ghost use Rattle.std.specs.FinMap.{get};
ghost use Rattle.std.specs.List.{AllByRecursion};
ghost use Rattle.fa_types.specs.declared.numbers.Page.{Page};
ghost use Rattle.fa_types.specs.declared.numbers.Slot.{Slot};
ghost use Rattle.fa_laws.specs.Plain.{ChangesPlain};
ghost use Rattle.fa_laws.specs.Reached.{IsReached};
ghost use Rattle.fa_laws.specs.Untouched.{EndsNoJob};
ghost use Rattle.fa_machine.specs.declared.ids.BatchId.{BatchId};
ghost use Rattle.fa_machine.specs.declared.jobs.Flight.TheVariants.{Read};
ghost use Rattle.fa_machine.specs.declared.places.Version.{Version};
ghost use Rattle.fa_machine.specs.Cells.{Cell, DidRead, payload_of};
ghost use Rattle.fa_machine.specs.Run.{Happening, Happens, HappensEvent, ReadsRight, Run};
ghost use Rattle.fa_machine.specs.Step.{Act, Done, Take};
ghost use Rattle.fa_machine.specs.Taking.{Handed};
ghost use Rattle.fa_machine.specs.World.{Told, World, plain_page};

/// In every run each page that an EndBatch answers has the plain array's page at the Take of the read whose Done gave
/// the answer, and that Take was not before the batch's Admit; or it has zeros, where it was never written or is a hole.
/// The plain array changes where a Commit is accepted, by the bytes that were reserved, and nowhere else.
pub fn run_reads()
    ensures reads { (w after : World) (act : Act) → IsReached w → HappensEvent w act after → ReadsRight w act }
    ensures plain { (w after : World) (happening : Happening) → IsReached w → Happens w happening after
        → ChangesPlain w happening after }
{}

/// What a read gives is the plain array's page as the read was taken, whatever was written, moved, erased or planned anew
/// between its Take and its Done.
pub fn a_read_gives_the_page_of_its_take()
    ensures { (w taken_then last after : World) (die seat : ℕ) (job : Handed) (batch : BatchId) (page : Page) (version : Version)
        (slot : Slot) (happenings : List Happening) (cell : Cell)
        → IsReached w → HappensEvent w (Take die seat (Some job)) taken_then → job.flight ≡ Read batch page version slot
        → Run taken_then happenings last → AllByRecursion (EndsNoJob die) happenings
        → HappensEvent last (Done die (DidRead cell)) after
        → payload_of page.0 version die slot.0 cell ≡ Some (plain_page w page.0) }
{}

/// What a read told for a page with a number is the bytes that were reserved for the page with that number. As long as the
/// page has that number, it is what the plain array has of the page.
pub fn what_was_told_is_the_numbers_bytes()
    ensures reserved { (w : World) (t : Told) → IsReached w → Contains w.told t → t.bytes ≡ w.payloads t.page t.seq }
    ensures plain { (w : World) (t : Told) (version : Version) → IsReached w → Contains w.told t
        → get w.core.page_map.versions t.page ≡ Some version → version.seq.0 ≡ t.seq → t.bytes ≡ plain_page w t.page }
{}
