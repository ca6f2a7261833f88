//! Laws of single events, each the contract of a function with no code.
ghost use Rattle.std.specs.Prelude.{◌≡◌, ℕ, ◌+◌, ◌<◌, ◌≤◌, ◌⊎◌, true, false, not, List, [], ◌∷◌, map};
ghost use Rattle.std.specs.Prelude.{Option, Some, None, is_some, Result, Ok, Err};
ghost use Rattle.std.specs.List.{AllByRecursion, list_any, list_all};
ghost use Rattle.std.specs.FinMap.{contains_key, get};
ghost use Rattle.fa_types.specs.declared.numbers.Page.{Page};
ghost use Rattle.fa_types.specs.declared.numbers.Round.{Round};
ghost use Rattle.fa_types.specs.declared.numbers.Seq.{Seq};
ghost use Rattle.fa_types.specs.Windows.{is_in_window};
ghost use Rattle.fa_machine.specs.declared.jobs.CollectorStep.TheVariants.{EraseBlock};
ghost use Rattle.fa_machine.specs.declared.jobs.Flight.TheVariants.{Header, Read};
ghost use Rattle.fa_machine.specs.declared.ids.Block.{Block};
ghost use Rattle.fa_types.specs.declared.kind.Kind.{Kind};
ghost use Rattle.fa_machine.specs.declared.places.Used.TheVariants.{Held};
ghost use Rattle.fa_machine.specs.declared.places.Version.{Version};
ghost use Rattle.fa_machine.specs.declared.refusals.AbandonRefused.{AbandonRefused};
ghost use Rattle.fa_machine.specs.declared.refusals.AdvanceRefused.{AdvanceRefused};
ghost use Rattle.fa_machine.specs.declared.refusals.CommitCopyRefused.{CommitCopyRefused};
ghost use Rattle.fa_machine.specs.declared.refusals.CommitRefused.{CommitRefused};
ghost use Rattle.fa_machine.specs.declared.refusals.SpareRefused.{SpareRefused};
ghost use Rattle.fa_machine.specs.Collecting.{next_step, count_in};
ghost use Rattle.fa_machine.specs.Copies.{is_current, is_lost, is_reserved_slot};
ghost use Rattle.fa_machine.specs.Flushing.{flush_state, has_synced};
ghost use Rattle.fa_machine.specs.Run.{HappensEvent};
ghost use Rattle.fa_machine.specs.World.{World};
ghost use Rattle.fa_machine.specs.Cells.{Cell, DidRead, Outcome, payload_of};
ghost use Rattle.fa_machine.specs.declared.answers.Copied.{Copied};
ghost use Rattle.fa_machine.specs.declared.answers.Flush.{Flush};
ghost use Rattle.fa_machine.specs.declared.answers.FlushState.TheVariants.{Synced};
ghost use Rattle.fa_machine.specs.Placement.{homes};
ghost use Rattle.fa_machine.specs.declared.ids.BatchId.{BatchId};
ghost use Rattle.fa_machine.specs.declared.refusals.AdmitRefused.TheVariants.{Lost};
ghost use Rattle.fa_types.specs.declared.numbers.Slot.{Slot};
ghost use Rattle.fa_machine.specs.Reading.{Admitted, Admits, EndsBatch, Planned, Replans};
ghost use Rattle.fa_machine.specs.Conditions.{reserved_under};
ghost use Rattle.fa_laws.specs.Erased.{IsErased, RaisesNumber};
ghost use Rattle.fa_laws.specs.Syncing.{KeepsFlushes, KeepsJobs, KeepsSynced};
ghost use Rattle.fa_sound.specs.Sound.{IsSound};
ghost use Rattle.fa_laws.specs.Kept.{IsFatal, KeepsLive, KeepsNumbers, KeepsPlain, KeepsRound, KeepsSpares, KeepsWindows};
ghost use Rattle.fa_machine.specs.State.{Core, MapState, Reservation, dies_of, is_live, used_at};
ghost use Rattle.fa_machine.specs.Step.{Abandon, Act, Admit, Commit, CommitCopy, Does, Done, Replan, Step};
ghost use Rattle.fa_machine.specs.Taking.{Handed, Takes, mask_of, read_job};
ghost use Rattle.fa_machine.specs.Turning.{Advances, BringsIn, TakesWindow, is_round_pending};
ghost use Rattle.fa_machine.specs.Writing.{Reserves, claimed_page, live_targets};

/// A Reserve gives the number behind the last one given, and that is the last one then, so none is given twice.
pub fn a_number_is_given_once()
    ensures { (old new : Core) (claim least : ℕ) (kind : Kind) (payload : List ℕ) (seq : Seq)
        → Reserves old claim least kind payload (Ok seq) new → (seq.0 ≡ old.last + 1) × (new.last ≡ seq.0) }
{}

/// An admission changes bookings and batches alone.
pub fn admit_takes_no_window()
    ensures { (old new : Core) (pages : List ℕ) (admitted : Admitted) → Admits old pages (Ok admitted) new
        → new ≡ record old {
          calendar = record (old.calendar) { bookings = new.calendar.bookings };
          batches = new.batches;
        } }
{}

/// A plan anew changes bookings alone: windows stay, and so do the answers that the batch has.
pub fn a_plan_anew_changes_bookings_alone()
    ensures { (old new : Core) (batch : ℕ) (planned : Planned) → Replans old batch (Ok planned) new
        → new ≡ record old { calendar = record (old.calendar) { bookings = new.calendar.bookings } } }
{}

/// A window begins after the current round.
pub fn no_window_starts_now()
    ensures { (old new : Core) (die count : ℕ) (first : Round) → TakesWindow old die count (Ok first) new
        → old.calendar.round < first.0 }
{}

/// A die whose header is behind takes no other job.
pub fn a_header_that_is_behind_comes_first()
    ensures { (old new : Core) (die seat : ℕ) (job : Handed) → contains_key old.behind die ≡ true
        → Takes old die seat (Some job) new → job.flight ≡ Header old.epoch (mask_of old.page_map) }
{}

/// The collector erases no block with a reserved slot.
pub fn no_reserved_slot_is_erased()
    ensures { (m : MapState) (die : ℕ) (block : Block) → next_step m die ≡ EraseBlock block
        → count_in m die block.0 is_reserved_slot ≡ 0 }
{}

/// No event lowers the last number given, so whatever Reserve gives later is greater.
pub fn the_last_number_never_falls()
    ensures { (old new : Core) (act : Act) → Step old act new → old.last ≤ new.last }
{}

/// Which dies are live changes by Done and SpareIn alone.
pub fn live_dies_are_kept()
    ensures { (old new : Core) (act : Act) → Step old act new → KeepsLive old act new }
{}

/// No event changes the geometry.
pub fn the_geometry_is_kept()
    ensures { (old new : Core) (act : Act) → Step old act new → new.page_map.geometry ≡ old.page_map.geometry }
{}

/// Which spares there are changes by SpareIn alone.
pub fn spares_are_kept()
    ensures { (old new : Core) (act : Act) → Step old act new → KeepsSpares old act new }
{}

/// A window comes by Window alone. It goes by an Advance past its last round, or with its die as a job of the die ends.
pub fn windows_are_kept()
    ensures { (old new : Core) (act : Act) → Step old act new → KeepsWindows old act new }
{}

/// The round rises by Advance alone, by one.
pub fn the_round_is_kept()
    ensures { (old new : Core) (act : Act) → Step old act new → KeepsRound old act new }
{}

/// The numbers of pages change by Commit alone.
pub fn numbers_are_kept()
    ensures { (old new : Core) (act : Act) → Step old act new → KeepsNumbers old act new }
{}

/// An accepted Commit gives the page of the claim the number that was reserved, and that is above the one that the page had.
/// No other page's number changes.
pub fn a_commit_raises_the_number()
    ensures { (old new : Core) (claim seat : ℕ) (seq : Seq) → IsSound old → Step old (Commit claim seat (Ok seq)) new
        → RaisesNumber old (claimed_page old claim) seq new }
{}

/// A used slot of a die that stays live is erased by the end of an erase of its block alone, and not where it is reserved.
pub fn only_an_erase_erases()
    ensures { (old new : Core) (act : Act) (die slot : ℕ) → Step old act new → is_live new.page_map die ≡ true
        → is_some (used_at old.page_map die slot) ≡ true → used_at new.page_map die slot ≡ None → IsErased old act die slot }
{}

/// What a die has synced changes only as a sync of the die ends, to the flushes that the sync was taken for, or as the die
/// goes out.
pub fn synced_rises_by_a_sync()
    ensures { (old new : Core) (act : Act) → Step old act new → KeepsSynced old act new }
{}

/// A job begins by a Take and ends by the die's Done. A sync is for the flushes that were begun as it was taken.
pub fn a_sync_is_of_its_take()
    ensures { (old new : Core) (act : Act) → Step old act new → KeepsJobs old act new }
{}

/// How many flushes were begun rises by FlushBegin alone, and the flush has that number.
pub fn flushes_are_counted()
    ensures { (old new : Core) (act : Act) → Step old act new → KeepsFlushes old act new }
{}

/// The plain array changes by Commit alone.
pub fn the_plain_array_is_kept()
    ensures { (before after : World) (act : Act) → HappensEvent before act after → KeepsPlain before act after }
{}

/// The state after an event is a function of the state before and the event with its answer.
pub fn a_step_leads_to_one_state()
    ensures { (old new other : Core) (act : Act) → Step old act new → Step old act other → new ≡ other }
{}

/// The job of a die ends with all dies live that were, but where its outcome is one that takes it out.
pub fn a_die_leaves_only_for_a_cause()
    ensures { (old new : Core) (die : ℕ) (outcome : Outcome) → Does old (Done die outcome) new
        → (new.page_map.live ≡ old.page_map.live) ⊎ IsFatal die (get old.jobs die) outcome }
{}

/// A page that is lost is not admitted, so it is never answered with zeros.
pub fn no_lost_page_is_admitted()
    ensures { (old new : Core) (pages : List ℕ) (admitted : Admitted) → Admits old pages (Ok admitted) new
        → list_any (is_lost old.page_map) pages ≡ false }
{}

/// The round rises only where each read booked in it was started and is in flight no more.
pub fn no_read_is_passed()
    ensures { (old new : Core) (round : Round) → Advances old (Ok round) new
        → list_any (is_round_pending old) (dies_of old.page_map) ≡ false }
{}

/// A flush is synced only where each die that was live when it began is out, or has ended a sync taken since.
pub fn no_older_sync_answers_a_flush()
    ensures { (core : Core) (flush : Flush) → flush_state core flush ≡ Synced
        → list_all (has_synced core flush) (dies_of core.page_map) ≡ true }
{}

/// Where no memory is taken, the answer of an event is a function of the state before.
pub fn one_answer()
    ensures commit { (old new other : Core) (claim seat : ℕ) (answer second : Result Seq CommitRefused)
        → Does old (Commit claim seat answer) new → Does old (Commit claim seat second) other → answer ≡ second }
    ensures abandon { (old new other : Core) (claim : ℕ) (answer second : Result (Unit {0}) AbandonRefused)
        → Does old (Abandon claim answer) new → Does old (Abandon claim second) other → answer ≡ second }
    ensures end_batch { (old new other : Core) (batch : ℕ) (answer second : List (ℕ × List ℕ))
        → EndsBatch old batch answer new → EndsBatch old batch second other → answer ≡ second }
    ensures take { (old new other : Core) (die seat : ℕ) (answer second : Option Handed)
        → Takes old die seat answer new → Takes old die seat second other → answer ≡ second }
    ensures advance { (old new other : Core) (answer second : Result Round AdvanceRefused)
        → Advances old answer new → Advances old second other → answer ≡ second }
    ensures spare { (old new other : Core) (die : ℕ) (answer second : Result (Unit {0}) SpareRefused)
        → BringsIn old die answer new → BringsIn old die second other → answer ≡ second }
    ensures copy { (old new other : Core) (answer second : Result Copied CommitCopyRefused)
        → Does old (CommitCopy answer) new → Does old (CommitCopy second) other → answer ≡ second }
{}

/// After a commit no slot holds its page with another number than the one that was committed.
pub fn no_older_copy_is_left()
    ensures { (old new : Core) (claim seat die slot : ℕ) (seq : Seq) (page : Page) (version : Version)
        → Does old (Commit claim seat (Ok seq)) new → used_at new.page_map die slot ≡ Some (Held page version)
        → page.0 ≡ claimed_page old claim → version.seq ≡ seq }
{}

/// A Commit is accepted only where each slot that it reserved on a live die was programmed, and there is one.
pub fn a_commit_waits_for_its_programs()
    ensures { (old new : Core) (claim seat : ℕ) (seq : Seq) (r : Reservation) → Does old (Commit claim seat (Ok seq)) new
        → reserved_under old claim ≡ Some r
        → (list_any (λ t. not t.programmed) (live_targets old r.targets) ≡ false)
        × (list_any (λ t. t.programmed) (live_targets old r.targets) ≡ true) }
{}

/// A read that gave another slot than the one asked for answers no batch, and its die goes out.
pub fn damage_is_no_answer()
    ensures { (old new : Core) (die : ℕ) (batch : BatchId) (page : Page) (version : Version) (slot : Slot) (cell : Cell)
        → get old.jobs die ≡ Some (Read batch page version slot) → payload_of page.0 version die slot.0 cell ≡ None
        → Does old (Done die (DidRead cell)) new → (new.batches ≡ old.batches) × (is_live new.page_map die ≡ false) }
{}

/// Each read that an admission or a plan anew books is on a die that is live.
pub fn no_dead_die_is_planned()
    ensures admit { (old new : Core) (pages : List ℕ) (admitted : Admitted) → Does old (Admit pages (Ok admitted)) new
        → AllByRecursion (λ x. is_live old.page_map x.die.0 ≡ true) admitted.planned.places }
    ensures replan { (old new : Core) (batch : ℕ) (planned : Planned) → Does old (Replan batch (Ok planned)) new
        → AllByRecursion (λ x. is_live old.page_map x.die.0 ≡ true) planned.places }
{}

/// No read that an admission or a plan anew books is in a window of its die.
pub fn no_window_is_planned()
    ensures admit { (old new : Core) (pages : List ℕ) (admitted : Admitted) → Does old (Admit pages (Ok admitted)) new
        → AllByRecursion (λ x. is_in_window (get old.calendar.windows x.die.0) x.round.0 ≡ false) admitted.planned.places }
    ensures replan { (old new : Core) (batch : ℕ) (planned : Planned) → Does old (Replan batch (Ok planned)) new
        → AllByRecursion (λ x. is_in_window (get old.calendar.windows x.die.0) x.round.0 ≡ false) planned.places }
{}

/// A batch is refused for a lost page only where the page was written and no live die holds it.
pub fn only_lost_pages_are_refused_as_lost()
    ensures { (old new : Core) (pages : List ℕ) (page : Page) → Admits old pages (Err (Lost page)) new
        → is_lost old.page_map page.0 ≡ true }
{}

/// The read of a booking is of the slot that holds the page's current copy as it is taken.
pub fn a_read_takes_the_current_slot()
    ensures { (core : Core) (die : ℕ) (batch : BatchId) (page : Page) (version : Version) (slot : Slot)
        → read_job core die ≡ Some (Read batch page version slot) → is_current core.page_map page.0 die slot.0 ≡ true }
{}

/// The homes of some pages, worked by hand: with two copies on three dies, and with three on four.
pub fn homes_as_worked()
    ensures two { map (homes 2 3) (0 ∷ 1 ∷ 2 ∷ 3 ∷ 4 ∷ 5 ∷ 6 ∷ 7 ∷ []) ≡ (0 ∷ 1 ∷ []) ∷ (1 ∷ 2 ∷ []) ∷ (2 ∷ 0 ∷ [])
        ∷ (0 ∷ 2 ∷ []) ∷ (1 ∷ 0 ∷ []) ∷ (2 ∷ 1 ∷ []) ∷ (0 ∷ 1 ∷ []) ∷ (1 ∷ 2 ∷ []) ∷ [] }
    ensures three { map (homes 3 4) (0 ∷ 3 ∷ 5 ∷ 8 ∷ []) ≡ (0 ∷ 1 ∷ 2 ∷ []) ∷ (3 ∷ 0 ∷ 1 ∷ []) ∷ (1 ∷ 3 ∷ 0 ∷ [])
        ∷ (0 ∷ 3 ∷ 1 ∷ []) ∷ [] }
{}
