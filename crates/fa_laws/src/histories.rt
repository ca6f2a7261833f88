//! The history is kept over every run: its replay is the numbers of the pages.
ghost use Rattle.std.specs.Prelude.{◌≡◌, ◌≤◌, ◌+◌, ◌*◌, List};
ghost use Rattle.fa_laws.specs.Counted.{HasHistory, commits_of, commits_over, starts_of, starts_over};
ghost use Rattle.fa_machine.specs.Beginning.{IsBeginning};
ghost use Rattle.fa_machine.specs.Flushing.{Folds};
ghost use Rattle.fa_machine.specs.Looks.{counts};
ghost use Rattle.fa_machine.specs.History.{replay};
ghost use Rattle.fa_machine.specs.Run.{Event, Happening, Run};
ghost use Rattle.fa_machine.specs.State.{Core};
ghost use Rattle.fa_machine.specs.Step.{Act, Step};
ghost use Rattle.fa_machine.specs.World.{World};
ghost use Rattle.fa_laws.specs.Reached.{IsReached};

use crate::steps::{live_dies_are_kept, spares_are_kept, the_geometry_is_kept, the_round_is_kept};
use fa_sound::sound::{a_beginning_is_sound, a_step_keeps_sound};

/// After every run from a beginning the numbers of the pages are the replay of the base and the history, and each
/// Start in the history is legal.
pub fn run_history()
    ensures history { (first last : World) (happenings : List Happening) → IsBeginning first → Run first happenings last
        → HasHistory last.core }
    ensures counted { (first last : World) (happenings : List Happening) → IsBeginning first → Run first happenings last
        → counts last.core ≡ (commits_over happenings, starts_over happenings) }
    ensures folded { (old new : Core) → Folds old new
        → (replay new.base.numbers new.history ≡ replay old.base.numbers old.history) × (counts new ≡ counts old) }
{}

/// Each event keeps the history that of the pages, and raises the counts by what it answers.
pub fn a_step_keeps_history()
    ensures history { (old new : Core) (act : Act) → Step old act new → HasHistory old → HasHistory new }
    ensures counted { (old new : Core) (act : Act) → Step old act new
        → counts new ≡ ((counts old).0 + commits_of (Event act), (counts old).1 + starts_of (Event act)) }
{}

/// A die starts one booked read a round at most, so in every run there are at most so many Starts as dies times rounds.
pub fn starts_are_few()
    ensures { (w : World) → IsReached w → (counts w.core).1 ≤ w.core.page_map.geometry.dies * w.core.calendar.round }
{
    a_beginning_is_sound();
    a_step_keeps_sound();
    live_dies_are_kept();
    spares_are_kept();
    the_geometry_is_kept();
    the_round_is_kept();
}
