//! What each event keeps. A call of one of these laws gives the proof of its caller the law, and does nothing when the program runs.
ghost use Rattle.std.specs.Prelude.{◌≡◌, ◌+◌};
ghost use Rattle.fa_laws.specs.Counted.{HasHistory, commits_of};
ghost use Rattle.fa_machine.specs.Looks.{counts};
ghost use Rattle.fa_machine.specs.Run.{Event};
ghost use Rattle.fa_machine.specs.State.{Core};
ghost use Rattle.fa_machine.specs.Step.{Act, Step};
ghost use Rattle.fa_sound.specs.Ready.{AreReady};
ghost use Rattle.fa_sound.specs.Sound.{IsSound};

use crate::histories::a_step_keeps_history;
use crate::steps::the_geometry_is_kept;
use fa_sound::sound::{a_step_keeps_ready, a_step_keeps_sound};

/// What is true of the state at any time is true after each event.
pub fn an_event_keeps()
    ensures sound { (old new : Core) (act : Act) → Step old act new → IsSound old → IsSound new }
    ensures history { (old new : Core) (act : Act) → Step old act new → HasHistory old → HasHistory new }
    ensures programs { (old new : Core) (act : Act) → Step old act new → IsSound old → AreReady old → AreReady new }
    ensures geometry { (old new : Core) (act : Act) → Step old act new → new.page_map.geometry ≡ old.page_map.geometry }
{
    a_step_keeps_sound();
    a_step_keeps_ready();
    a_step_keeps_history();
    the_geometry_is_kept();
}

/// Each event raises the count of Commits by what it answers.
pub fn an_event_counts()
    ensures { (old new : Core) (act : Act) → Step old act new → (counts new).0 ≡ (counts old).0 + commits_of (Event act) }
{
    a_step_keeps_history();
}
