//! The laws of what is true of the state.
ghost use Rattle.std.specs.Prelude.{◌≤◌};
ghost use Rattle.fa_machine.specs.Beginning.{IsBeginning};
ghost use Rattle.fa_machine.specs.State.{Core};
ghost use Rattle.fa_machine.specs.Step.{Act, Step};
ghost use Rattle.fa_machine.specs.World.{World};
ghost use Rattle.fa_sound.specs.Ready.{AreReady};
ghost use Rattle.fa_sound.specs.Sound.{IsSound};

/// A state that was just mounted is sound.
pub fn a_beginning_is_sound()
    ensures { (w : World) → IsBeginning w → IsSound w.core }
{}

/// Each event keeps the state sound.
pub fn a_step_keeps_sound()
    ensures { (old new : Core) (act : Act) → Step old act new → IsSound old → IsSound new }
{}

/// What the dies of a sound state are handed out next can be done, from a beginning on whose epoch a header may have.
pub fn a_step_keeps_ready()
    ensures begins { (w : World) → IsBeginning w → 1 ≤ w.core.epoch → AreReady w.core }
    ensures keeps { (old new : Core) (act : Act) → Step old act new → IsSound old → AreReady old → AreReady new }
{}
