//! Each plan of a run is least.
ghost use Rattle.fa_laws.specs.Least.{PlansLeast};
ghost use Rattle.fa_laws.specs.Reached.{IsReached};
ghost use Rattle.fa_machine.specs.Run.{HappensEvent};
ghost use Rattle.fa_machine.specs.Step.{Act};
ghost use Rattle.fa_machine.specs.World.{World};

use fa_cert::laws::certificate_is_least;

/// In every run each accepted Admit and Replan books a plan that is least against the state before it, and hands out
/// what shows it.
pub fn run_plans()
    ensures { (w after : World) (act : Act) → IsReached w → HappensEvent w act after → PlansLeast w.core act }
{
    certificate_is_least();
}
