//! What the flush of a request means, whatever else happens to the array.
ghost use Rattle.std.specs.Prelude.{◌≡◌, ℕ, ◌≤◌, List, None, true};
ghost use Rattle.fa_crash.specs.Flushed.{AreOfLast, IsPromised};
ghost use Rattle.fa_crash.specs.Unsynced.{Unsynced, nothing_unsynced, number_of};
ghost use Rattle.fa_crash.specs.Whole.{RunWhole};
ghost use Rattle.fa_crash.specs.Among.{AskedAmong, IsBeforeFlush};
ghost use Rattle.fa_machine.specs.Beginning.{IsBeginning};
ghost use Rattle.fa_machine.specs.Run.{Happening, Run};
ghost use Rattle.fa_machine.specs.World.{World};
ghost use Rattle.fa_shared_steps.specs.Stages.{beginning};
ghost use Rattle.fa_shared_steps.specs.declared.request.Task.{Task};
ghost use Rattle.fa_shared_steps.specs.declared.stage.Stage.TheVariants.{Ended};
ghost use Rattle.fa_solo_laws.specs.Asked.{Asked, Moment, Turn, happenings_of};

use fa_laws::steps::{a_commit_raises_the_number, numbers_are_kept};
use fa_sound::sound::{a_beginning_is_sound, a_step_keeps_sound};

/// What becomes of a request among all that other threads do is a run. Where it has a flush, and ends without a fault, each page that was
/// written is promised, from there on, with a number no smaller than it had at any moment of the request before its flush: so each page
/// that a request before it wrote, and each that it wrote itself. The array was begun with nothing unsynced, and images write whole.
pub fn a_flush_promises_each_page<A>()
    ensures run { (t : Task) (seat : ℕ) (bytes : List ℕ) (before after : Moment A) (turns : List Turn)
        → AskedAmong t seat bytes before turns after → Run before.world (happenings_of turns) after.world }
    ensures promised { (first : World) (earlier : List Happening) (t : Task) (seat page : ℕ) (bytes : List ℕ) (before after : Moment A)
        (turns : List Turn) (u v : Unsynced) → IsBeginning first → AreOfLast first
        → RunWhole first (nothing_unsynced first) earlier before.world u → t.flush ≡ true → IsBeforeFlush before.stage
        → AskedAmong t seat bytes before turns after → after.stage ≡ Ended None
        → RunWhole before.world u (happenings_of turns) after.world v
        → 1 ≤ number_of before.world.core page
        → (number : ℕ) × (number_of before.world.core page ≤ number) × IsPromised first page number after.world v }
    ensures beginning { (t : Task) → t.flush ≡ true → IsBeforeFlush {A = A} (beginning t) }
    ensures alone { (t : Task) (seat : ℕ) (bytes : List ℕ) (before after : Moment A) (turns : List Turn)
        → Asked t seat bytes before turns after → AskedAmong t seat bytes before turns after }
{
    a_beginning_is_sound();
    a_step_keeps_sound();
    numbers_are_kept();
    a_commit_raises_the_number();
}
