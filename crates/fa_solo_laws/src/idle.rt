//! What is open between two calls of the store of one thread.
ghost use Rattle.std.specs.Prelude.{◌⊎◌, ℕ, List};
ghost use Rattle.fa_machine.specs.Beginning.{IsBeginning};
ghost use Rattle.fa_machine.specs.World.{World};
ghost use Rattle.fa_session.specs.Exchanges.{Chain, Exchange};
ghost use Rattle.fa_shared_steps.specs.declared.request.Task.{Task};
ghost use Rattle.fa_solo.specs.Calls.{MakesWhole};
ghost use Rattle.fa_solo.specs.Stores.{StoreMakes, StoreState};
ghost use Rattle.fa_solo_job.specs.declared.inner.Inner.{Inner};
ghost use Rattle.fa_solo_laws.specs.Rest.{IsIdle};
ghost use Rattle.fa_solo_laws.specs.Sessions.{OneGivenUp};
ghost use Rattle.fa_solo_laws.specs.Standing.{IsGivenUp};
ghost use Rattle.fa_types.specs.Store.{Answer};

use fa_image::Image;

/// Between two calls of the store of one thread nothing is open at its array: no job of a die, no claim, no batch and no copy of a page.
/// That is so of an array that was just mounted. It is so behind a call, whatever was asked and however it was answered, where it was so
/// before it; and so behind any list of calls. Or a call was given up: its request took 2^64 - 1 turns, and was refused as lost, or a copy
/// behind it was looked at as often in vain.
pub fn nothing_is_open_between_calls<L, M, I: Image, A>()
    ensures mounted { (w : World) → IsBeginning w → IsIdle w.core }
    ensures call { (old new : Inner L M I A) (task : Task) (bytes : List ℕ) (answer : Answer) → IsIdle old.locked.core
        → (call : MakesWhole I.made task bytes answer old new)
        → IsIdle new.locked.core ⊎ IsGivenUp I.made task bytes answer old new call }
    ensures calls { (old new : StoreState L M I A) (exchanges : List Exchange) → IsIdle old.inner.locked.core
        → (chain : Chain (StoreMakes I.made) old exchanges new)
        → IsIdle new.inner.locked.core ⊎ OneGivenUp I.made old exchanges new chain }
{}
