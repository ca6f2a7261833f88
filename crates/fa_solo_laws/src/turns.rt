//! What a turn of a request is.
ghost use Rattle.std.specs.Prelude.{◌≡◌, ℕ, List, [], ◌∷◌};
ghost use Rattle.fa_solo_laws.specs.Asked.{Asked, Moment, Readies, Turn};
ghost use Rattle.fa_machine.specs.State.{Core};
ghost use Rattle.fa_machine.specs.World.{World};
ghost use Rattle.fa_shared_lock.specs.Moves.{Turned};
ghost use Rattle.fa_shared_request.specs.Ops.{Prepares};
ghost use Rattle.fa_shared_steps.specs.declared.request.Task.{Task};
ghost use Rattle.fa_shared_steps.specs.declared.stage.Stage.{Stage};
ghost use Rattle.fa_shared_lock.specs.Seats.{number_of};
ghost use Rattle.fa_shared_lock.specs.declared.seat.Seat.{Seat};

/// A turn of a request, as `fa_shared_turns::make_turn` tells it, is none, one or two turns of what becomes of the request, over a world
/// with the array's state: a Fold first, where one was made. The images and the jobs of dies stay. What `fa_shared_request::Op::prepare`
/// makes is a turn too.
pub fn a_turn_is_asked<L, A>()
    ensures turned { (t : Task) (bytes answer : List ℕ) (before after : Seat L) (w : World) (new : Core) (stage next : Stage A)
        → Turned t before after w.core stage new next
        → (v : World) × (turns : List Turn) × (v.core ≡ new) × (v.images ≡ w.images) × (v.works ≡ w.works)
        × Asked t (number_of before) bytes (record { world = w; stage = stage; answer = answer }) turns
        (record { world = v; stage = next; answer = answer }) }
    ensures prepared { (t : Task) (seat : ℕ) (bytes answer given : List ℕ) (w : World) (stage next : Stage A)
        → Prepares t bytes stage answer next given
        → Asked t seat bytes (record { world = w; stage = stage; answer = answer }) (Readies ∷ [])
        (record { world = w; stage = next; answer = given }) }
{}
