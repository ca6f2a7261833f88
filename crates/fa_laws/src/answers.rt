//! Each event has one answer, up to what is left free.
ghost use Rattle.std.specs.Prelude.{◌≡◌, ℕ, List, Result};
ghost use Rattle.fa_types.specs.declared.numbers.Round.{Round};
ghost use Rattle.fa_types.specs.declared.numbers.Seq.{Seq};
ghost use Rattle.fa_laws.specs.Free.{AreAlike, HasSamePlan, HasSameRounds, is_free_admit, is_free_claim};
ghost use Rattle.fa_laws.specs.Free.{is_free_copy, is_free_reserve, is_free_window};
ghost use Rattle.fa_machine.specs.declared.ids.ClaimId.{ClaimId};
ghost use Rattle.fa_types.specs.declared.kind.Kind.{Kind};
ghost use Rattle.fa_machine.specs.declared.refusals.AdmitRefused.{AdmitRefused};
ghost use Rattle.fa_machine.specs.declared.refusals.ClaimRefused.{ClaimRefused};
ghost use Rattle.fa_machine.specs.declared.refusals.ReserveCopyRefused.{ReserveCopyRefused};
ghost use Rattle.fa_machine.specs.declared.refusals.ReserveRefused.{ReserveRefused};
ghost use Rattle.fa_machine.specs.declared.refusals.WindowRefused.{WindowRefused};
ghost use Rattle.fa_machine.specs.Reading.{Admits, Admitted, Planned, Replans};
ghost use Rattle.fa_machine.specs.State.{Core};
ghost use Rattle.fa_machine.specs.Turning.{ReservesCopy, TakesWindow};
ghost use Rattle.fa_machine.specs.Writing.{Claims, Reserves};

use fa_cert::laws::certificate_is_least;

/// Of two answers of one event in one state, where memory is taken: they are the same, but for the id of a claim or of a
/// batch, for which least plan was found, and for whether memory was refused. The number of rounds is the same.
pub fn one_answer_but_for_what_is_free()
    ensures claim { (old new other : Core) (page : ℕ) (answer second : Result ClaimId ClaimRefused)
        → Claims old page answer new → Claims old page second other → AreAlike is_free_claim (λ a b. Unit {0}) answer second }
    ensures reserve { (old new other : Core) (claim least : ℕ) (kind : Kind) (payload : List ℕ) (answer second : Result Seq ReserveRefused)
        → Reserves old claim least kind payload answer new → Reserves old claim least kind payload second other
        → AreAlike is_free_reserve (λ a b. a.0 ≡ b.0) answer second }
    ensures admit { (old new other : Core) (pages : List ℕ) (answer second : Result Admitted AdmitRefused)
        → Admits old pages answer new → Admits old pages second other → AreAlike is_free_admit HasSamePlan answer second }
    ensures replan { (old new other : Core) (batch : ℕ) (answer second : Result Planned AdmitRefused)
        → Replans old batch answer new → Replans old batch second other → AreAlike is_free_admit HasSameRounds answer second }
    ensures window { (old new other : Core) (die count : ℕ) (answer second : Result Round WindowRefused)
        → TakesWindow old die count answer new → TakesWindow old die count second other
        → AreAlike is_free_window (λ a b. a.0 ≡ b.0) answer second }
    ensures copy { (old new other : Core) (page seq : ℕ) (payload : List ℕ) (answer second : Result (Unit {0}) ReserveCopyRefused)
        → ReservesCopy old page seq payload answer new → ReservesCopy old page seq payload second other
        → AreAlike is_free_copy (λ a b. Unit {0}) answer second }
{
    certificate_is_least();
}
