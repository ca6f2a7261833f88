//! What is handed out verifies: a law, the contract of a function with no code.
ghost use Rattle.std.specs.Prelude.{ℕ, List, Ok, length};
ghost use Rattle.fa_batch_terms.specs.Certificate.{IsCertificate};
ghost use Rattle.fa_core_calls.specs.Answers.{IsHandedOut, admitted_of, planned_of};
ghost use Rattle.fa_core_calls.specs.declared.admitted.Admitted.{Admitted};
ghost use Rattle.fa_machine.specs.Reading.{Admits, Replans, entries_for, left_of, released, to_read};
ghost use Rattle.fa_machine.specs.Rounds.{is_closed};
ghost use Rattle.fa_machine.specs.State.{Core};
ghost use Rattle.fa_plan.specs.declared.planner.Planned.{Planned};

/// The plan that an Admit or a Replan hands out, with its own number of rounds, and its shortage are a certificate of the pages that were
/// planned, against the rounds that were open. So `fa_cert::check` accepts them, and answers that number of rounds as the least.
pub fn an_admission_verifies<A>()
    ensures admit { (old new : Core) (pages : List ℕ) (admitted : Admitted A) → Admits old pages (Ok (admitted_of admitted)) new
        → IsHandedOut (length (to_read old.page_map pages)) admitted.planned
        → IsCertificate (entries_for old.page_map (to_read old.page_map pages)) old.calendar.round (is_closed old.page_map old.calendar)
        admitted.planned.plan.rounds admitted.planned.plan.places admitted.planned.shortage }
    ensures replan { (old new : Core) (batch : ℕ) (planned : Planned A) → Replans old batch (Ok (planned_of planned)) new
        → IsHandedOut (length (left_of old batch)) planned
        → IsCertificate (entries_for old.page_map (left_of old batch)) old.calendar.round
        (is_closed old.page_map (released batch old.calendar)) planned.plan.rounds planned.plan.places planned.shortage }
{}
