//! Laws of the definitions, each the contract of a function with no code.
ghost use Rattle.std.specs.Prelude.{◌≡◌, ◌≢◌, ℕ, ◌≤◌, ◌↔◌, List, [], ◌++◌, min};
ghost use Rattle.fa_nego.specs.Negotiation.{Negotiates};
ghost use Rattle.fa_nego.specs.declared.step.Step.{Step};
ghost use Rattle.fa_nego.specs.declared.step.Step.TheVariants.{More};
ghost use Rattle.fa_nego.specs.NegoState.{Stage, NegoState, new_state, step_of, wanted, IsAt};

/// A negotiation begins with nothing heard and nothing said.
pub fn starts()
    ensures { (export : List ℕ) (size : ℕ) → IsAt (new_state export size) [] [] }
{}

/// Where a negotiation has heard and said some bytes, they negotiate, and it stands as they say.
pub fn stage_negotiates()
    ensures { (state : NegoState) (heard said : List ℕ) → IsAt state heard said
        → Negotiates state.export state.size heard said (step_of state.stage) }
{}

/// A negotiation wants no bytes exactly where it is over.
pub fn wants_until_over()
    ensures { (state : NegoState) (heard said : List ℕ) → IsAt state heard said
        → ((wanted state.stage ≡ 0) ↔ (step_of state.stage ≢ More)) }
{}

/// A piece that is no longer than what is wanted is used whole.
pub fn uses_what_is_wanted()
    ensures { (stage : Stage) (len : ℕ) → len ≤ wanted stage → min len (wanted stage) ≡ len }
{}

/// What the server says, and how the negotiation stands, is determined by the bytes of the client:
/// in what pieces they came makes no difference.
pub fn one_answer()
    ensures { (export : List ℕ) (size : ℕ) (heard said said_again : List ℕ) (next next_again : Step)
        → Negotiates export size heard said next → Negotiates export size heard said_again next_again
        → ((said ≡ said_again) × (next ≡ next_again)) }
{}

/// A client's bytes have one handshake: two negotiations that are over, and heard prefixes of the same
/// bytes, have heard the same bytes, said the same, and ended the same way.
pub fn one_handshake()
    ensures { (export : List ℕ) (size : ℕ) (heard heard_again more more_again said said_again : List ℕ) (next next_again : Step)
        → Negotiates export size heard said next → Negotiates export size heard_again said_again next_again
        → next ≢ More → next_again ≢ More → heard ++ more ≡ heard_again ++ more_again
        → (heard ≡ heard_again) × (said ≡ said_again) × (next ≡ next_again) }
{}
