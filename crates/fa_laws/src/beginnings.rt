//! The definitions are not empty: there is a beginning.
ghost use Rattle.std.specs.Prelude.{◌≡◌, ℕ, ◌<◌, [], ◌∷◌, replicate};
ghost use Rattle.fa_types.specs.declared.geometry.Geometry.{Geometry};
ghost use Rattle.fa_laws.specs.Formatted.{admits_one, formatted};
ghost use Rattle.fa_machine.specs.Beginning.{IsBeginning};
ghost use Rattle.fa_machine.specs.Run.{HappensEvent};
ghost use Rattle.fa_machine.specs.Step.{EndBatch};
ghost use Rattle.fa_machine.specs.World.{World};

/// An array of two dies that was formatted is a beginning, so the laws over runs are laws of something.
pub fn a_formatted_array_is_a_beginning()
    ensures { (geometry : Geometry) → geometry.dies ≡ 2 → geometry.spares ≡ 0 → IsBeginning (formatted geometry) }
{}

/// On an array that was formatted a batch of one page is admitted, and answered with zeros.
pub fn a_new_page_is_answered_with_zeros()
    ensures { (geometry : Geometry) (page : ℕ) → page < geometry.pages
        → (middle last : World) × HappensEvent (formatted geometry) (admits_one geometry page) middle
        × HappensEvent middle (EndBatch 0 ((page, replicate geometry.page_bytes 0) ∷ [])) last }
{}
