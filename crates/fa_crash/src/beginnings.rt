//! Arrays from which runs begin with nothing unsynced.
ghost use Rattle.fa_crash.specs.Flushed.{AreOfLast};
ghost use Rattle.fa_crash.specs.Headers.{AreFirstHeaders, AreToldAlike, NameOurs};
ghost use Rattle.fa_laws.specs.Formatted.{formatted};
ghost use Rattle.fa_types.specs.declared.geometry.Geometry.{Geometry};

/// An array that was formatted has no good cell, and the headers of its two dies name both, so it is a beginning of which the laws of
/// crashes speak.
pub fn a_formatted_array_is_such_a_beginning()
    ensures cells { (geometry : Geometry) → AreOfLast (formatted geometry) }
    ensures headers { (geometry : Geometry) → AreFirstHeaders (formatted geometry) (λ die. record { epoch = 0; live = 3 }) }
    ensures alike { AreToldAlike (λ die. record { epoch = 0; live = 3 }) }
    ensures ours { (geometry : Geometry) → NameOurs (formatted geometry) (λ die. record { epoch = 0; live = 3 }) }
{}
