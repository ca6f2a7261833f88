//! Laws of the definitions, each the contract of a function with no code.
ghost use Rattle.std.specs.Prelude.{ℕ, Bool, List};
ghost use Rattle.fa_types.specs.declared.numbers.Page.{Page};
ghost use Rattle.fa_batch_terms.specs.declared.place.Place.{Place};
ghost use Rattle.fa_batch_terms.specs.Batch.{Entry};
ghost use Rattle.fa_batch_terms.specs.Certificate.{IsCertificate, IsLeast};

/// What has a certificate is least: a plan of fewer rounds would put the pages of the shortage into
/// fewer open places than there are pages.
pub fn certificate_is_least()
    ensures { (batch : List Entry) (current : ℕ) (closed : ℕ → ℕ → Bool) (rounds : ℕ) (places : List Place) (pages : List Page)
        → IsCertificate batch current closed rounds places pages → IsLeast batch current closed rounds }
{}
