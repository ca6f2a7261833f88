//! Laws of the definitions, each the contract of a function with no code.
ghost use Rattle.std.specs.Prelude.{◌≡◌, ℕ, List};
ghost use Rattle.std.specs.List.Sorted.{IsPermutation};
ghost use Rattle.fa_types.specs.declared.numbers.Page.{Page};
ghost use Rattle.fa_closed.specs.declared.closed.Run.{Run};
ghost use Rattle.fa_batch_terms.specs.declared.place.Place.{Place};
ghost use Rattle.fa_batch_terms.specs.Batch.{Entry};
ghost use Rattle.fa_texts.specs.BatchText.{HasBatchText, IsBatchText, StartsWithBatch};
ghost use Rattle.fa_texts.specs.CertificateText.{HasCertificateText, IsCertificateText, IsPrinted, IsSomeCertificate};
ghost use Rattle.fa_texts.specs.LoggedPlan.{AreTexts, IsLoggedPlanPrinted};
ghost use Rattle.fa_texts.specs.Text.{IsFirstWrongLine, words_by_line};

/// What is printed of a plan and a shortage within the limits of the texts is the text of the same places
/// and pages.
pub fn printed_is_a_text()
    ensures { (rounds : ℕ) (places : List Place) (pages : List Page) (out : List ℕ)
        → HasCertificateText rounds places pages → IsPrinted rounds places pages out
        → (placed : List Place) × (short : List Page) × IsPermutation places placed × IsPermutation pages short
        × IsCertificateText (words_by_line out) rounds placed short }
{}

/// What is printed as the logged plan of a batch within the limits of the texts is its text, with the text of the same places
/// and pages at once behind it.
pub fn printed_plan_is_texts()
    ensures { (entries : List Entry) (runs : List Run) (rounds : ℕ) (places : List Place) (pages : List Page) (out : List ℕ)
        → HasBatchText entries runs → HasCertificateText rounds places pages → IsLoggedPlanPrinted entries runs rounds places pages out
        → (placed : List Place) × (short : List Page) × IsPermutation places placed × IsPermutation pages short
        × AreTexts (words_by_line out) entries runs rounds placed short }
{}

/// A text says one thing.
pub fn text_says_one_thing()
    ensures batch { (lines : List (List (List ℕ))) (entries entries' : List Entry) (runs runs' : List Run)
        → IsBatchText lines entries runs → IsBatchText lines entries' runs' → (entries ≡ entries') × (runs ≡ runs') }
    ensures certificate { (lines : List (List (List ℕ))) (rounds rounds' : ℕ) (places places' : List Place) (pages pages' : List Page)
        → IsCertificateText lines rounds places pages → IsCertificateText lines rounds' places' pages'
        → (rounds ≡ rounds') × (places ≡ places') × (pages ≡ pages') }
{}

/// A text has no wrong line, and any other input has one first wrong line at most.
pub fn one_first_wrong_line()
    ensures batch { (first number : ℕ) (lines : List (List (List ℕ)))
        → StartsWithBatch lines → ¬ (IsFirstWrongLine StartsWithBatch first lines number) }
    ensures one_of_batch { (first number number' : ℕ) (lines : List (List (List ℕ)))
        → IsFirstWrongLine StartsWithBatch first lines number → IsFirstWrongLine StartsWithBatch first lines number' → number ≡ number' }
    ensures certificate { (first number : ℕ) (lines : List (List (List ℕ)))
        → IsSomeCertificate lines → ¬ (IsFirstWrongLine IsSomeCertificate first lines number) }
    ensures one_of_certificate { (first number number' : ℕ) (lines : List (List (List ℕ)))
        → IsFirstWrongLine IsSomeCertificate first lines number → IsFirstWrongLine IsSomeCertificate first lines number'
        → number ≡ number' }
{}
