//! Laws of the definitions, each the contract of a function with no code.
ghost use Rattle.std.specs.Prelude.{◌≡◌, ℕ, List};
ghost use Rattle.fa_tag.specs.declared.tag.Tag.{Tag};
ghost use Rattle.fa_tag.specs.declared.header.Header.{Header};
ghost use Rattle.fa_tag.specs.HeaderGrammar.{SpellsHeader, header_bytes};
ghost use Rattle.fa_tag.specs.SlotGrammar.{IsSlot, IsErased, slot_1, slot_2};

/// A slot is that of one tag and one payload, whatever its version. What is written in one version is
/// never what is written in the other, so a tag and a payload have one spelling in each. An erased slot
/// is that of none.
pub fn slots_have_one_spelling()
    ensures one { (a b : Tag) (x y bytes : List ℕ) → IsSlot a x bytes → IsSlot b y bytes → (a ≡ b) × (x ≡ y) }
    ensures apart { (a b : Tag) (x y : List ℕ) → ¬ (slot_1 a x ≡ slot_2 b y) }
    ensures not_erased { (tag : Tag) (payload bytes : List ℕ) → IsSlot tag payload bytes → ¬ (IsErased bytes) }
{}

/// The bytes of a header are those of no other, whatever their format, and those of one format are never
/// those of the other.
pub fn headers_have_one_spelling()
    ensures one { (a b : Header) (bytes : List ℕ) → SpellsHeader a bytes → SpellsHeader b bytes → a ≡ b }
    ensures apart { (a b : Header) → ¬ (header_bytes 1 a ≡ header_bytes 2 b) }
{}
