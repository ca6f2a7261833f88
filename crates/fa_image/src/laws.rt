//! Laws of the definitions, each the contract of a function with no code.
ghost use Rattle.std.specs.Prelude.{◌≡◌, ℕ, ◌+◌, ◌<◌, ◌≤◌, ◌⊎◌, Bool, List, [], length, slice_index_or};
ghost use Rattle.fa_image.specs.Counted.{IsCounted};
ghost use Rattle.fa_image.specs.File.{file_of, opened};
ghost use Rattle.fa_image.specs.Image.{ImageState, IsImage, ImageCall, ImageAnswer, ImageMeets, slot_at, with_written};

/// A write of slots, as each accepted or refused program or erase is one: the slots that it names have
/// what was written, and all others what they had.
pub fn a_write_changes_what_it_names()
    ensures inside { (image : ImageState) (first : ℕ) (written : List (List ℕ)) → first + length written ≤ length image.slots
        → (i : ℕ) → i < length written → slot_at (first + i) (with_written first written image) ≡ slice_index_or written i [] }
    ensures outside { (image : ImageState) (first : ℕ) (written : List (List ℕ)) → first + length written ≤ length image.slots
        → (i : ℕ) → (i < first) ⊎ (first + length written ≤ i) → slot_at i (with_written first written image) ≡ slot_at i image }
{}

/// A file that has the header and the slots of an image opens as that image, with no calls made of it,
/// whatever stands in the rest of its first 4,096 bytes and behind its last slot.
pub fn what_was_left_is_opened()
    ensures { (image : ImageState) (rest behind : List ℕ) (lefts : List (List ℕ)) → IsImage image → length rest ≡ 3984
        → opened image.geometry (record { bytes = file_of image rest behind; lefts = lefts }) ≡ record image { syncs = 0; faults = 0 } }
{}

/// Each refused call counts as one fault, each accepted sync as one sync, and nothing else counts. No
/// call changes the geometry.
pub fn a_call_counts_once()
    ensures { (before after : ImageState) (was is : Bool) (call : ImageCall) (answer : ImageAnswer)
        → ImageMeets before was call answer after is → IsCounted before call answer after }
{}
