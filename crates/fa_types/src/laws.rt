//! Laws of the definitions, each the contract of a function with no code.
ghost use Rattle.std.specs.Prelude.{◌≡◌, ◌↔◌, ℕ, ◌+◌, ◌*◌, ◌/◌, ◌<◌, ◌≤◌, Bool, List, length, replicate, IsTrue};
ghost use Rattle.fa_types.specs.Plain.{put, export, HasPages};
ghost use Rattle.fa_types.specs.Store.{Reading, Writing, Zeroing, Trimming, Gave, Done, with_bytes};
ghost use Rattle.fa_types.specs.Store.{InRange, IsCovered, whole_offset, whole_length};

use crate::blocks::Blocks;

/// A page that is put into the plain array is its bytes written at the page's offset of the export,
/// and nothing else.
pub fn put_writes_one_page()
    ensures { (page_bytes p : ℕ) (x : List ℕ) (pages : List (List ℕ)) → HasPages page_bytes pages → p < length pages
        → length x ≡ page_bytes → export (put p x pages) ≡ with_bytes (p * page_bytes) x (export pages) }
{}

/// What was written is read back: a read that follows on an accepted write of the same range, of a store
/// that nobody else calls, gives the bytes that were written. After a zero it gives zeros, and so it does
/// of a page that lies wholly in the range of a trim.
pub fn written_is_read_back<B: Blocks>()
    ensures write { (before middle after : B) (offset : ℕ) (bytes given : List ℕ) (fua : Bool)
        → IsTrue (B.view before).alone → offset + length bytes ≤ (B.view before).size
        → B.made before (Writing offset bytes fua) Done middle
        → B.made middle (Reading offset (length bytes)) (Gave given) after → given ≡ bytes }
    ensures zero { (before middle after : B) (offset len : ℕ) (given : List ℕ) (fua hole : Bool)
        → IsTrue (B.view before).alone → offset + len ≤ (B.view before).size
        → B.made before (Zeroing offset len fua hole) Done middle
        → B.made middle (Reading offset len) (Gave given) after → given ≡ replicate len 0 }
    ensures trim { (before middle after : B) (offset len page : ℕ) (given : List ℕ) (fua : Bool)
        → IsTrue (B.view before).alone → offset + len ≤ (B.view before).size
        → IsCovered (B.view before).page_bytes offset len page
        → B.made before (Trimming offset len fua) Done middle
        → B.made middle (Reading (page * (B.view before).page_bytes) (B.view before).page_bytes) (Gave given) after
        → given ≡ replicate (B.view before).page_bytes 0 }
{}

/// What a trim makes zeros of is each page all of whose bytes are in its range, and no other byte.
pub fn trim_takes_whole_pages()
    ensures { (page_bytes offset len i : ℕ) → 1 ≤ page_bytes
        → InRange (whole_offset page_bytes offset) (whole_length page_bytes offset len) i
        ↔ IsCovered page_bytes offset len (i / page_bytes) }
{}
