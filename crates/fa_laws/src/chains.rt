//! Whole chains of events, worked by hand: the definitions are not empty.
ghost use Rattle.std.specs.Prelude.{◌≡◌, ℕ, List, length};
ghost use Rattle.fa_types.specs.declared.geometry.Geometry.{Geometry};
ghost use Rattle.fa_laws.specs.EightPages.{HasThreeDies};
ghost use Rattle.fa_laws.specs.FailingDie.{BatchOutlastsDie};
ghost use Rattle.fa_laws.specs.HoleAndMove.{HasTwoDies, ReadsAHoleAndAMovedPage};
ghost use Rattle.fa_laws.specs.SpareComesIn.{HasFiveDies, SpareTakesACopy};

use crate::beginnings::a_formatted_array_is_a_beginning;

/// Pages 0 to 7 of an array of three dies are admitted as one batch, of three rounds. The second read of die 1 fails: the
/// die goes out, and the batch is torn. What is left is planned anew, read, and answered: all eight pages, each with its
/// bytes, whatever these are.
pub fn die_fails_in_a_batch()
    // There is such an array.
    ensures some { (geometry : Geometry) × HasThreeDies geometry × (geometry.page_bytes ≡ 512) }
    ensures told { (geometry : Geometry) (bytes : ℕ → List ℕ) → HasThreeDies geometry
        → ((page : ℕ) → length (bytes page) ≡ geometry.page_bytes) → BatchOutlastsDie geometry bytes }
{}

/// On a formatted array of two dies three pages are written, and page 0 is made a hole. A batch of the three has zeros for
/// page 0 at once. The read of page 1 is booked for a later round of die 0, whose collector moves the page meanwhile, in its
/// window: the read is of the new slot. Each page is answered with its bytes. Then a flush waits for both dies and is synced.
pub fn a_hole_a_move_and_a_flush()
    // There is such an array.
    ensures some { (geometry : Geometry) × HasTwoDies geometry × (geometry.page_bytes ≡ 512) }
    ensures told { (geometry : Geometry) (bytes : ℕ → List ℕ) → HasTwoDies geometry
        → ((page : ℕ) → length (bytes page) ≡ geometry.page_bytes) → ReadsAHoleAndAMovedPage geometry bytes }
{
    a_formatted_array_is_a_beginning();
}

/// A page of an array of four dies and a spare has three copies. A read of it meets a fault: the die goes out, and the spare
/// comes in. The batch is planned anew and answered, and what it read is copied to the spare. A write of another page is given
/// up, and the block of a slot that it leaves stale is erased, in a window of its die. The history is folded. Then the page is
/// read from the spare, and answered with its bytes.
pub fn a_spare_takes_a_copy()
    // There is such an array.
    ensures some { (geometry : Geometry) × HasFiveDies geometry × (geometry.page_bytes ≡ 512) }
    ensures told { (geometry : Geometry) (bytes : ℕ → List ℕ) → HasFiveDies geometry
        → ((page : ℕ) → length (bytes page) ≡ geometry.page_bytes) → SpareTakesACopy geometry bytes }
{}
