//! Laws of the definitions, each the contract of a function with no code.
ghost use Rattle.std.specs.Prelude.{◌≡◌, ◌↔◌, ◌⊎◌, ℕ, true, false, None, List, length, map, IsTrue, Ok};
ghost use Rattle.std.specs.List.{AllByRecursion};
ghost use Rattle.fa_types.specs.Geometry.{AreCopies};
ghost use Rattle.fa_types.specs.declared.geometry.Geometry.{Geometry};
ghost use Rattle.fa_mount_headers.specs.Formatted.{AreFormatted};
ghost use Rattle.fa_mount_headers.specs.Found.{ReadsHeaders, AreOnlyRead, AreOf};
ghost use Rattle.fa_mount_headers.specs.Judged.{IsJudged};
ghost use Rattle.fa_mount_headers.specs.NewArray.{IsNew, new_founds};
ghost use Rattle.fa_mount_headers.specs.Rules.{can_hold, header_refusal, is_unread_header, seen_from};
ghost use Rattle.fa_mount_headers.specs.declared.found.Found.{Found};
ghost use Rattle.fa_mount_headers.specs.declared.judging.Judged.{Judged};

use fa_image::Image;

/// Reading headers changes nothing of an image but how many faults it has counted. Of images that return what
/// was written, what was found is what stands there, unless the read was refused.
pub fn headers_are_only_read<I: Image>()
    ensures kept { (before after : List I) (founds : List Found) → ReadsHeaders I.view I.made before after founds
        → AreOnlyRead (map I.view before) (map I.view after) }
    ensures told { (before after : List I) (founds : List Found) → ReadsHeaders I.view I.made before after founds
        → AllByRecursion (λ image. IsTrue (I.honest image)) after → AreOf (map I.view before) founds }
{}

/// What is found of images that were formatted, where they return what was written and no read was refused: the headers
/// with which an array begins.
pub fn a_formatted_array_is_found<I: Image>()
    ensures { (format : ℕ) (geometry : Geometry) (array : List ℕ) (old new read : List I) (founds : List Found)
        → (format ≡ 2) ⊎ (format ≡ 1) → length array ≡ 16 → length old ≡ geometry.dies
        → AllByRecursion (λ image. (I.view image).geometry ≡ geometry) old
        → AreFormatted I.view I.honest format geometry array old new (Ok tt)
        → ReadsHeaders I.view I.made new read founds → length founds ≡ length new
        → AllByRecursion (λ image. IsTrue (I.honest image)) read
        → AllByRecursion (λ found. is_unread_header found.header ≡ false) founds
        → founds ≡ new_founds geometry array }
{}

/// The headers with which an array begins are those of an array that is mounted, without leave for an unclean one: it
/// is clean in epoch 1, each die in use is live, and the others are spares.
pub fn a_new_array_is_clean<A>()
    ensures accepted { (geometry : Geometry) (array : List ℕ) (copies : ℕ) → can_hold copies geometry ≡ true
        → header_refusal copies false (new_founds geometry array) ≡ None }
    ensures judged { (geometry : Geometry) (array : List ℕ) (judged : Judged A)
        → IsJudged (seen_from 0 (new_founds geometry array)) judged → IsNew geometry array judged }
{}

/// The number of copies that an array can hold is judged as [`fa_types::Copies::new`] judges it.
pub fn copies_are_judged_alike()
    ensures { (copies : ℕ) (g : Geometry) → IsTrue (can_hold copies g) ↔ AreCopies copies g.dies g.spares g.blocks g.slots g.pages }
{}
