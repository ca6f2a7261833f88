//! Laws of the definitions, each the contract of a function with no code.
ghost use Rattle.std.specs.Prelude.{◌≡◌, ◌↔◌, ℕ, ◌*◌, ◌<◌, Bool, true, Some, None, is_some};
ghost use Rattle.std.specs.Prelude.{List, count_by, length, map, IsTrue};
ghost use Rattle.std.specs.FinMap.{get};
ghost use Rattle.std.specs.List.{AllByRecursion, AllPairs, Contains};
ghost use Rattle.fa_types.specs.declared.geometry.Geometry.{Geometry};
ghost use Rattle.fa_types.specs.declared.numbers.Die.{Die};
ghost use Rattle.fa_types.specs.declared.numbers.Page.{Page};
ghost use Rattle.fa_types.specs.declared.numbers.Slot.{Slot};
ghost use Rattle.fa_machine.specs.Beginning.{IsBeginning};
ghost use Rattle.fa_machine.specs.Cells.{Cell, Empty, Sealed};
ghost use Rattle.fa_machine.specs.Copies.{is_current};
ghost use Rattle.fa_machine.specs.Maps.{below};
ghost use Rattle.fa_machine.specs.State.{MapState, is_live, used_at};
ghost use Rattle.fa_machine.specs.World.{World};
ghost use Rattle.fa_machine.specs.declared.places.Used.TheVariants.{Held, Reserved};
ghost use Rattle.fa_machine.specs.declared.places.Version.{Version};
ghost use Rattle.fa_mount_scan.specs.Content.{AreContents, Contents, IsMountedContent, found_at};
ghost use Rattle.fa_mount_scan.specs.ContentCells.{IsCellOf};
ghost use Rattle.fa_mount_scan.specs.ContentReading.{IsContentOf};
ghost use Rattle.fa_mount_scan.specs.MountedWorld.{HoldMap, IsMountedWorld, SlotBytes, bytes_of, is_spare_of};
ghost use Rattle.fa_mount_scan.specs.Mounting.{Mounts};
ghost use Rattle.fa_mount_headers.specs.declared.judging.Standing.{Standing};
ghost use Rattle.fa_mount_scan.specs.declared.slots.content.SlotContent.{SlotContent};
ghost use Rattle.fa_mount_scan.specs.declared.slots.content.SlotContent.TheVariants.{Copy, Erased};
ghost use Rattle.fa_map_calls.specs.Slots.{IsPageMap};
ghost use Rattle.fa_mount_scan.specs.Pages.{Written, places_of, written_pages};
ghost use Rattle.fa_mount_scan.specs.Reported.{is_written};

use fa_image::Image;

/// The bytes of a slot are one cell of the array's machine.
pub fn bytes_are_one_cell()
    ensures { (bytes : List ℕ) (a b : Cell) → IsCellOf bytes a → IsCellOf bytes b → a ≡ b }
{}

/// The mounted content is a function of what was found: there is one map of it.
pub fn what_was_found_is_one_map()
    ensures { (geometry : Geometry) (contents : Contents) (m n : MapState) → IsMountedContent geometry contents m
        → IsMountedContent geometry contents n → m ≡ n }
{}

/// What was found in a slot is seen as a cell of the array's machine: an empty one where nothing was found, and a sealed
/// one of that write at its own place where a copy of a page was.
pub fn what_was_found_is_what_is_seen()
    ensures seen { (bytes : List ℕ) (pages die slot : ℕ) (content : SlotContent) → IsContentOf bytes pages die slot content
        → (cell : Cell) × IsCellOf bytes cell }
    ensures erased { (bytes : List ℕ) (pages die slot : ℕ) (content : SlotContent) (cell : Cell)
        → IsContentOf bytes pages die slot content → IsCellOf bytes cell → content ≡ Erased ↔ cell ≡ Empty }
    ensures copy { (bytes : List ℕ) (pages die slot : ℕ) (content : SlotContent) (cell : Cell) (page : Page) (version : Version)
        → IsContentOf bytes pages die slot content → IsCellOf bytes cell
        → content ≡ Copy page version ↔ ((page.0 < pages) × (payload : List ℕ) × (cell ≡ Sealed page.0 version die slot payload)) }
{}

/// Of the mounted content of an array: live dies are dies of the array, only slots of live dies are used, nothing is
/// reserved, and what is erased was found so. What a slot holds was found in it with its page's number, a die holds a page
/// once, and each page that was written is one of the array and is held by some die.
pub fn the_mounted_content_is_sound()
    ensures live { (geometry : Geometry) (contents : Contents) (m : MapState) (die : ℕ) → AreContents geometry contents
        → IsMountedContent geometry contents m → is_live m die ≡ true → die < geometry.dies }
    ensures used { (geometry : Geometry) (contents : Contents) (m : MapState) (die slot : ℕ) → AreContents geometry contents
        → IsMountedContent geometry contents m → is_some (used_at m die slot) ≡ true
        → (is_live m die ≡ true) × (slot < geometry.blocks * geometry.slots) }
    ensures reserved { (geometry : Geometry) (contents : Contents) (m : MapState) (die slot : ℕ) → AreContents geometry contents
        → IsMountedContent geometry contents m → ¬ (used_at m die slot ≡ Some Reserved) }
    ensures erased { (geometry : Geometry) (contents : Contents) (m : MapState) (die slot : ℕ) → AreContents geometry contents
        → IsMountedContent geometry contents m → is_live m die ≡ true → slot < geometry.blocks * geometry.slots
        → used_at m die slot ≡ None → found_at contents die slot ≡ Some Erased }
    ensures held { (geometry : Geometry) (contents : Contents) (m : MapState) (die slot : ℕ) (page : Page) (version : Version)
        → AreContents geometry contents → IsMountedContent geometry contents m → used_at m die slot ≡ Some (Held page version)
        → (get m.versions page.0 ≡ Some version) × (found_at contents die slot ≡ Some (Copy page version)) }
    ensures once { (geometry : Geometry) (contents : Contents) (m : MapState) (page die slot other : ℕ) → AreContents geometry contents
        → IsMountedContent geometry contents m → is_current m page die slot ≡ true → is_current m page die other ≡ true
        → slot ≡ other }
    ensures written { (geometry : Geometry) (contents : Contents) (m : MapState) (page : Page) (version : Version)
        → AreContents geometry contents → IsMountedContent geometry contents m → get m.versions page.0 ≡ Some version
        → (page.0 < geometry.pages) × (die : ℕ) × (slot : ℕ) × (used_at m die slot ≡ Some (Held page version)) }
{}

/// What is mounted of images that return what was written is the map of what stands in the slots of the dies that are
/// live. Nothing is mounted of a spare, and it is erased.
pub fn what_is_mounted_stands_there<I: Image, A>()
    ensures { (copies : ℕ) (unclean : Bool) (before after : List I) (array : List ℕ) (epoch : ℕ) (clean : Bool) (dies : List Standing)
        (m : MapState) → Mounts A I.view I.made copies unclean before after array epoch clean dies m → length dies ≡ m.geometry.dies
        → AllByRecursion (λ image. IsTrue (I.honest image)) after
        → HoldMap (bytes_of (map I.view after) dies) (is_spare_of dies) m.geometry m }
{}

/// The world over what was mounted, with nothing under way, is one from which the array's runs begin, where the current
/// copies of one page have one payload.
pub fn what_was_mounted_is_a_beginning()
    ensures { (bytes : SlotBytes) (is_spare : ℕ → Bool) (w : World) → IsMountedWorld bytes is_spare w → IsBeginning w }
{}

/// Of a page map: a page is one of its written pages exactly where it was ever written, with its last write, and its places
/// are exactly those of its current copies. The pages rise, and so do the dies of a page's places, so none comes twice; and
/// there are as many pages as [`fa_mount_scan::Mounted::report`] counts.
pub fn written_pages_are_those_of_the_map()
    ensures written { (m : MapState) (page : Written) → IsPageMap m
        → Contains (written_pages m) page
        ↔ ((get m.versions page.page.0 ≡ Some page.version) × (page.places ≡ places_of m page.page.0)) }
    ensures places { (m : MapState) (page : ℕ) (die : Die) (slot : Slot) → IsPageMap m
        → Contains (places_of m page) (die, slot) ↔ (is_current m page die.0 slot.0 ≡ true) }
    ensures pages_rise { (m : MapState) → AllPairs (λ a b. a.page.0 < b.page.0) (written_pages m) }
    ensures dies_rise { (m : MapState) (page : ℕ) → AllPairs (λ a b. a.0.0 < b.0.0) (places_of m page) }
    ensures counted { (m : MapState) → length (written_pages m) ≡ count_by (is_written m) (below m.geometry.pages) }
{}
