//! Where the store of one thread begins.
ghost use Rattle.std.specs.Prelude.{◌≡◌, ℕ, ◌*◌, Bool, IsTrue, List, length, map};
ghost use Rattle.std.specs.List.{AllByRecursion};
ghost use Rattle.fa_solo_laws.specs.Sessions.{IsStoreOf};
ghost use Rattle.fa_mount_headers.specs.Found.{AreOnlyRead};
ghost use Rattle.fa_mount_headers.specs.declared.judging.Standing.{Standing};
ghost use Rattle.fa_machine.specs.Beginning.{IsBeginning};
ghost use Rattle.fa_machine.specs.State.{Core};
ghost use Rattle.fa_machine.specs.World.{World};
ghost use Rattle.fa_mount.specs.MountsArray.{MountsArray};
ghost use Rattle.fa_mount_scan.specs.MountedWorld.{CopiesAgree, IsMountedWorld, bytes_of, is_spare_of};
ghost use Rattle.fa_solo.specs.Stores.{StoreState};

use fa_image::Image;

/// A store over an array that was just mounted is one over a world from which runs begin, with what stands in the slots of the images as
/// they were mounted. It is as `Solo::new` makes it: of the array's state, the dies' standings and the images, and as large as the array.
/// The images were only read, as mounting does, and return what was written, and the current copies of one page have one payload.
pub fn a_mounted_store_is_of_a_world<L, M, I: Image, A>()
    ensures { (copies : ℕ) (unclean : Bool) (before after : List I) (array : List ℕ) (dies : List Standing) (core : Core)
        (store : StoreState L M I A) → MountsArray A I.view I.made copies unclean before after array dies core
        → AreOnlyRead (map I.view before) (map I.view after) → length dies ≡ core.page_map.geometry.dies
        → CopiesAgree (bytes_of (map I.view after) dies) core.page_map → AllByRecursion (λ image. IsTrue (I.honest image)) after
        → store.inner.locked.core ≡ core → store.inner.dies.items ≡ dies → store.inner.images.items ≡ after
        → store.bytes ≡ core.page_map.geometry.pages * core.page_map.geometry.page_bytes
        → store.page_bytes ≡ core.page_map.geometry.page_bytes
        → (w : World) × IsStoreOf I.view store w × IsBeginning w
        × IsMountedWorld (bytes_of (map I.view after) dies) (is_spare_of dies) w }
{}
