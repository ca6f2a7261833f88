//! Laws of the definitions, each the contract of a function with no code.
ghost use Rattle.std.specs.Prelude.{◌≡◌, ℕ, Bool, IsTrue, List, length, map};
ghost use Rattle.std.specs.List.{AllByRecursion};
ghost use Rattle.fa_mount_headers.specs.declared.judging.Standing.{Standing};
ghost use Rattle.fa_machine.specs.Beginning.{IsBeginning};
ghost use Rattle.fa_machine.specs.State.{Core};
ghost use Rattle.fa_machine.specs.World.{World};
ghost use Rattle.fa_mount.specs.MountsArray.{MountsArray};
ghost use Rattle.fa_mount_scan.specs.MountedWorld.{CopiesAgree, IsMountedWorld, bytes_of, is_spare_of};

use fa_image::Image;

/// Over an array that [`crate::mount`] gives there is a world of the array's machine, with that array as its state and with what stands in
/// the slots of the images as what is seen of them, and runs begin from it. The images return what was written, and the current copies
/// of one page have one payload.
pub fn what_is_mounted_is_a_beginning<I: Image, A>()
    ensures { (copies : ℕ) (unclean : Bool) (before after : List I) (array : List ℕ) (dies : List Standing) (core : Core)
        → MountsArray A I.view I.made copies unclean before after array dies core → length dies ≡ core.page_map.geometry.dies
        → AllByRecursion (λ image. IsTrue (I.honest image)) after
        → CopiesAgree (bytes_of (map I.view after) dies) core.page_map
        → (w : World) × (w.core ≡ core) × IsMountedWorld (bytes_of (map I.view after) dies) (is_spare_of dies) w × IsBeginning w }
{}
