//! The headline: what every run of an array comes to, each time the contract of a function with no code.
#![tactic(auto)]

ghost use Rattle.std.specs.Prelude.{◌≡◌, ℕ, Bool, IsTrue, List, length, map};
ghost use Rattle.std.specs.List.{AllByRecursion};
ghost use Rattle.fa_headline.specs.Headline.{IsHeadline};
ghost use Rattle.fa_headline.specs.OverImages.{RunsRight};
ghost use Rattle.fa_machine.specs.Beginning.{IsBeginning};
ghost use Rattle.fa_machine.specs.Run.{Happening, Run};
ghost use Rattle.fa_machine.specs.State.{Core};
ghost use Rattle.fa_machine.specs.World.{World};
ghost use Rattle.fa_mount.specs.MountsArray.{MountsArray};
ghost use Rattle.fa_mount_close_laws.specs.DrivenMounted.{images_on};
ghost use Rattle.fa_mount_close_laws.specs.Drives.{AreHonest, Drive, Driven, Drives, beginning};
ghost use Rattle.fa_mount_headers.specs.declared.judging.Standing.{Standing};
ghost use Rattle.fa_mount_scan.specs.MountedWorld.{CopiesAgree, bytes_of};

use fa_image::Image;
use fa_laws::plans::run_plans;
use fa_laws::steps::the_geometry_is_kept;
use fa_mount_close_laws::runs::what_is_mounted_and_driven_is_a_run;

/// Over every interleaving of requests, moves, windows and die failures, each answered page read gives the plain array's page as the
/// read starts, the last committed write, and each planned batch takes the least number of rounds among all injective assignments of its
/// pages to holding dies and open rounds, as its certificate shows.
pub fn headline()
    ensures { (first last : World) (happenings : List Happening) → IsBeginning first → Run first happenings last
        → IsHeadline first happenings last }
{
    run_plans();
    the_geometry_is_kept();
}

/// The same of an array that was mounted of images, and of all that then drives it over them: the calls of `Array`, and those of the
/// images that its jobs make, where each Done tells what its job's calls gave. The images return what was written, as they are mounted
/// and as they are at the end, and the current copies of one page have one payload.
pub fn headline_over_images<I: Image, A>()
    ensures { (copies : ℕ) (unclean : Bool) (before after : List I) (array : List ℕ) (dies : List Standing) (core : Core)
        (drives : List Drive) (last : Driven I) → MountsArray A I.view I.made copies unclean before after array dies core
        → length dies ≡ core.page_map.geometry.dies → CopiesAgree (bytes_of (map I.view after) dies) core.page_map
        → AllByRecursion (λ image. IsTrue (I.honest image)) after
        → Drives I.made array (beginning core (images_on dies after)) drives last → AreHonest I.honest last.images
        → RunsRight I.view dies after core drives last }
{
    headline();
    what_is_mounted_and_driven_is_a_run::<I, A>();
}
