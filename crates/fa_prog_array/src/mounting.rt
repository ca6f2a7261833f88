//! The images of the settings' array, mounted.
ghost use Rattle.std.specs.Prelude.{◌≡◌, List, Ok, IfOk, MatchResult, OnOk, length, map};
ghost use Rattle.fa_core.specs.Array.{IsWhole, number_of, state_of};
ghost use Rattle.fa_mount_headers.specs.Expected.{IsExpected};
ghost use Rattle.fa_mount_headers.specs.Found.{AreFound, AreOnlyRead, IsReadOf};
ghost use Rattle.fa_map.specs.PageView.{page_view};
ghost use Rattle.fa_prog_images.specs.Array.{mount_line as line_of};
ghost use Rattle.fa_prog_array.specs.Mounting.{MountsSettings, RefusesSettingsArray};
ghost use Rattle.fa_prog_host.specs.Printing.{Prints};
ghost use Rattle.fa_settings.specs.Terms.{leaves_aside};

use fa_image::Image;
use fa_map::PageMap;
use fa_mount::{MountedArray, mount_found_side_by_side, recover_found_side_by_side};
use fa_mount_headers::laws::headers_are_only_read;
use fa_mount_headers::{Found, MountFault, MountRefused};
use fa_prog_host::Host;
use fa_prog_host::printing::{REFUSED, print};
use fa_prog_images::{mount_line, read_expected};
use fa_settings::{Settings, Terms};
use std::alloc::Allocator;
use std::io::Write;

/// Mounts the images, which are to be those of the settings' array, on these terms. The header of each is read once.
pub fn mount<R: Host, I: Image + Send, A: Allocator>(
    rt: &R,
    settings: &Settings<A>,
    terms: Terms,
    images: &mut [I],
) -> Result<MountedArray<PageMap>, MountRefused>
    ensures mounts { MatchResult result
        (λ mounted. MountsSettings I.view I.made settings.now terms images.old images.new
        (number_of mounted.array) mounted.dies.items (state_of page_view mounted.array))
        (RefusesSettingsArray I.view I.made settings.now terms images.old images.new) }
    ensures dies { IfOk result (λ mounted. length mounted.dies.items
        ≡ (state_of page_view mounted.array).page_map.geometry.dies) }
    ensures whole { IfOk result (λ mounted. IsWhole page_view mounted.array) }
    ensures only_read { OnOk result (AreOnlyRead (map I.view images.old) (map I.view images.new)) }
{
    headers_are_only_read::<I>();
    match read_expected(rt, settings, terms, images) {
        Ok(founds) => mount_expected(rt, settings, terms, images, founds.as_slice()),
        Err(refused) => Err(refused),
    }
}

/// Mounts images whose headers were read, and are those of the settings' array.
fn mount_expected<R: Host, I: Image + Send, A: Allocator>(
    rt: &R,
    settings: &Settings<A>,
    terms: Terms,
    images: &mut [I],
    founds: &[Found],
) -> Result<MountedArray<PageMap>, MountRefused>
    requires found { AreFound I.view I.made images.old founds.now }
    requires expected { IsExpected settings.now.geometry settings.now.array (leaves_aside terms) founds.now (Ok tt) }
    ensures mounts { (before : List I) → IsReadOf I.view I.made before images.old founds.now → MatchResult result
        (λ mounted. MountsSettings I.view I.made settings.now terms before images.new
        (number_of mounted.array) mounted.dies.items (state_of page_view mounted.array))
        (RefusesSettingsArray I.view I.made settings.now terms before images.new) }
    ensures dies { IfOk result (λ mounted. length mounted.dies.items
        ≡ (state_of page_view mounted.array).page_map.geometry.dies) }
    ensures whole { IfOk result (λ mounted. IsWhole page_view mounted.array) }
    ensures only_read { AreOnlyRead (map I.view images.old) (map I.view images.new) }
{
    let (alloc, copies) = (rt.alloc(), settings.copies);
    match terms {
        Terms::Closed => mount_found_side_by_side(rt, alloc, images, founds, copies, false),
        Terms::Whole => recover_found_side_by_side(rt, alloc, images, founds, copies),
        Terms::Unclean => mount_found_side_by_side(rt, alloc, images, founds, copies, true),
    }
}

/// Prints why images are not mounted.
pub fn refuse_mount<W: Write>(fault: MountFault, output: &mut W) -> u8
    ensures { Prints (line_of fault) 1 (W.contents output.old) (W.contents output.new) result }
{
    print(output, REFUSED, mount_line(fault))
}
