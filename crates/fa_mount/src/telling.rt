//! The calls that closing makes of the images of the dies that are left: one call of each, the dies rising.
ghost use Rattle.std.specs.Prelude.{◌≡◌, ◌<◌, ◌^◌, ◌&&◌, ◌||◌, ℕ, true, false, IfErr, MatchBool, length};
ghost use Rattle.fa_mount_headers.specs.Rules.{is_in as rule_in};
ghost use Rattle.fa_image.specs.Image.{ImageAnswer, Syncing};
ghost use Rattle.fa_mount.specs.Phases.{AreMade, ByDie, CallsDie, answer_of, called, is_accepted};
ghost use Rattle.fa_mount.specs.Standings.{AreApart, HaveImages, place_on};
ghost use Rattle.fa_mount.specs.Told.{IsTold, writing};

use crate::masks::{is_in, with};
use crate::standings::place_at;
use fa_image::{Image, ImageFault};
use fa_mount_headers::Standing;
use fa_tag::{Header, seal_header};
use fa_types::{Die, Geometry};

/// What the headers of the dies that are left are to tell.
#[derive(Clone, Copy)]
pub(crate) struct Told {
    /// The array's geometry.
    pub geometry: Geometry,
    /// The array's number.
    pub array: [u8; 16],
    /// The epoch.
    pub epoch: u64,
    /// The dies that are left.
    pub mask: u64,
}

/// Syncs the images of the dies that are left. The error is the first die that refused; those above it were not called.
pub(crate) fn sync_all<I: Image>(
    images: &mut [I],
    dies: &[Standing],
    told: &Told,
) -> Result<(), Die>
    requires apart { AreApart dies.now }
    requires have { HaveImages dies.now (rule_in told.now.mask) (length images.old) }
    requires told { IsTold told.now }
    ensures made { AreMade I.made dies.now (λ die. Syncing) (called told.now.mask result) images.old images.new }
    ensures refused { IfErr result (λ die. rule_in told.now.mask die.0 ≡ true) }
{
    for die in 0..told.geometry.dies {
        if is_in(told.mask, die) {
            match sync_one(images, dies, die) {
                Ok(()) => {}
                Err(_) => return Err(Die(die as u8)),
            }
        }
    }
    Ok(())
}

/// Syncs the image of a die.
fn sync_one<I: Image>(images: &mut [I], dies: &[Standing], die: u32) -> Result<(), ImageFault>
    requires { (index : ℕ) × (place_on dies.now die ≡ Some index) × (index < length images.old) }
    ensures { CallsDie I.made dies.now die Syncing (answer_of result) images.old images.new }
{
    let index = place_at(dies, die as usize).unwrap();
    let image = &mut images[index];
    image.sync()
}

/// Writes the headers of the dies that are left, with the clean mark. The error is the first die that refused; those above it were
/// not called. The dies that were told come to those that are marked.
pub(crate) fn mark_all<I: Image>(
    images: &mut [I],
    dies: &[Standing],
    told: &Told,
    marked: &mut u64,
) -> Result<(), Die>
    requires apart { AreApart dies.now }
    requires have { HaveImages dies.now (rule_in told.now.mask) (length images.old) }
    requires told { IsTold told.now }
    ensures made { AreMade I.made dies.now (writing told.now true) (called told.now.mask result) images.old images.new }
    ensures refused { IfErr result (λ die. rule_in told.now.mask die.0 ≡ true) }
    ensures marked { (die : ℕ) → rule_in marked.new die ≡ (is_accepted (called told.now.mask result die) || rule_in marked.old die) }
{
    for die in 0..told.geometry.dies {
        if is_in(told.mask, die) {
            match tell_one(images, dies, told, die, true) {
                Ok(()) => *marked = with(*marked, die),
                Err(_) => return Err(Die(die as u8)),
            }
        }
    }
    Ok(())
}

/// Writes the headers of those dies that are left and marked, without the clean mark. A die that refuses is passed over.
pub(crate) fn unmark_all<I: Image>(images: &mut [I], dies: &[Standing], told: &Told, marked: u64)
    requires apart { AreApart dies.now }
    requires have { HaveImages dies.now (rule_in told.now.mask) (length images.old) }
    requires told { IsTold told.now }
    ensures { ByDie dies.now (λ die x y. MatchBool (rule_in told.now.mask die && rule_in marked die)
        ((answer : ImageAnswer) × I.made x (writing told.now false die) answer y) (y ≡ x)) images.old images.new }
{
    for die in 0..told.geometry.dies {
        if is_in(told.mask, die) && is_in(marked, die) {
            let _ = tell_one(images, dies, told, die, false);
        }
    }
}

/// Writes the header of a die.
fn tell_one<I: Image>(
    images: &mut [I],
    dies: &[Standing],
    told: &Told,
    die: u32,
    clean: bool,
) -> Result<(), ImageFault>
    requires place { (index : ℕ) × (place_on dies.now die ≡ Some index) × (index < length images.old) }
    requires told { IsTold told.now }
    requires die { rule_in told.now.mask die ≡ true }
    ensures { CallsDie I.made dies.now die (writing told.now clean die) (answer_of result) images.old images.new }
{
    let header = Header {
        die: Die(die as u8),
        geometry: told.geometry,
        clean,
        spare: false,
        epoch: told.epoch,
        mask: told.mask,
        array: told.array,
    };
    let index = place_at(dies, die as usize).unwrap();
    let image = &mut images[index];
    image.write_header(&seal_header(&header))
}
