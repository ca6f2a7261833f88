//! The commands `check` and `dump`, which look at the images of an array.
ghost use Rattle.std.specs.Prelude.{◌≡◌, List, Ok, map, string_bytes, IfOk, IfErr, MatchResult};
ghost use Rattle.fa_image.specs.FileMade.{file_view, FileMade};
ghost use Rattle.fa_prog_images.specs.Array.{IsTold, IsLines, IsDocument, IsDocumentWith, IsNotTold, TellsLook, TellsArray};
ghost use Rattle.fa_prog_images.specs.Array.{mount_line as line_of, not_told_of};
ghost use Rattle.fa_mount_headers.specs.Expected.{IsExpected};
ghost use Rattle.fa_mount_headers.specs.Found.{AreFound, IsReadOf};
ghost use Rattle.fa_settings.specs.Terms.{leaves_aside};
ghost use Rattle.fa_prog_images.specs.Mount.{MountsArray, RefusesArray, RefusesHeaders};

use crate::check_lines::check_text;
use crate::document::{check_json, dump_json};
use crate::dump_lines::dump_text;
use crate::table::{DieRow, path_of, rows_of};
use fa_image::{FileImage, Image};
use fa_map::PageMap;
use fa_map_calls::Map;
use fa_mount_headers::{Found, MountFault, MountRefused, expect, read_headers};
use fa_mount_scan::{Mounted, recover_found_side_by_side, scan_found_side_by_side};
use fa_prog_host::printing::{DONE, REFUSED, print, refuse_for_memory};
use fa_prog_host::{
    Host, NotOpened, OpenImages, Opening, Watched, clear, complain, open_images, refuse_settings,
    settings_at, tell,
};
use fa_settings::{Settings, Terms};
use fa_types::Copies;
use std::alloc::{AllocError, Allocator};
use std::io::{Eprint, Write};

/// What is to be told of an array.
#[derive(Clone, Copy)]
pub enum Asked {
    /// How its dies are, and how many pages were written.
    Check,
    /// Where its pages are.
    Dump,
}

/// How a command looks at an array.
#[derive(Clone, Copy)]
pub struct Look {
    /// What is to be told.
    pub asked: Asked,
    /// On what terms its images are taken.
    pub terms: Terms,
    /// One JSON document is printed.
    pub json: bool,
    /// How far it is is told on standard error.
    pub watched: bool,
}

/// The commands `check` and `dump`. Nothing is written to the images.
pub fn run_look<R: Host, W: Write, A: Allocator + Copy>(
    rt: &R,
    alloc: A,
    path: &str,
    look: Look,
    output: &mut W,
) -> u8
    ensures { TellsLook A look.asked look.terms look.json (W.contents output.old) (W.contents output.new) result }
{
    match settings_at(rt, alloc, path) {
        Ok(settings) => tell_array(rt, &settings, path, look, output),
        Err(refused) => refuse_settings(alloc, refused, output),
    }
}

/// Why nothing is told of an array.
#[derive(Clone, Copy)]
pub(crate) enum NotTold {
    /// Its images are not mounted.
    Mount(MountFault),
    /// Memory was refused.
    NoMemory,
}

impl From<AllocError> for NotTold {
    ghost use Rattle.std.specs.Prelude.{◌≡◌};
    ghost use Rattle.fa_prog_images.specs.declared.look.NotTold.TheVariants.{NoMemory};

    ghost from_gives = { λ _ e. e ≡ NoMemory };

    fn from(_error: AllocError) -> NotTold {
        NotTold::NoMemory
    }
}

/// Prints what is to be told of the array of these settings.
fn tell_array<R: Host, W: Write, A: Allocator>(
    rt: &R,
    settings: &Settings<A>,
    path: &str,
    look: Look,
    output: &mut W,
) -> u8
    ensures { TellsArray settings.now look.asked look.terms look.json (W.contents output.old) (W.contents output.new) result }
{
    match text_of(rt, settings, path, look) {
        Ok(text) => print(output, DONE, text.as_bytes()),
        Err(NotTold::Mount(fault)) => print(output, REFUSED, mount_line(fault)),
        Err(NotTold::NoMemory) => refuse_for_memory(output),
    }
}

/// What is to be told of the array of these settings.
fn text_of<R: Host, A: Allocator>(
    rt: &R,
    settings: &Settings<A>,
    path: &str,
    look: Look,
) -> Result<String, NotTold>
    ensures text { IfOk result (λ text. IsTold settings.now look.asked look.terms look.json (string_bytes text)) }
    ensures refused { IfErr result (IsNotTold settings.now look.terms) }
{
    let opening = Opening {
        terms: look.terms,
        syncs: look.terms.is_whole(),
        watched: look.watched,
    };
    let OpenImages { mut images, places } = match open_images(rt, settings, path, opening) {
        Ok(opened) => opened,
        Err(refused) => return Err(not_told(refused)),
    };
    let images = images.as_mut_slice();
    let array = match mounted_of(rt, settings, look, images, &places) {
        Ok(array) => array,
        Err(refused) => return Err(refused),
    };
    if look.json {
        json_of(
            rt,
            settings,
            look.asked,
            &places,
            &array.founds,
            &array.mounted,
        )
    } else {
        lines_of(rt, settings, look.asked, &array.mounted)
    }
}

/// Why nothing is told where the images were not opened.
fn not_told(refused: NotOpened) -> NotTold
    ensures { result ≡ not_told_of refused }
{
    match refused {
        NotOpened::Image => NotTold::Mount(MountFault::ImageFault),
        NotOpened::PagesLost => NotTold::Mount(MountFault::Unclean),
        NotOpened::NoMemory => NotTold::NoMemory,
    }
}

/// An array that was mounted, with what was found of the headers of its images.
#[derive(Drop)]
pub(crate) struct FoundArray {
    /// What was found of each image, in their order.
    pub(crate) founds: Vec<Found>,
    /// What was mounted by it.
    pub(crate) mounted: Mounted<PageMap>,
}

/// Mounts the images that were opened. Why they are not mounted is told on standard error.
fn mounted_of<R: Host, A: Allocator>(
    rt: &R,
    settings: &Settings<A>,
    look: Look,
    images: &mut [Watched<'_, R, FileImage>],
    places: &[usize],
) -> Result<FoundArray, NotTold>
    ensures mounted { IfOk result (λ array. MountsArray file_view FileMade settings.now look.terms
        (map (λ watched. watched.image) images.old) (map (λ watched. watched.image) images.new) array.founds.items array.mounted) }
    ensures refused { IfErr result (λ refused. (refusal : MountRefused) × (refused ≡ NotTold.Mount refusal.fault)
        × RefusesArray file_view FileMade settings.now look.terms
        (map (λ watched. watched.image) images.old) (map (λ watched. watched.image) images.new) refusal) }
{
    let result = mount(rt, settings, look.terms, images);
    clear(rt, look.watched);
    match result {
        Ok(array) => Ok(array),
        Err(refused) => {
            explain(rt, settings, places, look.terms, &refused);
            Err(NotTold::Mount(refused.fault))
        }
    }
}

/// Reads the header of each image, once, and asks whether they are those of the settings' array.
pub fn read_expected<R: Host, I: Image, A: Allocator>(
    rt: &R,
    settings: &Settings<A>,
    terms: Terms,
    images: &mut [I],
) -> Result<Vec<Found>, MountRefused>
    ensures { MatchResult result
        (λ founds. IsReadOf I.view I.made images.old images.new founds.items
        × IsExpected settings.now.geometry settings.now.array (leaves_aside terms) founds.items (Ok tt))
        (RefusesHeaders I.view I.made settings.now terms images.old images.new) }
{
    let Ok(founds) = read_headers(rt.alloc(), images) else {
        return Err(MountRefused::of_nobody(MountFault::NoMemory));
    };
    let (geometry, array) = (settings.geometry, settings.array);
    let left = terms.leaves_aside();
    match expect(rt.alloc(), founds.as_slice(), geometry, array, left) {
        Ok(()) => Ok(founds),
        Err(refused) => Err(refused),
    }
}

/// Mounts the images, which are to be those of the settings' array. The header of each is read once.
fn mount<R: Host, I: Image + Send, A: Allocator>(
    rt: &R,
    settings: &Settings<A>,
    terms: Terms,
    images: &mut [I],
) -> Result<FoundArray, MountRefused>
    ensures { MatchResult result
        (λ array. MountsArray I.view I.made settings.now terms images.old images.new array.founds.items array.mounted)
        (RefusesArray I.view I.made settings.now terms images.old images.new) }
{
    let founds = match read_expected(rt, settings, terms, images) {
        Ok(founds) => founds,
        Err(refused) => return Err(refused),
    };
    match scan_expected(rt, settings, terms, images, founds.as_slice()) {
        Ok(mounted) => Ok(FoundArray { founds, mounted }),
        Err(refused) => Err(refused),
    }
}

/// Mounts images whose headers were read, and are those of the settings' array.
fn scan_expected<R: Host, I: Image + Send, A: Allocator>(
    rt: &R,
    settings: &Settings<A>,
    terms: Terms,
    images: &mut [I],
    founds: &[Found],
) -> Result<Mounted<PageMap>, MountRefused>
    requires found { AreFound I.view I.made images.old founds.now }
    requires expected { IsExpected settings.now.geometry settings.now.array (leaves_aside terms) founds.now (Ok tt) }
    ensures { (before : List I) → IsReadOf I.view I.made before images.old founds.now → MatchResult result
        (MountsArray I.view I.made settings.now terms before images.new founds.now)
        (RefusesArray I.view I.made settings.now terms before images.new) }
{
    let (alloc, copies) = (rt.alloc(), settings.copies);
    match terms {
        Terms::Closed => scan_found_side_by_side(rt, alloc, images, founds, copies, false),
        Terms::Whole => recover_found_side_by_side(rt, alloc, images, founds, copies),
        Terms::Unclean => scan_found_side_by_side(rt, alloc, images, founds, copies, true),
    }
}

/// What is to be told, in lines.
fn lines_of<R: Host, M: Map + Drop, A: Allocator>(
    rt: &R,
    settings: &Settings<A>,
    asked: Asked,
    mounted: &Mounted<M>,
) -> Result<String, NotTold>
    ensures lines { IfOk result (λ text. IsLines M.view settings.now.copies.number asked mounted.now (string_bytes text)) }
    ensures refused { IfErr result (λ refused. refused ≡ NotTold.NoMemory) }
{
    let text = match asked {
        Asked::Check => check_text(rt.alloc(), &mounted.report(settings.copies))?,
        Asked::Dump => dump_text(rt.alloc(), mounted)?,
    };
    Ok(text)
}

/// What is to be told, as one JSON document.
fn json_of<R: Host, M: Map + Drop, A: Allocator>(
    rt: &R,
    settings: &Settings<A>,
    asked: Asked,
    places: &[usize],
    founds: &[Found],
    mounted: &Mounted<M>,
) -> Result<String, NotTold>
    ensures document { IfOk result (λ text. IsDocument M.view settings.now asked places.now founds.now mounted.now (string_bytes text)) }
    ensures refused { IfErr result (λ refused. refused ≡ NotTold.NoMemory) }
{
    let paths = settings.images.as_slice();
    let rows = rows_of(rt.alloc(), paths, places, founds, mounted)?;
    let text = document_of(rt, settings.copies, asked, mounted, &rows)?;
    Ok(text)
}

/// The document with this table of the dies.
fn document_of<R: Host, M: Map + Drop>(
    rt: &R,
    copies: Copies,
    asked: Asked,
    mounted: &Mounted<M>,
    rows: &[DieRow<'_>],
) -> Result<String, AllocError>
    ensures { IfOk result (λ text. IsDocumentWith M.view copies.number asked mounted.now rows.now (string_bytes text)) }
{
    match asked {
        Asked::Check => check_json(rt.alloc(), &mounted.report(copies), rows),
        Asked::Dump => dump_json(rt.alloc(), mounted, rows),
    }
}

/// Tells on standard error which image or die is at fault, and what to do next.
pub fn explain<R: Eprint, A: Allocator>(
    rt: &R,
    settings: &Settings<A>,
    places: &[usize],
    terms: Terms,
    refused: &MountRefused,
) {
    let words = words_of(terms, refused);
    match (
        path_of(&settings.images, places, refused.image),
        refused.die,
    ) {
        (Some(path), _) => complain(rt, path, &words),
        (None, Some(die)) => {
            let die = die.0;
            tell(rt, format_args!("die {die}: {words}"));
        }
        (None, None) => tell(rt, words),
    }
}

/// Why images are not mounted on these terms, and what to do next.
fn words_of(terms: Terms, refused: &MountRefused) -> &'static str {
    match refused.fault {
        MountFault::Unclean if terms.is_whole() => words_of_missing(refused),
        fault => words_of_fault(fault),
    }
}

/// Why an array is not recovered, and what to do next.
fn words_of_missing(refused: &MountRefused) -> &'static str {
    match (refused.image, refused.die) {
        (Some(_), _) => {
            "a spare by its header, and yet it was used: look with check --unclean, then serve --unclean"
        }
        (None, Some(_)) => {
            "this die was in use, and no image has a header of it: bring it back, or look with check --unclean, then serve --unclean"
        }
        (None, None) => {
            "as many dies are out as each page has copies, so pages may be lost: look with check --unclean, then serve --unclean"
        }
    }
}

/// Why images are not mounted, and what to do next.
fn words_of_fault(fault: MountFault) -> &'static str {
    match fault {
        MountFault::HeaderBad => {
            "header bad: this is no image: correct its path, or take it out until its die is replaced"
        }
        MountFault::ArraysDiffer => {
            "arrays differ: correct the number of the array in the settings, or take out the images of others"
        }
        MountFault::GeometryDiffers => {
            "geometry differs: correct the sizes in the settings, or take out the images of other arrays"
        }
        MountFault::DieTwice => "die twice: take out the older of the two images of this die",
        MountFault::Unclean => {
            "the array was not closed, or lacks this die: serve --recover where all images are there, else look with check --unclean, then serve --unclean"
        }
        MountFault::NoDieLive => "no die live: bring back the images of dies that were in use",
        MountFault::ImageFault => {
            "image fault: look at the disk, and take the path out until its die is replaced"
        }
        MountFault::NoMemory => "no memory: give the program more, and start it again",
    }
}

/// What is printed of images that are not mounted.
pub fn mount_line(fault: MountFault) -> &'static [u8]
    ensures { result.now ≡ line_of fault }
{
    match fault {
        MountFault::HeaderBad => b"mount: 1 header bad\n",
        MountFault::ArraysDiffer => b"mount: 2 arrays differ\n",
        MountFault::GeometryDiffers => b"mount: 3 geometry differs\n",
        MountFault::DieTwice => b"mount: 4 die twice\n",
        MountFault::Unclean => b"mount: 5 unclean\n",
        MountFault::NoDieLive => b"mount: 6 no die live\n",
        MountFault::ImageFault => b"mount: 7 image fault\n",
        MountFault::NoMemory => b"mount: 8 no memory\n",
    }
}
