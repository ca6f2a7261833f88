//! The image files of an array, opened and locked.
ghost use Rattle.std.specs.Prelude.{◌≡◌, ◌≢◌, ◌<◌, ℕ, Bool, None, length, map, true, false, IfOk, IfErr, IfSome};
ghost use Rattle.fa_prog_host.specs.Opened.{AreOpened, IsNotOpened, WasSynced};
ghost use Rattle.fa_settings.specs.Terms.{leaves_aside};

use crate::complaint::{complain, complain_of_call, tell};
use crate::host::Host;
use crate::lost::none_lost;
use crate::watched::Watched;
use fa_image::{FileImage, Image};
use fa_settings::{Settings, Terms};
use std::alloc::{AllocError, AllocFailed, Allocator, Global};
use std::io::{self, ErrorKind};
use std::path::Path;

/// The images that were opened, and for each the place of its path in the settings.
#[derive(Drop)]
pub struct OpenImages<'a, R> {
    /// The images.
    pub images: Vec<Watched<'a, R, FileImage>>,
    /// The places, from 0.
    pub places: Vec<usize>,
}

/// Why images were not opened.
#[derive(Clone, Copy)]
pub enum NotOpened {
    /// A file cannot be opened, or another process has it, or its sync was refused.
    Image,
    /// Pages were lost, by the file that tells of them, or nobody can say whether that file is there.
    PagesLost,
    /// Memory was refused.
    NoMemory,
}

impl From<AllocError> for NotOpened {
    ghost use Rattle.std.specs.Prelude.{◌≡◌};
    ghost use Rattle.fa_prog_host.specs.declared.images.NotOpened.TheVariants.{NoMemory};

    ghost from_gives = { λ _ e. e ≡ NoMemory };

    fn from(_error: AllocError) -> NotOpened {
        NotOpened::NoMemory
    }
}

impl<T: Drop> From<AllocFailed<T>> for NotOpened {
    ghost use Rattle.std.specs.Prelude.{◌≡◌};
    ghost use Rattle.fa_prog_host.specs.declared.images.NotOpened.TheVariants.{NoMemory};

    ghost from_gives = { λ _ e. e ≡ NoMemory };

    fn from(_error: AllocFailed<T>) -> NotOpened {
        NotOpened::NoMemory
    }
}

/// How the images of the settings are opened.
#[derive(Clone, Copy)]
pub struct Opening {
    /// On what terms the images are taken.
    pub terms: Terms,
    /// Each image is synced, so that what is read of it is what stands on its disk: a process that was killed may have left writes in the
    /// memory of the system.
    pub syncs: bool,
    /// How far the command is with the images is told on standard error.
    pub watched: bool,
}

/// Opens the images of the settings in the file of this path. One that cannot be opened is told on standard error; where the terms leave it
/// aside the others are taken without it, and else that is the answer. So is an image whose sync is refused, unless images may be missing.
/// A file whose length is not that of an image is told too. Where the images of all dies have to be there none is opened while the file of
/// lost pages is.
pub fn open_images<'a, R: Host, A: Allocator>(
    rt: &'a R,
    settings: &'a Settings<A>,
    path: &str,
    opening: Opening,
) -> Result<OpenImages<'a, R>, NotOpened>
    ensures opened { IfOk result (λ found. AreOpened settings.now.geometry (length settings.now.images.items) opening.terms opening.syncs
        found.places.items (map (λ watched. watched.image) found.images.items)) }
    ensures refused { IfErr result (IsNotOpened opening.terms) }
{
    none_lost(rt, path, opening.terms)?;
    let count = settings.images.len();
    let mut images = Vec::with_capacity(rt.alloc(), count)?;
    let mut places = Vec::with_capacity(rt.alloc(), count)?;
    for place in 0..count {
        match open_one(rt, settings, place, opening)? {
            Some(image) => {
                let path = settings.images[place].as_str();
                images.push(Watched::new(image, path, rt, opening.watched))?;
                places.push(place)?;
            }
            None => {}
        }
    }
    Ok(OpenImages { images, places })
}

/// Opens the image at a place of the settings. None where it cannot be had and is left aside.
fn open_one<R: Host, A: Allocator>(
    rt: &R,
    settings: &Settings<A>,
    place: usize,
    opening: Opening,
) -> Result<Option<FileImage>, NotOpened>
    requires { place < length settings.now.images.items }
    ensures shape { IfOk result (λ found. IfSome found (λ image. image.geometry ≡ settings.now.geometry)) }
    ensures synced { IfOk result (λ found. IfSome found (λ image. opening.syncs ≡ true → WasSynced opening.terms image)) }
    ensures all { IfOk result (λ found. leaves_aside opening.terms ≡ false → found ≢ None) }
    ensures refused { IfErr result (IsNotOpened opening.terms) }
{
    let path = settings.images[place].as_str();
    match FileImage::open(rt, Path::new(path), settings.geometry) {
        Ok(image) => {
            warn_of_length(rt, path, &image);
            synced(rt, path, image, opening)
        }
        Err(refused) => {
            tell_refused(rt, settings, place, &refused);
            left_aside(refused.kind(), opening.terms)
        }
    }
}

/// No image where the terms leave aside the one that was not opened, by the kind of the error.
fn left_aside(kind: ErrorKind, terms: Terms) -> Result<Option<FileImage>, NotOpened>
    ensures none { IfOk result (λ found. (found ≡ None) × (leaves_aside terms ≡ true)) }
    ensures refused { IfErr result (IsNotOpened terms) }
{
    match kind {
        ErrorKind::OutOfMemory => Err(NotOpened::NoMemory),
        _ => match terms {
            Terms::Closed => Err(NotOpened::Image),
            Terms::Whole | Terms::Unclean => Ok(None),
        },
    }
}

/// An opened image, synced where that is asked for.
fn synced<R: Host>(
    rt: &R,
    path: &str,
    image: FileImage,
    opening: Opening,
) -> Result<Option<FileImage>, NotOpened>
    ensures shape { IfOk result (λ found. IfSome found (λ same. same.geometry ≡ image.geometry)) }
    ensures synced { IfOk result (λ found. IfSome found (λ same. opening.syncs ≡ true → WasSynced opening.terms same)) }
    ensures some { IfOk result (λ found. found ≢ None) }
    ensures refused { IfErr result (IsNotOpened opening.terms) }
{
    if !opening.syncs {
        return Ok(Some(image));
    }
    let mut image = image;
    match image.sync() {
        Ok(()) => Ok(Some(image)),
        Err(fault) => {
            tell(
                rt,
                format_args!("{path}: {fault}: what was written may be lost: look at the disk"),
            );
            match opening.terms {
                Terms::Closed | Terms::Whole => Err(NotOpened::Image),
                Terms::Unclean => Ok(Some(image)),
            }
        }
    }
}

/// Images that nobody watches, in their order. The error is out of memory.
pub fn images_alone<R, I: Drop>(
    global: Global,
    watched: Vec<Watched<'_, R, I>>,
) -> Result<Vec<I>, AllocError>
    ensures { IfOk result (λ images. images.items ≡ map (λ watched. watched.image) watched.entry.items) }
{
    watched.into_iter().map(|one| one.image).collect(global)
}

/// Tells why the image file at a place of the settings cannot be had.
pub fn tell_refused<R: Host, A: Allocator>(
    rt: &R,
    settings: &Settings<A>,
    place: usize,
    refused: &io::Error,
)
    requires { place < length settings.now.images.items }
{
    let path = settings.images[place].as_str();
    match refused.kind() {
        ErrorKind::WouldBlock if stands_before(settings, place) => {
            complain(
                rt,
                path,
                &"this path stands twice among the images: give each die a path of its own",
            );
        }
        ErrorKind::WouldBlock => {
            let held =
                "another process has this image, or another of the paths leads to it: end that process, or correct the paths";
            complain(rt, path, &held);
        }
        _ => {
            let advice = "bring its disk back, or correct images in the settings";
            complain_of_call(rt, path, refused, advice);
        }
    }
}

/// Whether the path of an image stands at an earlier place of the settings too.
fn stands_before<A: Allocator>(settings: &Settings<A>, place: usize) -> bool
    requires { place < length settings.now.images.items }
{
    let path = settings.images[place].as_str();
    settings.images[..place]
        .iter()
        .any(|earlier| earlier.as_str() == path)
}

/// Tells where a file is shorter or longer than an image.
fn warn_of_length<R: Host>(rt: &R, path: &str, image: &FileImage) {
    match image.has_its_length() {
        Ok(true) => {}
        Ok(false) => complain(rt, path, &"the length of the file is not that of an image"),
        Err(refused) => {
            tell(
                rt,
                format_args!("{path}: the length of the file is not known: {refused}"),
            );
        }
    }
}
