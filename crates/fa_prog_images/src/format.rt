//! The command `format`.
ghost use Rattle.std.specs.Prelude.{◌≡◌, ◌⊎◌, ◌<◌, [], length, IfOk, IfErr, OnOk, Some, None, string_bytes};
ghost use Rattle.std.specs.List.{AllByRecursion};
ghost use Rattle.fa_image.specs.FileMade.{file_view};
ghost use Rattle.fa_prog_images.specs.Formatting.{CameOf, FormatsSpare, HasImages, IsEmptied, IsFailure, IsFailureAt, TellsFormat};
ghost use Rattle.fa_prog_images.specs.Formatting.{TellsFormatted};
ghost use Rattle.fa_prog_images.specs.Formatting.{failure_of as failure_by, formatted_line, image_line};
ghost use Rattle.fa_prog_host.specs.Printing.{TellsNoMemory};

use fa_image::{FileImage, Image, ImageFault};
use fa_mount_headers::FormatFault;
use fa_prog_host::printing::{DONE, FAULTY, REFUSED, print, refuse_for_memory};
use fa_prog_host::{Host, refuse_settings, settings_at, tell, tell_refused};
use fa_settings::Settings;
use fa_tag::open_header;
use fa_types::{Die, HEADER_BYTES};
use std::alloc::{AllocError, Allocator};
use std::io::{self, ErrorKind, Write};
use std::path::Path;

/// What comes of `format`.
#[derive(Clone, Copy)]
pub(crate) enum Formatted {
    /// So many images were formatted.
    Done(u32),
    /// The settings have another number of images than dies.
    Images,
    /// The array has no such die.
    NoSuchDie,
    /// This image, from 0, cannot be made or written.
    Image(usize),
    /// Memory was refused.
    NoMemory,
}

/// The command `format`: makes the images of an array, or with a die that die's image alone, as a spare's.
pub fn run_format<R: Host, W: Write, A: Allocator + Copy>(
    rt: &R,
    alloc: A,
    path: &str,
    die: Option<Die>,
    output: &mut W,
) -> u8
    ensures { TellsFormat A die (W.contents output.old) (W.contents output.new) result }
{
    match settings_at(rt, alloc, path) {
        Ok(settings) => tell_format(alloc, made(rt, &settings, die), output),
        Err(refused) => refuse_settings(alloc, refused, output),
    }
}

/// Prints what came of it.
fn tell_format<W: Write, A: Allocator + Copy>(alloc: A, formatted: Formatted, output: &mut W) -> u8
    ensures { TellsFormatted formatted (W.contents output.old) (W.contents output.new) result
        ⊎ TellsNoMemory (W.contents output.old) (W.contents output.new) result }
{
    match formatted {
        Formatted::Done(images) => match counted(alloc, images) {
            Ok(line) => print(output, DONE, line.as_bytes()),
            Err(AllocError) => refuse_for_memory(output),
        },
        Formatted::Images => print(output, FAULTY, b"settings: 5 images\n"),
        Formatted::NoSuchDie => print(output, FAULTY, b"settings: 5 dies\n"),
        Formatted::Image(image) => match named(alloc, image) {
            Ok(line) => print(output, REFUSED, line.as_bytes()),
            Err(AllocError) => refuse_for_memory(output),
        },
        Formatted::NoMemory => refuse_for_memory(output),
    }
}

/// What is printed of so many images that were formatted.
#[tactic(auto, unfolding(crate::specs::Formatting::formatted_line))]
fn counted<A: Allocator + Copy>(alloc: A, images: u32) -> Result<String<A>, AllocError>
    ensures { IfOk result (λ line. string_bytes line ≡ formatted_line images) }
{
    let number = images.to_string(alloc)?;
    let mut line = String::from_str(alloc, "formatted ")?;
    line.push_str(number.as_str())?;
    line.push_str(" images\n")?;
    Ok(line)
}

/// What is printed of an image that cannot be made or written.
#[tactic(auto, unfolding(crate::specs::Formatting::image_line))]
fn named<A: Allocator + Copy>(alloc: A, image: usize) -> Result<String<A>, AllocError>
    ensures { IfOk result (λ line. string_bytes line ≡ image_line image) }
{
    let number = image.to_string(alloc)?;
    let mut line = String::from_str(alloc, "format: image ")?;
    line.push_str(number.as_str())?;
    line.push('\n')?;
    Ok(line)
}

/// Makes the images that are asked for.
fn made<R: Host, A: Allocator>(rt: &R, settings: &Settings<A>, die: Option<Die>) -> Formatted
    ensures { CameOf settings.now die result }
{
    let dies = settings.geometry.dies;
    let images = settings.images.len();
    if images != dies as usize {
        tell(
            rt,
            format_args!("there are {images} images, and {dies} dies: name one for each die"),
        );
        return Formatted::Images;
    }
    match die {
        None => make_all(rt, settings),
        Some(die) if u32::from(die.0) < dies => make_spare(rt, settings, die),
        Some(die) => {
            let die = die.0;
            tell(
                rt,
                format_args!("there is no die {die}: the array has {dies}"),
            );
            Formatted::NoSuchDie
        }
    }
}

/// Makes the images of all dies. None is emptied before all are opened.
fn make_all<R: Host, A: Allocator>(rt: &R, settings: &Settings<A>) -> Formatted
    requires { HasImages settings.now }
    ensures { CameOf settings.now None result }
{
    let mut opened = Vec::new(rt.alloc());
    if let Err(formatted) = open_all(rt, settings, &mut opened) {
        return formatted;
    }
    let mut images = Vec::new(rt.alloc());
    if let Err(formatted) = empty_all(rt, settings, opened, &mut images) {
        return formatted;
    }
    match fa_mount_headers::format(&mut images, settings.geometry, settings.array) {
        Ok(()) => Formatted::Done(settings.geometry.dies),
        Err(failed) => failed_image(rt, settings, failed),
    }
}

/// What an image comes to that refused a call while it was formatted. It is told on standard error.
fn failed_image<R: Host, A: Allocator>(
    rt: &R,
    settings: &Settings<A>,
    failed: FormatFault,
) -> Formatted
    ensures { result ≡ Formatted.Image failed.image }
{
    if let Some(path) = settings.images.get(failed.image) {
        tell_failed(rt, path.as_str(), failed.fault);
    }
    Formatted::Image(failed.image)
}

/// Tells which call the image at a path refused, and what to do next.
fn tell_failed<R: Host>(rt: &R, path: &str, fault: ImageFault) {
    tell(
        rt,
        format_args!("{path}: {fault}: look at its disk, and format it again"),
    );
}

/// Opens or makes the file of each image.
fn open_all<R: Host, A: Allocator>(
    rt: &R,
    settings: &Settings<A>,
    images: &mut Vec<FileImage>,
) -> Result<(), Formatted>
    requires { images.old.items ≡ [] }
    ensures long { OnOk result (length images.new.items ≡ length settings.now.images.items) }
    ensures shape { OnOk result (AllByRecursion (λ image. image.geometry ≡ settings.now.geometry) images.new.items) }
    ensures failure { IfErr result (IsFailure (length settings.now.images.items)) }
{
    for place in 0..settings.images.len() {
        let image = opened(rt, settings, place)?;
        if images.push(image).is_err() {
            return Err(Formatted::NoMemory);
        }
    }
    Ok(())
}

/// Empties each image.
fn empty_all<R: Host, A: Allocator>(
    rt: &R,
    settings: &Settings<A>,
    opened: Vec<FileImage>,
    images: &mut Vec<FileImage>,
) -> Result<(), Formatted>
    requires none { images.old.items ≡ [] }
    requires long { length opened.items ≡ length settings.now.images.items }
    requires shape { AllByRecursion (λ image. image.geometry ≡ settings.now.geometry) opened.items }
    ensures long { OnOk result (length images.new.items ≡ length settings.now.images.items) }
    ensures emptied { OnOk result (AllByRecursion (IsEmptied settings.now) images.new.items) }
    ensures failure { IfErr result (IsFailure (length settings.now.images.items)) }
{
    for mut image in opened {
        empty(rt, settings, images.len(), &mut image)?;
        if images.push(image).is_err() {
            return Err(Formatted::NoMemory);
        }
    }
    Ok(())
}

/// Makes the image of one die, as a spare's.
fn make_spare<R: Host, A: Allocator>(rt: &R, settings: &Settings<A>, die: Die) -> Formatted
    requires images { HasImages settings.now }
    requires die { die.0 < settings.now.geometry.dies }
    ensures { CameOf settings.now (Some die) result }
{
    match spare_made(rt, settings, die) {
        Ok(()) => Formatted::Done(1),
        Err(formatted) => formatted,
    }
}

/// Opens, empties and formats the image of one die.
fn spare_made<R: Host, A: Allocator>(
    rt: &R,
    settings: &Settings<A>,
    die: Die,
) -> Result<(), Formatted>
    requires images { HasImages settings.now }
    requires die { die.0 < settings.now.geometry.dies }
    ensures spare { OnOk result (FormatsSpare settings.now die.0) }
    ensures failure { IfErr result (IsFailureAt die.0) }
{
    let place = usize::from(die.0);
    let mut image = opened(rt, settings, place)?;
    empty(rt, settings, place, &mut image)?;
    match fa_mount_headers::format_spare(&mut image, settings.geometry, settings.array, die) {
        Ok(()) => Ok(()),
        Err(fault) => {
            tell_failed(rt, settings.images[place].as_str(), fault);
            Err(Formatted::Image(place))
        }
    }
}

/// The image file at a place of the settings, as it is or new.
fn opened<R: Host, A: Allocator>(
    rt: &R,
    settings: &Settings<A>,
    place: usize,
) -> Result<FileImage, Formatted>
    requires { place < length settings.now.images.items }
    ensures shape { IfOk result (λ image. image.geometry ≡ settings.now.geometry) }
    ensures failure { IfErr result (IsFailureAt place) }
{
    let path = settings.images[place].as_str();
    match FileImage::open_or_create(rt, Path::new(path), settings.geometry) {
        Ok(image) => Ok(image),
        Err(refused) => Err(refused_image(rt, settings, place, &refused)),
    }
}

/// Empties the image at a place of the settings. Where it holds a die of an array that was in use, that is
/// told before it is lost.
fn empty<R: Host, A: Allocator>(
    rt: &R,
    settings: &Settings<A>,
    place: usize,
    image: &mut FileImage,
) -> Result<(), Formatted>
    requires place { place < length settings.now.images.items }
    requires shape { image.old.geometry ≡ settings.now.geometry }
    ensures emptied { OnOk result (IsEmptied settings.now image.new) }
    ensures failure { IfErr result (IsFailureAt place) }
{
    let path = settings.images[place].as_str();
    warn_of_loss(rt, path, image);
    match image.empty() {
        Ok(()) => Ok(()),
        Err(refused) => Err(refused_image(rt, settings, place, &refused)),
    }
}

/// What a refusal of an image file comes to. It is told on standard error.
fn refused_image<R: Host, A: Allocator>(
    rt: &R,
    settings: &Settings<A>,
    place: usize,
    refused: &io::Error,
) -> Formatted
    requires { place < length settings.now.images.items }
    ensures { IsFailureAt place result }
{
    tell_refused(rt, settings, place, refused);
    failure_of(refused.kind(), place)
}

/// What came of an image whose file was refused, by the kind of the error.
fn failure_of(kind: ErrorKind, place: usize) -> Formatted
    ensures { result ≡ failure_by kind place }
{
    match kind {
        ErrorKind::OutOfMemory => Formatted::NoMemory,
        _ => Formatted::Image(place),
    }
}

/// Tells where an image holds a die of an array that was mounted since it was formatted.
fn warn_of_loss<R: Host>(rt: &R, path: &str, image: &mut FileImage)
    ensures { image.new.geometry ≡ image.old.geometry }
{
    let mut bytes = [0u8; HEADER_BYTES];
    if image.read_header(&mut bytes).is_err() {
        return;
    }
    if let Some(header) = open_header(&bytes) {
        if header.epoch > 1 {
            let die = header.die.0;
            tell(
                rt,
                format_args!("{path}: die {die} of an array that was mounted is lost"),
            );
        }
    }
}
