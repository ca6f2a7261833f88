//! The command `talk --array`, from its settings to what it prints.
ghost use Rattle.std.specs.Prelude.{◌≡◌, true, [], ◌∷◌, ◌++◌, List, IfOk, codes, length, string_bytes};
ghost use Rattle.fa_core.specs.Array.{IsWhole, number_of, state_of};
ghost use Rattle.fa_prog_array.specs.declared.kept.Kept.{Kept as KeptRecord};
ghost use Rattle.fa_io.specs.Streams.{between};
ghost use Rattle.fa_prog_host.specs.Opened.{AreOpened};
ghost use Rattle.flasharr.specs.TalkArray.{MayBeServed, RunsTalkArray, TellsClient, TellsLines, TellsMounted, TellsSaid};
ghost use Rattle.flasharr.specs.TalkArray.{ServedArray, said_text as text_of};
ghost use Rattle.fa_prog_text.specs.Output.{RunsOver};
ghost use Rattle.fa_faults.specs.declared.faults.Fault.{Fault};

use crate::conversation::{Said, converse};
use crate::laws::a_conversation_is_right;
use fa_image::{FileImage, Image};
use fa_map::PageMap;
use fa_map_calls::Map;
use fa_mount::{CloseFault, MountedArray};
use fa_mount_headers::MountFault;
use fa_prog_array::{Kept, end_text, mount, refuse_mount, status_of};
use fa_prog_host::printing::{print, refuse_for_memory};
use fa_prog_host::{
    Host, NotOpened, OpenImages, Opening, images_alone, keep_lost_at_end, keep_or_tell,
    open_images, refuse_settings, settings_at,
};
use fa_prog_images::explain;
use fa_prog_text::{read_hex_lines, read_input, refuse_text, refuse_unread, talk_text};
use fa_settings::{Settings, Terms};
use fa_solo::Parts;
use std::alloc::{AllocError, Allocator, Global};
use std::io::{Read, Write};
use std::marker::Brand;
use std::sync::ledger::Blank;

/// Which array is taken, and how.
#[derive(Clone, Copy)]
pub(crate) struct Taken<'a> {
    /// The path of the settings.
    path: &'a str,
    /// On what terms its images are taken.
    terms: Terms,
}

/// The command `talk` over the array of the settings in the file of this path: serves one NBD client, whose bytes are given by lines of
/// hexadecimal digits, and closes the array.
///
/// It prints what the server says, in hexadecimal on one line, and how the connection ended, then the last 64 faults that took dies out and
/// how the array was closed. What else an admin wants to know is told on standard error. The whole input is read before an image is opened.
/// The status is 0 where the array was closed clean, 2 where the settings cannot be had or the input spells no bytes, and else 1.
pub fn run_talk_array<R: Host, N: Read, W: Write, A: Allocator + Copy>(
    rt: &R,
    alloc: A,
    path: &str,
    terms: Terms,
    input: &mut N,
    output: &mut W,
) -> u8
    ensures { let streams = between (N.remaining input.old) (N.remaining input.new) (W.contents output.old) (W.contents output.new) in
        RunsTalkArray A terms streams result }
{
    match settings_at(rt, alloc, path) {
        Ok(settings) => hear(rt, alloc, &settings, Taken { path, terms }, input, output),
        Err(refused) => refuse_settings(alloc, refused, output),
    }
}

/// Reads what the client says, and serves it the array of these settings.
fn hear<R: Host, N: Read, W: Write, A: Allocator + Copy>(
    rt: &R,
    alloc: A,
    settings: &Settings<A>,
    taken: Taken<'_>,
    input: &mut N,
    output: &mut W,
) -> u8
    requires served { MayBeServed settings.now }
    ensures { let streams = between (N.remaining input.old) (N.remaining input.new) (W.contents output.old) (W.contents output.new) in
        RunsOver (TellsLines Brand ServedArray settings.now taken.entry.terms) (codes "talk: cannot read" ++ 10 ∷ []) streams result }
{
    match read_input(alloc, input) {
        Ok(text) => answer(rt, alloc, settings, taken, text.as_slice(), output),
        Err(kind) => refuse_unread(output, kind),
    }
}

/// Serves the client whose bytes a text spells, or prints the text's first faulty line.
fn answer<R: Host, W: Write, A: Allocator + Copy>(
    rt: &R,
    alloc: A,
    settings: &Settings<A>,
    taken: Taken<'_>,
    text: &[u8],
    output: &mut W,
) -> u8
    requires served { MayBeServed settings.now }
    ensures { TellsLines Brand ServedArray settings.now taken.entry.terms text.now (W.contents output.old) (W.contents output.new)
        result }
{
    match read_hex_lines(alloc, text) {
        Ok(bytes) => open(rt, alloc, settings, taken, bytes.as_slice(), output),
        Err(fault) => refuse_text(alloc, fault, output),
    }
}

/// Serves the client over the images that the settings name.
fn open<R: Host, W: Write, A: Allocator + Copy>(
    rt: &R,
    alloc: A,
    settings: &Settings<A>,
    taken: Taken<'_>,
    bytes: &[u8],
    output: &mut W,
) -> u8
    requires served { MayBeServed settings.now }
    ensures { TellsClient Brand ServedArray settings.now taken.entry.terms bytes.now (W.contents output.old) (W.contents output.new)
        result }
{
    let opening = Opening {
        terms: taken.terms,
        syncs: true,
        watched: false,
    };
    match open_images(rt, settings, taken.path, opening) {
        Ok(OpenImages { images, places }) => match images_alone(rt.alloc(), images) {
            Ok(images) => {
                let places = places.as_slice();
                talk_over(rt, alloc, settings, taken, images, places, bytes, output)
            }
            Err(AllocError) => refuse_for_memory(output),
        },
        Err(NotOpened::Image) => refuse_mount(MountFault::ImageFault, output),
        Err(NotOpened::PagesLost) => refuse_mount(MountFault::Unclean, output),
        Err(NotOpened::NoMemory) => refuse_for_memory(output),
    }
}

/// Mounts the images, which are at these places of the settings' paths, and serves the client over them.
fn talk_over<R: Host, W: Write, A: Allocator + Copy>(
    rt: &R,
    alloc: A,
    settings: &Settings<A>,
    taken: Taken<'_>,
    images: Vec<FileImage>,
    places: &[usize],
    bytes: &[u8],
    output: &mut W,
) -> u8
    requires served { MayBeServed settings.now }
    requires opened { AreOpened settings.now.geometry (length settings.now.images.items) taken.terms true places.now images.items }
    ensures { TellsClient Brand ServedArray settings.now taken.entry.terms bytes.now (W.contents output.old) (W.contents output.new)
        result }
{
    a_conversation_is_right::<Brand, Kept<PageMap>, FileImage>();
    let mut images = images;
    match mount(rt, settings, taken.terms, images.as_mut_slice()) {
        Ok(MountedArray { array, dies }) => talk_mounted(
            rt,
            alloc,
            settings,
            taken.path,
            Parts {
                array: Kept { array },
                dies,
                images,
            },
            bytes,
            output,
        ),
        Err(refused) => {
            explain(rt, settings, places, taken.terms, &refused);
            refuse_mount(refused.fault, output)
        }
    }
}

/// Serves the client an array that was mounted over these images, closes it, and prints what came of it.
fn talk_mounted<R: Host, M: Map + Drop, I: Image + Drop, W: Write, A: Allocator + Copy>(
    rt: &R,
    alloc: A,
    settings: &Settings<A>,
    path: &str,
    parts: Parts<Kept<M>, I>,
    bytes: &[u8],
    output: &mut W,
) -> u8
    requires served { MayBeServed settings.now }
    requires whole { IsWhole M.view parts.array.array }
    ensures { TellsMounted I.view I.honest I.made Brand (KeptRecord M) (string_bytes settings.now.export) bytes.now
        (number_of parts.array.array) parts.dies.items (state_of M.view parts.array.array) parts.images.items
        (W.contents output.old) (W.contents output.new) result }
{
    match converse::<Brand, M, I, A>(rt.alloc(), alloc, Blank::new(257), parts, settings, bytes) {
        Ok(said) => {
            keep_lost(rt, path, &said);
            print_said(rt.alloc(), alloc, said, output)
        }
        Err(AllocError) => refuse_for_memory(output),
    }
}

/// Has the pages that were lost in their file, if there are any.
fn keep_lost<R: Host, A: Allocator>(rt: &R, path: &str, said: &Said<A>) {
    match (&said.lost, said.closed) {
        (Ok(lines), _) if !lines.is_empty() => keep_or_tell(rt, path, lines),
        (_, Err(CloseFault::Lost(page))) => keep_lost_at_end(rt, path, page),
        _ => {}
    }
}

/// Prints what was said, the faults that were kept, and how the array was closed.
fn print_said<W: Write, A: Allocator + Copy>(
    global: Global,
    alloc: A,
    said: Said<A>,
    output: &mut W,
) -> u8
    ensures { (faults : List Fault) → IfOk said.faults (λ kept. kept.items ≡ faults)
        → TellsSaid said.written.items said.end faults said.closed (W.contents output.old) (W.contents output.new) result }
{
    let closed = said.closed;
    match said_text(global, alloc, said) {
        Ok(text) => print(output, status_of(closed), text.as_bytes()),
        Err(AllocError) => refuse_for_memory(output),
    }
}

/// What is printed of a conversation. The error is out of memory.
fn said_text<A: Allocator + Copy>(
    global: Global,
    alloc: A,
    said: Said<A>,
) -> Result<String<A>, AllocError>
    ensures { (faults : List Fault) → IfOk said.faults (λ kept. kept.items ≡ faults)
        → IfOk result (λ text. string_bytes text ≡ text_of said.written.items said.end faults said.closed) }
{
    let Said {
        written,
        end,
        faults,
        lost: _,
        closed,
    } = said;
    let last = end_text(global, faults?, closed)?;
    let mut out = talk_text(alloc, written.as_slice(), end)?;
    out.push_str(&last)?;
    Ok(out)
}
