//! The end of a server: the array is closed, and it is told how.
ghost use Rattle.fa_core.specs.Array.{IsWhole};
ghost use Rattle.fa_prog_array.specs.Ending.{TellsEnd};

use crate::closing::{close, end_text, status_of};
use fa_faults::Fault;
use fa_image::Image;
use fa_map_calls::Map;
use fa_mount::{CloseFault, MountedArray};
use fa_prog_host::printing::{print, refuse_for_memory};
use fa_prog_host::{Host, keep_lost_at_end, remove_if_empty};
use fa_prog_listen::Ended;
use fa_shared::discard;
use std::alloc::{AllocError, Global};
use std::io::Write;

/// Closes an array that was served, notes the page that closing found to be lost, if there is one, and tells how it was closed.
pub fn end_served<R: Host, M: Map + Drop, I: Image + Drop, W: Write>(
    rt: &R,
    path: &str,
    mounted: MountedArray<M>,
    ended: Result<Ended<I>, AllocError>,
    faults: Result<Vec<Fault>, AllocError>,
    output: &mut W,
) -> u8
    requires { IsWhole M.view mounted.array }
    ensures { TellsEnd (W.contents output.old) (W.contents output.new) result }
{
    let status = end_lent(rt, path, &mounted, ended, faults, output);
    let MountedArray { array, .. } = mounted;
    discard(array);
    status
}

/// The same of an array that is lent.
fn end_lent<R: Host, M: Map + Drop, I: Image + Drop, W: Write>(
    rt: &R,
    path: &str,
    mounted: &MountedArray<M>,
    ended: Result<Ended<I>, AllocError>,
    faults: Result<Vec<Fault>, AllocError>,
    output: &mut W,
) -> u8
    requires { IsWhole M.view mounted.now.array }
    ensures { TellsEnd (W.contents output.old) (W.contents output.new) result }
{
    let Ok(Ended { images, is_served }) = ended else {
        return refuse_for_memory(output);
    };
    let mut images = images;
    let closed = close(mounted, images.as_mut_slice());
    note_lost(rt, path, closed);
    remove_if_empty(rt, path);
    match faults {
        Ok(faults) if is_served => print_end(rt.alloc(), faults, closed, output),
        _ => refuse_for_memory(output),
    }
}

/// Has a page in the file of lost pages that closing found to be lost.
fn note_lost<R: Host>(rt: &R, path: &str, closed: Result<u64, CloseFault>) {
    if let Err(CloseFault::Lost(page)) = closed {
        keep_lost_at_end(rt, path, page);
    }
}

/// Prints the faults that were kept and how the array was closed, and answers the status.
fn print_end<W: Write>(
    global: Global,
    faults: Vec<Fault>,
    closed: Result<u64, CloseFault>,
    output: &mut W,
) -> u8
    ensures { TellsEnd (W.contents output.old) (W.contents output.new) result }
{
    match end_text(global, faults, closed) {
        Ok(text) => print(output, status_of(closed), text.as_bytes()),
        Err(AllocError) => refuse_for_memory(output),
    }
}
