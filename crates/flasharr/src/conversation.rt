//! A conversation with one client over an array that is mounted, up to the closing of the array.
ghost use Rattle.std.specs.Prelude.{◌≡◌, ◌≤◌, ℕ, List, IfOk, length, string_bytes};
ghost use Rattle.fa_core.specs.Array.{IsWhole, number_of, state_of};
ghost use Rattle.fa_prog_array.specs.declared.kept.Kept.{Kept as KeptRecord};
ghost use Rattle.fa_machine.specs.State.{Core};
ghost use Rattle.fa_mount_headers.specs.declared.judging.Standing.{Standing};
ghost use Rattle.flasharr.specs.Conversation.{BeginsOver, HasSaid};
ghost use Rattle.flasharr.specs.TalkArray.{MayBeServed};
ghost use Rattle.fa_solo.specs.Stores.{seen_of};

use fa_faults::Fault;
use fa_image::Image;
use fa_map_calls::Map;
use fa_mount::{CloseFault, MountedArray};
use fa_prog_array::{Kept, close, lost_lines};
use fa_session::{SessionEnd, serve_stream};
use fa_settings::Settings;
use fa_shared::discard;
use fa_solo::{Parts, Solo};
use std::alloc::{AllocError, Allocator, Global};
use std::sync::ledger::{Blank, Ledger};

/// What came of a conversation.
#[derive(Drop)]
pub(crate) struct Said<A: Allocator> {
    /// What the server said.
    pub(crate) written: Vec<u8, A>,
    /// How the connection ended.
    pub(crate) end: SessionEnd,
    /// The last faults that took dies out.
    pub(crate) faults: Result<Vec<Fault>, AllocError>,
    /// The lines of the pages that were lost before the array was closed.
    pub(crate) lost: Result<String, AllocError>,
    /// How the array was closed.
    pub(crate) closed: Result<u64, CloseFault>,
}

/// Serves a client, who says these bytes, the store that the array is to one thread, and closes the array. The error is out of memory,
/// before anything was done.
pub(crate) fn converse<L: Ledger, M: Map + Drop, I: Image + Drop, A: Allocator + Copy>(
    global: Global,
    alloc: A,
    blank: Blank,
    parts: Parts<Kept<M>, I>,
    settings: &Settings<A>,
    bytes: &[u8],
) -> Result<Said<A>, AllocError>
    requires name { blank.name ≡ L.name }
    requires parts { (blank.parts ≡ L.parts) × (blank.parts ≡ 257) }
    requires whole { IsWhole M.view parts.array.array }
    requires settings { MayBeServed settings.now }
    ensures { IfOk result (HasSaid I.view I.honest I.made L (KeptRecord M) (string_bytes settings.now.export) bytes.now
        (number_of parts.array.array) parts.dies.items (state_of M.view parts.array.array) parts.images.items) }
{
    let rounds = u64::from(settings.window_rounds);
    match Solo::<L, Kept<M>, I>::new(global, blank, parts, rounds) {
        Ok(store) => Ok(served(global, alloc, store, settings, bytes)),
        Err(parts) => {
            let Parts { array, .. } = parts;
            discard(array);
            Err(AllocError)
        }
    }
}

/// The same over a store.
fn served<L: Ledger, M: Map + Drop, I: Image + Drop, A: Allocator + Copy>(
    global: Global,
    alloc: A,
    store: Solo<L, Kept<M>, I>,
    settings: &Settings<A>,
    bytes: &[u8],
) -> Said<A>
    requires { length (string_bytes settings.now.export) ≤ 4096 }
    ensures { (array : List ℕ) (dies : List Standing) (core : Core) (images : List I) → BeginsOver array dies core images (seen_of store)
        → HasSaid I.view I.honest I.made L (KeptRecord M) (string_bytes settings.now.export) bytes.now array dies core images
        result }
{
    let mut store = store;
    let mut reader = bytes;
    let mut written = Vec::new(alloc);
    let export = settings.export.as_str();
    let end = serve_stream(alloc, &mut reader, &mut written, &mut store, export);
    let faults = store.faults(global);
    let Parts {
        array: Kept { array },
        dies,
        mut images,
    } = store.into_parts();
    let mounted = MountedArray { array, dies };
    let lost = lost_lines(global, &mounted.array);
    let closed = close(&mounted, images.as_mut_slice());
    let MountedArray { array, .. } = mounted;
    discard(Kept { array });
    Said {
        written,
        end,
        faults,
        lost,
        closed,
    }
}
