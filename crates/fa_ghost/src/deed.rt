//! What one call of a file did, as its image tells it, and what the file holds then.
ghost use Rattle.std.specs.Prelude.{◌≡◌};
ghost use Rattle.fa_ghost.specs.Contents.{after_read, after_write, after_failure, after_sync, after_deed};

use crate::history::History;
use std::marker::Model;

/// A call of a file that counts for what the file holds. Offsets and lengths are in bytes.
#[derive(Clone, Copy)]
enum Deed<'a> {
    /// A read gave these bytes from an offset.
    Read { offset: u64, bytes: &'a [u8] },
    /// These bytes were written at an offset.
    Wrote { offset: u64, bytes: &'a [u8] },
    /// A write of so many bytes at an offset was refused.
    Failed { offset: u64, len: usize },
    /// All that was written was put on its medium.
    Synced,
}

/// What a file holds, for a history that shows it. No value of it is made.
pub struct FileContents {}

impl Model for FileContents {
    ghost use Rattle.std.specs.Prelude.{[], true};
    ghost use Rattle.fa_ghost.specs.Contents.{Contents};

    ghost Value = { Contents };

    ghost view = { λ _. record { bytes = []; lefts = []; honest = true; unsynced = true } };
}

/// Tells a file's history of a read, which gave these bytes from an offset.
pub fn note_read(held: &mut History<FileContents>, offset: u64, bytes: &[u8])
    ensures { held.new.shown ≡ after_read offset bytes.now held.old.shown }
{
    note(held, Deed::Read { offset, bytes });
}

/// Tells a file's history of a write of these bytes at an offset.
pub fn note_written(held: &mut History<FileContents>, offset: u64, bytes: &[u8])
    ensures { held.new.shown ≡ after_write offset bytes.now held.old.shown }
{
    note(held, Deed::Wrote { offset, bytes });
}

/// Tells a file's history of a write that was refused: of `len` bytes at an offset.
pub fn note_failed(held: &mut History<FileContents>, offset: u64, len: usize)
    ensures { held.new.shown ≡ after_failure offset len held.old.shown }
{
    note(held, Deed::Failed { offset, len });
}

/// Tells a file's history of a sync.
pub fn note_synced(held: &mut History<FileContents>)
    ensures { held.new.shown ≡ after_sync held.old.shown }
{
    note(held, Deed::Synced);
}

/// Tells a file's history of a write of these bytes at an offset, and of the sync behind it.
pub fn note_kept(held: &mut History<FileContents>, offset: u64, bytes: &[u8])
    ensures { held.new.shown ≡ after_sync (after_write offset bytes.now held.old.shown) }
{
    note_written(held, offset, bytes);
    note_synced(held);
}

/// Tells a file's history of a deed.
fn note(held: &mut History<FileContents>, deed: Deed<'_>)
    ensures { held.new.shown ≡ after_deed deed.entry held.old.shown }
{
    held.note(&deed);
}
