//! The file that plans are added to.
use crate::complaint::{complain_of_call, tell};
use crate::host::Host;
use crate::plan_tail::{End, end_of};
use std::alloc::Global;
use std::fs::{File, OpenFile, OpenOptions};
use std::io::{self, Eprint, Read, Seek, SeekFrom, Write};

/// How many bytes at the end of the file are looked at: an entry has no more.
const MAX_ENTRY_BYTES: u64 = 1 << 20;

/// A file of plans that ends with an entry, or has none.
#[derive(Drop)]
pub struct PlanFile {
    file: File,
    bytes: u64,
    /// That it cannot be written was told.
    is_told: bool,
}

/// Opens the file of plans of this path, to add entries to it. Where it is not there it is made. An entry that is torn at its end, as
/// behind a server that was killed, is taken off. None where that is refused, or the file is none of plans. What happens is told.
pub fn open_plans<R: Host>(rt: &R, path: &str) -> Option<PlanFile> {
    match open(rt, path) {
        Ok(Some(file)) => Some(file),
        Ok(None) => {
            tell(
                rt,
                format_args!("{path}: this is no file of plans: choose another one for --plans"),
            );
            None
        }
        Err(refused) => {
            complain_of_call(rt, path, &refused, "choose another file for --plans");
            None
        }
    }
}

/// The same. None where the file is none of plans.
fn open<R: Host>(rt: &R, path: &str) -> io::Result<Option<PlanFile>> {
    let mut file = OpenOptions::new()
        .create(true)
        .read(true)
        .append(true)
        .open(rt, path)?;
    let bytes = file.metadata()?.len();
    let from = bytes.saturating_sub(MAX_ENTRY_BYTES);
    let tail = tail_of(rt.alloc(), &mut file, from)?;
    match end_of(tail.as_slice(), from == 0) {
        End::Whole => Ok(Some(PlanFile::new(file, bytes))),
        End::Torn(begin) => {
            let bytes = from.saturating_add(begin as u64);
            file.set_len(bytes)?;
            tell(
                rt,
                format_args!("{path}: the last plan was torn, and is taken off"),
            );
            Ok(Some(PlanFile::new(file, bytes)))
        }
        End::Other => Ok(None),
    }
}

/// The bytes of a file from one on.
fn tail_of(global: Global, file: &mut File, from: u64) -> io::Result<Vec<u8>> {
    let mut tail = Vec::new(global);
    file.seek(SeekFrom::Start(from))?;
    file.read_to_end(&mut tail)?;
    Ok(tail)
}

impl PlanFile {
    /// An open file of so many bytes.
    fn new(file: File, bytes: u64) -> PlanFile {
        PlanFile {
            file,
            bytes,
            is_told: false,
        }
    }

    /// Adds whole entries, and answers whether that was done. Where it is refused none of their bytes stay, and the first time it is told.
    pub fn add<R: Eprint>(&mut self, rt: &R, entries: &[u8]) -> bool {
        match self.file.write_all(entries) {
            Ok(()) => {
                self.bytes = self.bytes.saturating_add(entries.len() as u64);
                true
            }
            Err(refused) => {
                let _ = self.file.set_len(self.bytes);
                if !self.is_told {
                    tell(
                        rt,
                        format_args!(
                            "the file of plans cannot be written: {refused}: make room on its disk"
                        ),
                    );
                }
                self.is_told = true;
                false
            }
        }
    }
}
