//! What was lost of an array that is served, and that it stands in its file.
use crate::watched::{PAGES_A_HOLD, Watched};
use fa_prog_clients::Networked;
use fa_prog_host::{LostPages, keep_in, tell_not_kept};
use std::alloc::AllocError;
use std::fs::File;
use std::sync::Mutex;
use std::time::Duration;
use std::{io, thread};

/// How long it is between two tries to write the file, in milliseconds.
const TRY_MILLISECONDS: u64 = 200;

/// What is known of the pages of an array that were lost. Threads share it.
#[derive(Drop)]
pub struct Losses<'a> {
    /// The path of the settings.
    settings: &'a str,
    looked: Mutex<Looked>,
}

/// How far the pages of an array were looked at.
#[derive(Drop)]
struct Looked {
    /// The epoch of the array in which that was done last, and what was found stands in the file. It rises as a die goes out.
    epoch: u64,
    /// The file, opened before any thread was started.
    file: File,
    /// It was told that the file cannot be written.
    is_told: bool,
}

impl<'a> Losses<'a> {
    /// What is known of an array of this epoch as nobody works for it yet, beside the settings of this path, with its open file of lost
    /// pages.
    pub fn new(settings: &'a str, epoch: u64, file: File) -> Losses<'a> {
        Losses {
            settings,
            looked: Mutex::new(Looked {
                epoch,
                file,
                is_told: false,
            }),
        }
    }

    /// Looks at the pages of the array, if a die went out since that was done last, and has those that were lost in the file. True where
    /// that was done, or was not wanted.
    pub fn keep<R: Networked, W: Watched>(&self, rt: &R, watched: &W) -> bool {
        let mut looked = self.looked.lock(rt);
        let epoch = watched.moment().epoch;
        if epoch == looked.epoch {
            return true;
        }
        match keep_lost(rt, &mut looked.file, watched) {
            Ok(()) => {
                looked.epoch = epoch;
                looked.is_told = false;
                true
            }
            Err(refused) => {
                if !looked.is_told {
                    tell_not_kept(rt, self.settings, &refused);
                }
                looked.is_told = true;
                false
            }
        }
    }

    /// The same, tried until it is done or the array is to end. It blocks its thread.
    pub fn keep_before_answer<R: Networked, W: Watched>(&self, rt: &R, watched: &W) {
        for _ in rt.forever() {
            if self.keep(rt, watched) || watched.is_stopping() {
                break;
            }
            thread::sleep(rt, Duration::from_millis(TRY_MILLISECONDS));
        }
    }
}

/// Has the pages that are lost in the file, if there are any.
fn keep_lost<R: Networked, W: Watched>(rt: &R, file: &mut File, watched: &W) -> io::Result<()> {
    let lines = lost_of(rt, watched)?;
    if lines.is_empty() {
        return Ok(());
    }
    keep_in(file, &lines)
}

/// The lines of the pages that are lost, which are looked at in many holds of the array's lock. The error is out of memory.
fn lost_of<R: Networked, W: Watched>(rt: &R, watched: &W) -> Result<String, AllocError> {
    let mut lost = LostPages::new(rt.alloc());
    for hold in 0..watched.geometry().pages / PAGES_A_HOLD + 1 {
        watched.note_lost(hold.saturating_mul(PAGES_A_HOLD), &mut lost)?;
    }
    lost.lines()
}
