//! The file of lost pages, which lies beside the settings. A file with nothing in it tells of no page.
use crate::complaint::tell;
use crate::host::Host;
use crate::lost::lost_path;
use crate::lost_pages::push_line;
use fa_types::Page;
use std::alloc::{AllocError, Global};
use std::fs::{self, File, OpenFile, OpenOptions};
use std::io::{self, Eprint, Write};
use std::path::Path;

/// Opens the file of lost pages beside the settings of this path, to add lines to it, and has its name on its disk. Where it is not there
/// it is made.
pub fn open_lost<R: Host>(rt: &R, settings: &str) -> io::Result<File> {
    let path = lost_path(rt.alloc(), settings)?;
    let file = OpenOptions::new()
        .create(true)
        .append(true)
        .open(rt, path.as_str())?;
    sync_folder(rt, Path::new(path.as_str()))?;
    Ok(file)
}

/// Has the names of a file's folder on their disk.
fn sync_folder<R: Host>(rt: &R, path: Path<'_>) -> io::Result<()> {
    let folder = match path.parent() {
        Some(folder) if !folder.as_str().is_empty() => folder.as_str(),
        _ => ".",
    };
    File::open(rt, folder)?.sync_all()
}

/// Adds lines to the open file of lost pages, and has them on their disk.
pub fn keep_in(file: &mut File, lines: &str) -> io::Result<()> {
    file.write_all(lines.as_bytes())?;
    file.sync_all()
}

/// Adds lines to the file of lost pages beside the settings of this path. Where it cannot be written that is told.
pub fn keep_or_tell<R: Host>(rt: &R, settings: &str, lines: &str) {
    let kept = match open_lost(rt, settings) {
        Ok(mut file) => keep_in(&mut file, lines),
        Err(refused) => Err(refused),
    };
    if let Err(refused) = kept {
        tell_not_kept(rt, settings, &refused);
    }
}

/// Adds a page that was found to be lost as the array was closed. Where the file cannot be written that is told.
pub fn keep_lost_at_end<R: Host>(rt: &R, settings: &str, page: Page) {
    match line_of(rt.alloc(), page) {
        Ok(line) => keep_or_tell(rt, settings, &line),
        Err(refused) => tell_not_kept(rt, settings, &refused.into()),
    }
}

/// Removes the file of lost pages beside the settings of this path, if there is nothing in it.
pub fn remove_if_empty<R: Host>(rt: &R, settings: &str) {
    let Ok(path) = lost_path(rt.alloc(), settings) else {
        return;
    };
    if let Ok(found) = fs::metadata(rt, path.as_str()) {
        if found.len() == 0 {
            let _ = fs::remove_file(rt, path.as_str());
        }
    }
}

/// Tells that the file of lost pages cannot be written.
pub fn tell_not_kept<R: Eprint>(rt: &R, settings: &str, refused: &io::Error) {
    tell(
        rt,
        format_args!(
            "{settings}.lost: this file cannot be written: {refused}: make room on its disk, and its folder writable"
        ),
    );
}

/// The line of one page.
fn line_of(global: Global, page: Page) -> Result<String, AllocError> {
    let mut line = String::new(global);
    push_line(&mut line, page.0, page.0)?;
    Ok(line)
}
