//! The file that tells which pages of an array were lost. It lies beside the settings, with `.lost` behind their path. A file with nothing
//! in it tells of no page.
ghost use Rattle.std.specs.Prelude.{◌≡◌, IfErr};
ghost use Rattle.fa_prog_host.specs.Opened.{IsNotOpened};

use crate::complaint::{complain, complain_of_call};
use crate::host::Host;
use crate::images::NotOpened;
use fa_settings::Terms;
use std::alloc::{AllocError, Global};
use std::fs;
use std::io::ErrorKind;

/// The path of the file of lost pages, beside the settings of this path.
pub fn lost_path(global: Global, path: &str) -> Result<String, AllocError> {
    format!(in global; "{path}.lost")
}

/// Whether the array may be one of which no page is known to be lost, where the images of all its dies have to be there. What speaks
/// against it is told on standard error.
pub(crate) fn none_lost<R: Host>(rt: &R, settings: &str, terms: Terms) -> Result<(), NotOpened>
    ensures { IfErr result (IsNotOpened terms) }
{
    if !terms.is_whole() {
        return Ok(());
    }
    let path = lost_path(rt.alloc(), settings)?;
    match fs::metadata(rt, path.as_str()) {
        Ok(found) if found.len() == 0 => Ok(()),
        Ok(_) => {
            let words =
                "pages were lost, which this file names: bring back the images that have them, or write or trim them after serve --unclean, \
and remove it";
            complain(rt, &path, &words);
            Err(NotOpened::PagesLost)
        }
        Err(refused) if refused.kind() == ErrorKind::NotFound => Ok(()),
        Err(refused) => {
            complain_of_call(rt, &path, &refused, "make its folder readable");
            Err(not_known(refused.kind()))
        }
    }
}

/// Why images are not opened where nobody can say whether pages were lost, by the kind of the error.
fn not_known(kind: ErrorKind) -> NotOpened {
    match kind {
        ErrorKind::OutOfMemory => NotOpened::NoMemory,
        _ => NotOpened::PagesLost,
    }
}
