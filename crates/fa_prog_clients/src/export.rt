//! The name of the export.
ghost use Rattle.std.specs.Prelude.{◌≤◌, length};

use fa_nego::MAX_NAME_BYTES;

/// A name that an export may have.
#[derive(Clone, Copy)]
pub(crate) struct Export<'a> {
    /// The name.
    pub(crate) name: &'a str,
    ghost short: { length name.now ≤ 4096 },
}

impl<'a> Export<'a> {
    /// The export of this name. None where the name is too long for the protocol.
    pub(crate) fn of(name: &'a str) -> Option<Export<'a>> {
        if name.len() <= MAX_NAME_BYTES {
            Some(Export { name })
        } else {
            None
        }
    }
}
