//! The keys of the settings.
ghost use Rattle.std.specs.Prelude.{◌≡◌};
ghost use Rattle.fa_settings.specs.Keys.{name_of, is_known as known};

use std::fmt;

/// A key of the settings, in the order in which they are judged.
#[derive(Clone, Copy, Debug)]
pub enum Key {
    /// `array`: which array it is, 32 hexadecimal digits.
    Array,
    /// `images`: the paths of the images, 1 to 64.
    Images,
    /// `dies`: how many dies there are, 2 to 64, spares among them.
    Dies,
    /// `spares`: how many of them are spare, 0 to 62.
    Spares,
    /// `blocks`: blocks of a die, 4 to 4096.
    Blocks,
    /// `slots`: slots of a block, 4 to 256.
    Slots,
    /// `page_bytes`: bytes of a page, 512, 1024, 2048 or 4096.
    PageBytes,
    /// `pages`: pages of the disk, 1 to 1,048,576.
    Pages,
    /// `window_rounds`: rounds of a collector's window, 1 to 64.
    WindowRounds,
    /// `listen`: where the server listens, an IPv4 address, a colon and a port.
    Listen,
    /// `export`: the export's name, 1 to 64 printable ASCII characters.
    Export,
    /// `sessions`: how many clients are served at once, 1 to 16.
    Sessions,
    /// `copies`: copies of a page, 2 or 3. It may be missing, and is then 2.
    Copies,
}

impl Key {
    /// How the key is written.
    pub fn name(self) -> &'static str
        ensures { result.now ≡ name_of self }
    {
        match self {
            Key::Array => "array",
            Key::Images => "images",
            Key::Dies => "dies",
            Key::Spares => "spares",
            Key::Blocks => "blocks",
            Key::Slots => "slots",
            Key::PageBytes => "page_bytes",
            Key::Pages => "pages",
            Key::WindowRounds => "window_rounds",
            Key::Listen => "listen",
            Key::Export => "export",
            Key::Sessions => "sessions",
            Key::Copies => "copies",
        }
    }
}

impl Key {
    /// What the key has to have, in words.
    pub fn wanted(self) -> &'static str {
        match self {
            Key::Array => "32 hexadecimal digits",
            Key::Images => "a list of 1 to 64 paths",
            Key::Dies => "a number of 2 to 64",
            Key::Spares => "a number of 0 to 62",
            Key::Blocks => "a number of 4 to 4096",
            Key::Slots => "a number of 4 to 256",
            Key::PageBytes => "512, 1024, 2048 or 4096",
            Key::Pages => "a number of 1 to 1048576",
            Key::WindowRounds => "a number of 1 to 64",
            Key::Listen => "an IPv4 address, a colon and a port",
            Key::Export => "1 to 64 printable ASCII characters",
            Key::Sessions => "a number of 1 to 16",
            Key::Copies => "2 or 3",
        }
    }
}

/// The keys, in the order in which they are judged.
const KEYS: [Key; 13] = [
    Key::Array,
    Key::Images,
    Key::Dies,
    Key::Spares,
    Key::Blocks,
    Key::Slots,
    Key::PageBytes,
    Key::Pages,
    Key::WindowRounds,
    Key::Listen,
    Key::Export,
    Key::Sessions,
    Key::Copies,
];

impl fmt::Display for Key {
    ghost use Rattle.std.specs.Prelude.{Some};

    ghost output = { λ key. Some (name_of key) };

    fn fmt<W: fmt::Write>(&self, f: &mut fmt::Formatter<W>) -> fmt::Result {
        f.write_str(self.name())
    }
}

/// Whether a key is written so.
pub(crate) fn is_known(name: &str) -> bool
    ensures { result ≡ known name.now }
{
    KEYS.iter().any(|key| key.name() == name)
}
