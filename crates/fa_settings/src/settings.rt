//! The settings, and how they are read.
use crate::SettingsFault;
use crate::names::first_unknown;
use crate::reader::{read_table, settings_of};
use fa_types::{Copies, Geometry};
use std::alloc::{Allocator, Global};
use std::net::SocketAddrV4;

/// The settings of an array and its server. Only [`Settings::read`] judges a text.
#[derive(Drop)]
pub struct Settings<A: Allocator> {
    /// Which array it is.
    pub array: [u8; 16],
    /// The paths of the images, 1 to 64.
    pub images: Vec<String<A>, A>,
    /// The shape of the array.
    pub geometry: Geometry,
    /// How many copies each page has.
    pub copies: Copies,
    /// Rounds of a collector's window, 1 to 64.
    pub window_rounds: u32,
    /// Where the server listens. With port 0 the system chooses one.
    pub listen: SocketAddrV4,
    /// The export's name, 1 to 64 printable ASCII characters.
    pub export: String<A>,
    /// How many clients are served at once, 1 to 16.
    pub sessions: u32,
}

impl<A: Allocator + Copy> Settings<A> {
    ghost use Rattle.std.specs.Prelude.{IfOk, IfErr};
    ghost use Rattle.fa_settings.specs.Settings.{IsSettingsText, IsFault};

    /// The settings that a text says. An `Err` is the first fault: the text is no TOML; else the
    /// unknown key that is first by its bytes; else the first key, in the order of [`Key`], that is
    /// missing, has a value of another type or one outside its limits; else the first limit of
    /// [`Geometry::new`] and [`Copies::new`] that the numbers break together. It may be want of
    /// memory in place of any.
    ///
    /// The settings are made in the allocator. What TOML takes while it reads comes from std's own.
    pub fn read(alloc: A, global: Global, text: &[u8]) -> Result<Settings<A>, SettingsFault<A>>
        ensures settings { IfOk result (IsSettingsText text.now) }
        ensures fault { IfErr result (IsFault text.now) }
    {
        let table = read_table(global, text)?;
        if let Some(name) = first_unknown(&table) {
            return Err(SettingsFault::Unknown(String::from_str(alloc, name)?));
        }
        settings_of(alloc, &table)
    }
}
