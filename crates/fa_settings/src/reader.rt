//! From a text to settings, fault by fault.
ghost use Rattle.std.specs.Prelude.{◌≡◌, IfOk, IfErr, option_map};
ghost use Rattle.toml.specs.Data.{Members};
ghost use Rattle.toml.specs.View.{table_view, view};
ghost use Rattle.fa_settings.specs.Faults.{AllKnown, held};
ghost use Rattle.fa_settings.specs.Settings.{IsDocument, IsFault, IsFaultOf, AreSettings};

use crate::shape::{judge, shape_at};
use crate::table::{number_at, value_at};
use crate::values::{copies_at, export_at, identity_at, images_at, listen_at};
use crate::{Key, Settings, SettingsFault};
use std::alloc::{Allocator, Global};
use toml::{Table, Value};

/// The table that a text is.
pub(crate) fn read_table<A: Allocator>(
    global: Global,
    text: &[u8],
) -> Result<Table, SettingsFault<A>>
    ensures table { IfOk result (λ table. IsDocument text.now (table_view table)) }
    ensures fault { IfErr result (IsFault text.now) }
{
    match toml::table_from_slice(global, text) {
        Ok(table) => Ok(table),
        Err(error) if error.is_memory() => Err(SettingsFault::NoMemory),
        Err(_) => Err(SettingsFault::NotToml),
    }
}

/// The settings that a table says which has no unknown key.
pub(crate) fn settings_of<A: Allocator + Copy>(
    alloc: A,
    table: &Table,
) -> Result<Settings<A>, SettingsFault<A>>
    requires { AllKnown (table_view table.now) }
    ensures settings { IfOk result (AreSettings (table_view table.now)) }
    ensures fault { IfErr result (IsFaultOf (table_view table.now)) }
{
    let array = identity_at(table)?;
    let images = images_at(alloc, table)?;
    let shape = shape_at(table)?;
    let window_rounds = number_at(table, Key::WindowRounds, 1, 64)?;
    let listen = listen_at(table)?;
    let export = export_at(alloc, table)?;
    let sessions = number_at(table, Key::Sessions, 1, 16)?;
    let number = copies_at(table)?;
    let (geometry, copies) = match judge(shape, number) {
        Ok(found) => found,
        Err(fault) => return Err(SettingsFault::Geometry(fault)),
    };
    Ok(Settings {
        array,
        images,
        geometry,
        copies,
        window_rounds,
        listen,
        export,
        sessions,
    })
}

/// The value that a text has at a key, where it has one. The error is out of memory, or that the text is no TOML.
pub fn found_at(
    global: Global,
    text: &[u8],
    key: Key,
) -> Result<Option<Value>, SettingsFault<Global>>
    ensures { IfOk result (λ found. (document : Members) × IsDocument text.now document × (option_map view found ≡ held document key)) }
{
    let table = read_table(global, text)?;
    match value_at(&table, key) {
        Some(value) => Ok(Some(value.clone()?)),
        None => Ok(None),
    }
}
