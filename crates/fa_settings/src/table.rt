//! What a document has at a key.
ghost use Rattle.std.specs.Prelude.{◌≡◌, ℕ, ◌^◌, ◌≤◌, true, false, pos, IfOk, IfErr, IsTrue, Some, is_some, option_map, MatchOption};
ghost use Rattle.toml.specs.Data.{Data, string, integer, as_str, as_integer, as_array, array, Items};
ghost use Rattle.toml.specs.View.{view, table_view, array_view};
ghost use Rattle.fa_settings.specs.Keys.{is_required};
ghost use Rattle.fa_settings.specs.Meanings.{meaning, has_type, Number};
ghost use Rattle.fa_settings.specs.Faults.{held, IsFine};
ghost use Rattle.fa_settings.specs.Settings.{number_at as number_of};
ghost use Rattle.fa_settings.specs.Faults.{IsFaultAt};

use crate::{Key, SettingsFault};
use std::alloc::Allocator;
use toml::value::Array;
use toml::{Table, Value};

/// The value at a key.
pub(crate) fn value_at(table: &Table, key: Key) -> Option<&Value>
    ensures { option_map (λ value. view value.now) result ≡ held (table_view table.now) key }
{
    table.get(key.name())
}

/// The string at a key that has to be there.
pub(crate) fn text_at<A: Allocator>(table: &Table, key: Key) -> Result<&str, SettingsFault<A>>
    requires required { is_required key ≡ true }
    requires typed { (value : Data) → has_type (meaning key) value ≡ is_some (as_str value) }
    ensures text { IfOk result (λ text. held (table_view table.now) key ≡ Some (string text.now)) }
    ensures fault { IfErr result (IsFaultAt (table_view table.now) key) }
{
    match value_at(table, key) {
        Some(value) => match value.as_str() {
            Some(text) => Ok(text),
            None => Err(SettingsFault::WrongType(key)),
        },
        None => Err(SettingsFault::Missing(key)),
    }
}

/// The integer at a key that has to be there.
pub(crate) fn integer_at<A: Allocator>(table: &Table, key: Key) -> Result<i64, SettingsFault<A>>
    requires required { is_required key ≡ true }
    requires typed { (value : Data) → has_type (meaning key) value ≡ is_some (as_integer value) }
    ensures integer { IfOk result (λ n. held (table_view table.now) key ≡ Some (integer n)) }
    ensures fault { IfErr result (IsFaultAt (table_view table.now) key) }
{
    match value_at(table, key) {
        Some(value) => match value.as_integer() {
            Some(integer) => Ok(integer),
            None => Err(SettingsFault::WrongType(key)),
        },
        None => Err(SettingsFault::Missing(key)),
    }
}

/// The number at a key that has to be there, from `least` to `most`.
pub(crate) fn number_at<A: Allocator>(
    table: &Table,
    key: Key,
    least: u32,
    most: u32,
) -> Result<u32, SettingsFault<A>>
    requires required { is_required key ≡ true }
    requires limits { meaning key ≡ Number least most }
    ensures fine { IfOk result (λ _. IsFine (table_view table.now) key) }
    ensures number { IfOk result (λ n. n ≡ number_of (table_view table.now) key) }
    ensures fault { IfErr result (IsFaultAt (table_view table.now) key) }
{
    let integer = integer_at(table, key)?;
    match number_within(integer, least, most) {
        Some(number) => Ok(number),
        None => Err(SettingsFault::OutsideLimits(key)),
    }
}

/// The number that an integer is, from `least` to `most`.
pub(crate) fn number_within(integer: i64, least: u32, most: u32) -> Option<u32>
    ensures { MatchOption result ((n : ℕ) → integer ≡ pos n → least ≤ n → n ≤ most → ⊥)
        (λ n. (integer ≡ pos n) × (least ≤ n) × (n ≤ most)) }
{
    match u32::try_from(integer) {
        Ok(number) if least <= number && number <= most => Some(number),
        _ => None,
    }
}
