//! What the keys mean, and whether it is within their limits.
ghost use Rattle.std.specs.Prelude.{◌≡◌, ℕ, ◌≤◌, ◌↔◌, true, false, pos, map, string_bytes, length, not, nat_le, ◌&&◌};
ghost use Rattle.std.specs.Prelude.{IfOk, IfErr, IsTrue, is_some, MatchOption, Ok, Some};
ghost use Rattle.std.specs.List.{list_all, AllPass, filter_map};
ghost use Rattle.hex.specs.Hex.{decode_of};
ghost use Rattle.toml.specs.Data.{as_str};
ghost use Rattle.toml.specs.View.{view, table_view};
ghost use Rattle.fa_types.specs.Geometry.{is_page_size};
ghost use Rattle.fa_settings.specs.Meanings.{IsIdentity, IsExportName, IsAddressText};
ghost use Rattle.fa_settings.specs.Faults.{held, IsFine, IsFaultAt};
ghost use Rattle.fa_settings.specs.Settings.{number_at as number_of, text_at as text_of, texts_in, copies_at as copies_of};

use crate::address::read_address;
use crate::table::{integer_at, number_within, text_at, value_at};
use crate::{Key, SettingsFault};
use hex::FromHex;
use std::alloc::{AllocError, Allocator};
use std::net::SocketAddrV4;
use toml::{Table, Value};

/// The most images that settings may name.
const MAX_IMAGES: usize = 64;

/// The most characters of an export's name.
const MAX_EXPORT: usize = 64;

/// Which array it is.
pub(crate) fn identity_at<A: Allocator>(table: &Table) -> Result<[u8; 16], SettingsFault<A>>
    ensures fine { IfOk result (λ _. IsFine (table_view table.now) Key.Array) }
    ensures identity { IfOk result (λ array. decode_of (text_of (table_view table.now) Key.Array) ≡ Ok array) }
    ensures fault { IfErr result (IsFaultAt (table_view table.now) Key.Array) }
{
    let text = text_at(table, Key::Array)?;
    match read_identity(text) {
        Some(array) => Ok(array),
        None => Err(SettingsFault::OutsideLimits(Key::Array)),
    }
}

/// The 16 bytes that 32 hexadecimal digits spell.
fn read_identity(text: &str) -> Option<[u8; 16]>
    ensures { MatchOption result (¬ (IsIdentity text.now)) (λ array. IsIdentity text.now × (decode_of text.now ≡ Ok array)) }
{
    match <[u8; 16] as FromHex>::from_hex(text) {
        Ok(array) => Some(array),
        Err(_) => None,
    }
}

/// The paths of the images.
pub(crate) fn images_at<A: Allocator + Copy>(
    alloc: A,
    table: &Table,
) -> Result<Vec<String<A>, A>, SettingsFault<A>>
    ensures fine { IfOk result (λ _. IsFine (table_view table.now) Key.Images) }
    ensures images { IfOk result (λ images. texts_in (held (table_view table.now) Key.Images) ≡ Some (map string_bytes images.items)) }
    ensures fault { IfErr result (IsFaultAt (table_view table.now) Key.Images) }
{
    let Some(value) = value_at(table, Key::Images) else {
        return Err(SettingsFault::Missing(Key::Images));
    };
    let Some(values) = value.as_array() else {
        return Err(SettingsFault::WrongType(Key::Images));
    };
    if !are_texts(values) {
        return Err(SettingsFault::WrongType(Key::Images));
    }
    if !are_so_many(values) {
        return Err(SettingsFault::OutsideLimits(Key::Images));
    }
    Ok(copied_texts(alloc, values)?)
}

/// Whether there is an image, and not too many.
fn are_so_many(values: &[Value]) -> bool
    ensures { IsTrue result ↔ ((1 ≤ length values.now) × (length values.now ≤ 64)) }
{
    !values.is_empty() && values.len() <= MAX_IMAGES
}

/// Whether each value is a string.
fn are_texts(values: &[Value]) -> bool
    ensures { result ≡ list_all (λ value. is_some (as_str (view value))) values.now }
{
    values.iter().all(|value| value.is_str())
}

/// Copies of the strings among the values.
fn copied_texts<A: Allocator + Copy>(
    alloc: A,
    values: &[Value],
) -> Result<Vec<String<A>, A>, AllocError>
    ensures { IfOk result (λ texts. map string_bytes texts.items ≡ filter_map (λ value. as_str (view value)) values.now) }
{
    let mut texts = Vec::new(alloc);
    for value in values {
        if let Some(text) = value.as_str() {
            texts.push(String::from_str(alloc, text)?)?;
        }
    }
    Ok(texts)
}

/// How many bytes a page has.
pub(crate) fn page_bytes_at<A: Allocator>(table: &Table) -> Result<u32, SettingsFault<A>>
    ensures fine { IfOk result (λ _. IsFine (table_view table.now) Key.PageBytes) }
    ensures number { IfOk result (λ n. n ≡ number_of (table_view table.now) Key.PageBytes) }
    ensures fault { IfErr result (IsFaultAt (table_view table.now) Key.PageBytes) }
{
    let integer = integer_at(table, Key::PageBytes)?;
    match page_size(integer) {
        Some(bytes) => Ok(bytes),
        None => Err(SettingsFault::OutsideLimits(Key::PageBytes)),
    }
}

/// The size of a page that an integer is.
fn page_size(integer: i64) -> Option<u32>
    ensures { MatchOption result ((n : ℕ) → integer ≡ pos n → is_page_size n ≡ true → ⊥)
        (λ n. (integer ≡ pos n) × IsTrue (is_page_size n)) }
{
    match integer {
        512 => Some(512),
        1024 => Some(1024),
        2048 => Some(2048),
        4096 => Some(4096),
        _ => None,
    }
}

/// Where the server listens.
pub(crate) fn listen_at<A: Allocator>(table: &Table) -> Result<SocketAddrV4, SettingsFault<A>>
    ensures fine { IfOk result (λ _. IsFine (table_view table.now) Key.Listen) }
    ensures address { IfOk result (IsAddressText (text_of (table_view table.now) Key.Listen)) }
    ensures fault { IfErr result (IsFaultAt (table_view table.now) Key.Listen) }
{
    let text = text_at(table, Key::Listen)?;
    match read_address(text) {
        Some(address) => Ok(address),
        None => Err(SettingsFault::OutsideLimits(Key::Listen)),
    }
}

/// The name of the export.
pub(crate) fn export_at<A: Allocator>(
    alloc: A,
    table: &Table,
) -> Result<String<A>, SettingsFault<A>>
    ensures fine { IfOk result (λ _. IsFine (table_view table.now) Key.Export) }
    ensures name { IfOk result (λ name. string_bytes name ≡ text_of (table_view table.now) Key.Export) }
    ensures fault { IfErr result (IsFaultAt (table_view table.now) Key.Export) }
{
    let text = text_at(table, Key::Export)?;
    if !is_export_name(text.as_bytes()) {
        return Err(SettingsFault::OutsideLimits(Key::Export));
    }
    Ok(String::from_str(alloc, text)?)
}

/// Whether a text may name the export.
fn is_export_name(text: &[u8]) -> bool
    ensures { IsTrue result ↔ IsExportName text.now }
{
    1 <= text.len() && text.len() <= MAX_EXPORT && are_printable(text)
}

/// Whether each character is printable ASCII.
fn are_printable(text: &[u8]) -> bool
    ensures { IsTrue result ↔ AllPass (λ c. nat_le 32 c && nat_le c 126) text.now }
{
    text.iter().all(|c| 32 <= *c && *c <= 126)
}

/// How many copies each page has: 2, unless the key says it.
pub(crate) fn copies_at<A: Allocator>(table: &Table) -> Result<u32, SettingsFault<A>>
    ensures fine { IfOk result (λ _. IsFine (table_view table.now) Key.Copies) }
    ensures number { IfOk result (λ n. n ≡ copies_of (table_view table.now)) }
    ensures fault { IfErr result (IsFaultAt (table_view table.now) Key.Copies) }
{
    let Some(value) = value_at(table, Key::Copies) else {
        return Ok(2);
    };
    let Some(integer) = value.as_integer() else {
        return Err(SettingsFault::WrongType(Key::Copies));
    };
    match number_within(integer, 2, 3) {
        Some(number) => Ok(number),
        None => Err(SettingsFault::OutsideLimits(Key::Copies)),
    }
}
