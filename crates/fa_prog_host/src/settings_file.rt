//! The settings of a command, read from their file.
ghost use Rattle.std.specs.Prelude.{◌≡◌, ◌⊎◌, ℕ, List, IfOk, IfErr, IfSome};
ghost use Rattle.fa_settings.specs.Settings.{IsFault, IsSettingsText};
ghost use Rattle.fa_prog_host.specs.Printing.{TellsNoMemory};
ghost use Rattle.fa_prog_host.specs.SettingsRefused.{RefusesSettings, IsNoSettings, no_settings_of};

use crate::complaint::{complain, complain_of_call, tell};
use crate::host::Host;
use crate::printing::{FAULTY, print, refuse_for_memory};
use fa_settings::{Key, Settings, SettingsFault};
use std::alloc::{AllocError, Allocator};
use std::fs;
use std::io::{ErrorKind, Write};

/// Why there are no settings.
#[derive(Drop)]
pub enum NoSettings<A: Allocator> {
    /// Their file cannot be read.
    Unread,
    /// Their text is faulty.
    Faulty(SettingsFault<A>),
    /// Memory was refused.
    NoMemory,
}

/// The settings in the file of this path. What is wrong with them is told on standard error too.
pub fn settings_at<R: Host, A: Allocator + Copy>(
    rt: &R,
    alloc: A,
    path: &str,
) -> Result<Settings<A>, NoSettings<A>>
    ensures settings { IfOk result (λ settings. (text : List ℕ) × IsSettingsText text settings) }
    ensures refused { IfErr result IsNoSettings }
{
    match fs::read(rt, path) {
        Ok(text) => settings_in(rt, alloc, path, &text),
        Err(refused) => {
            complain_of_call(rt, path, &refused, "give the path of a settings file");
            Err(unread(refused.kind()))
        }
    }
}

/// Why there are no settings where their file was not read, by the kind of the error.
fn unread<A: Allocator>(kind: ErrorKind) -> NoSettings<A>
    ensures { result ≡ no_settings_of kind }
{
    match kind {
        ErrorKind::OutOfMemory => NoSettings::NoMemory,
        _ => NoSettings::Unread,
    }
}

/// The settings that the text in the file of this path says.
fn settings_in<R: Host, A: Allocator + Copy>(
    rt: &R,
    alloc: A,
    path: &str,
    text: &[u8],
) -> Result<Settings<A>, NoSettings<A>>
    ensures settings { IfOk result (IsSettingsText text.now) }
    ensures refused { IfErr result IsNoSettings }
{
    match Settings::read(alloc, rt.alloc(), text) {
        Ok(settings) => Ok(settings),
        Err(fault) => Err(faulty(rt, path, text, fault)),
    }
}

/// Why there are no settings where the text in the file of this path has a fault, which is told.
fn faulty<R: Host, A: Allocator>(
    rt: &R,
    path: &str,
    text: &[u8],
    fault: SettingsFault<A>,
) -> NoSettings<A>
    requires { IsFault text.now fault }
    ensures { IsNoSettings result }
{
    match fault {
        SettingsFault::NoMemory => NoSettings::NoMemory,
        fault => {
            explain(rt, path, text, &fault);
            NoSettings::Faulty(fault)
        }
    }
}

/// Tells on standard error which key is at fault, what was found there and what was wanted.
fn explain<R: Host, A: Allocator>(rt: &R, path: &str, text: &[u8], fault: &SettingsFault<A>) {
    match fault {
        SettingsFault::NotToml => complain(
            rt,
            path,
            &"the text is no TOML: write each line as KEY = VALUE",
        ),
        SettingsFault::Missing(key) => {
            let wanted = key.wanted();
            tell(rt, format_args!("{path}: {key} is missing: {wanted}"));
        }
        SettingsFault::WrongType(key) | SettingsFault::OutsideLimits(key) => {
            explain_value(rt, path, text, *key);
        }
        SettingsFault::Unknown(name) => tell(
            rt,
            format_args!("{path}: there is no key {name}: remove it"),
        ),
        SettingsFault::Geometry(fault) => complain(rt, path, fault),
        SettingsFault::NoMemory => complain(rt, path, &"no memory"),
    }
}

/// Tells on standard error what was found at a key and what was wanted.
fn explain_value<R: Host>(rt: &R, path: &str, text: &[u8], key: Key) {
    let wanted = key.wanted();
    match fa_settings::found_at(rt.alloc(), text, key) {
        Ok(Some(found)) => {
            tell(
                rt,
                format_args!("{path}: {key} is {found}: wanted is {wanted}"),
            );
        }
        Ok(None) | Err(_) => tell(rt, format_args!("{path}: wanted at {key} is {wanted}")),
    }
}

/// Prints why there are no settings.
pub fn refuse_settings<W: Write, A: Allocator + Copy>(
    alloc: A,
    refused: NoSettings<A>,
    output: &mut W,
) -> u8
    requires { IsNoSettings refused }
    ensures { RefusesSettings A (W.contents output.old) (W.contents output.new) result
        ⊎ TellsNoMemory (W.contents output.old) (W.contents output.new) result }
{
    match refused {
        NoSettings::Unread => print(output, FAULTY, b"settings: cannot read\n"),
        NoSettings::Faulty(fault) => match format!(in alloc; "{fault}\n") {
            Ok(line) => print(output, FAULTY, line.as_bytes()),
            Err(AllocError) => refuse_for_memory(output),
        },
        NoSettings::NoMemory => refuse_for_memory(output),
    }
}
