//! What is wrong with a text of settings.
use crate::Key;
use fa_types::GeometryFault;
use std::alloc::{AllocError, AllocFailed, Allocator};
use std::error::Error;
use std::fmt;

/// Why a text is not read. What it displays is its line for standard output.
#[derive(Debug, Drop)]
pub enum SettingsFault<A: Allocator> {
    /// Fault 1: the text is not UTF-8 or not TOML.
    NotToml,
    /// Fault 2: this key is missing.
    Missing(Key),
    /// Fault 3: this key has a value of another type, or `images` a member that is no string.
    WrongType(Key),
    /// Fault 4: there is no key of this name; of such names it is the first by its bytes.
    Unknown(String<A>),
    /// Fault 5: what this key has is outside its limits.
    OutsideLimits(Key),
    /// Fault 6: each number is within its limits, and they do not go together.
    Geometry(GeometryFault),
    /// Fault 7: memory was refused.
    NoMemory,
}

impl<A: Allocator> fmt::Display for SettingsFault<A> {
    ghost use Rattle.std.specs.Prelude.{Some};
    ghost use Rattle.fa_settings.specs.FaultLines.{fault_line};

    ghost output = { λ fault. Some (fault_line fault) };

    fn fmt<W: fmt::Write>(&self, f: &mut fmt::Formatter<W>) -> fmt::Result {
        match self {
            SettingsFault::NotToml => f.write_str("settings: 1"),
            SettingsFault::Missing(key) => write!(f, "settings: 2 {key}"),
            SettingsFault::WrongType(key) => write!(f, "settings: 3 {key}"),
            SettingsFault::Unknown(name) => write!(f, "settings: 4 {name}"),
            SettingsFault::OutsideLimits(key) => write!(f, "settings: 5 {key}"),
            SettingsFault::Geometry(fault) => {
                let number = fault.number();
                write!(f, "settings: 6 {number}")
            }
            SettingsFault::NoMemory => f.write_str("settings: 7"),
        }
    }
}

impl<A: Allocator + fmt::Debug> Error for SettingsFault<A> {}

impl<A: Allocator> From<AllocError> for SettingsFault<A> {
    ghost use Rattle.std.specs.Prelude.{◌≡◌};
    ghost use Rattle.fa_settings.specs.declared.fault.SettingsFault.TheVariants.{NoMemory};

    ghost from_gives = { λ _ e. e ≡ NoMemory };

    fn from(_error: AllocError) -> SettingsFault<A> {
        SettingsFault::NoMemory
    }
}

impl<A: Allocator, T: Drop> From<AllocFailed<T>> for SettingsFault<A> {
    ghost use Rattle.std.specs.Prelude.{◌≡◌};
    ghost use Rattle.fa_settings.specs.declared.fault.SettingsFault.TheVariants.{NoMemory};

    ghost from_gives = { λ _ e. e ≡ NoMemory };

    fn from(_error: AllocFailed<T>) -> SettingsFault<A> {
        SettingsFault::NoMemory
    }
}
