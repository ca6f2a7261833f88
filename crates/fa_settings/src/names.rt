//! The names in a document.
ghost use Rattle.std.specs.Prelude.{◌≡◌, not, find, MatchOption, option_copied, string_bytes};
ghost use Rattle.std.specs.BTreeMap.{keys};
ghost use Rattle.std.specs.List.Sorted.{IsStrictlySortedBy};
ghost use Rattle.std.specs.String.{string_cmp};
ghost use Rattle.toml.specs.View.{table_view};
ghost use Rattle.fa_settings.specs.Keys.{is_known as known};
ghost use Rattle.fa_settings.specs.Faults.{AllKnown, IsFirstUnknown};

use crate::key::is_known;
use toml::Table;

/// The first name, by its bytes, that is no key.
pub(crate) fn first_unknown(table: &Table) -> Option<&str>
    ensures { MatchOption result (AllKnown (table_view table.now)) (λ name. IsFirstUnknown (table_view table.now) name.now) }
{
    match found_unknown(table) {
        Some(name) => Some(name.as_str()),
        None => None,
    }
}

fn found_unknown(table: &Table) -> Option<&String>
    ensures found { option_copied result ≡ find (λ name. not (known (string_bytes name))) (keys table.now) }
    ensures ordered { IsStrictlySortedBy string_cmp (keys table.now) }
{
    table.keys().find(|name| !is_known(name.as_str()))
}
