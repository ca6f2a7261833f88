//! The address that the server listens at.
ghost use Rattle.std.specs.Prelude.{◌≡◌, ◌==◌, MatchOption, position};
ghost use Rattle.std.specs.List.{after_first};
ghost use Rattle.std.specs.declared.net.socket_addr.SocketAddrV4.{SocketAddrV4};
ghost use Rattle.fa_settings.specs.Meanings.{IsAddressText, has_leading_zero as leading_zero};

use std::net::SocketAddrV4;

/// The IPv4 address and port that a text spells, no number of it with leading zeros.
pub(crate) fn read_address(text: &str) -> Option<SocketAddrV4>
    ensures { MatchOption result ((address : SocketAddrV4) → ¬ (IsAddressText text.now address)) (IsAddressText text.now) }
{
    let Ok(address) = text.parse::<SocketAddrV4>() else {
        return None;
    };
    if has_leading_zero(text.as_bytes()) {
        None
    } else {
        Some(address)
    }
}

/// Whether the port has a zero in front of other digits.
fn has_leading_zero(text: &[u8]) -> bool
    ensures { result ≡ leading_zero text.now }
{
    matches!(behind_colon(text), [b'0', _, ..])
}

/// What stands behind the first colon.
fn behind_colon(text: &[u8]) -> &[u8]
    ensures { result.now ≡ after_first (λ c. c == 58) text.now }
{
    match first_colon(text) {
        Some(colon) => &text[colon + 1..],
        None => &[],
    }
}

fn first_colon(text: &[u8]) -> Option<usize>
    ensures { result ≡ position (λ c. c == 58) text.now }
{
    text.iter().position(|c| *c == b':')
}
