//! What the data of an INFO or GO asks for: NBD protocol text, "Option types", NBD_OPT_INFO and NBD_OPT_GO.
ghost use Rattle.std.specs.Prelude.{◌≡◌, ◌↔◌, ℕ, List, IsTrue, IfSome, IfNone};
ghost use Rattle.fa_nego.specs.Negotiation.{Asked, AsksFor, IsKnown, is_among};
ghost use Rattle.fa_nego.specs.Heard.{AreKinds};

use byteorder::{BigEndian, ByteOrder};

/// What an INFO or GO asks for, as its bytes.
#[derive(Clone, Copy)]
pub struct Query<'a> {
    pub name: &'a [u8],
    /// The kinds of information, two bytes each.
    pub kinds: &'a [u8],
}

/// What this data asks for, or `None` where it asks for nothing.
pub fn read_query(given: &[u8]) -> Option<Query<'_>>
    ensures some { IfSome result (λ query. ((asked : Asked) × AsksFor given.now asked
        × (asked.name ≡ query.name.now) × AreKinds query.kinds.now asked.kinds)) }
    ensures none { IfNone result ((asked : Asked) → AsksFor given.now asked → ⊥) }
{
    if given.len() < 6 {
        return None;
    }
    let (len, rest) = given.split_at(4);
    let len = BigEndian::read_u32(len) as usize;
    if rest.len() - 2 < len {
        return None;
    }
    let (name, rest) = rest.split_at(len);
    let (count, kinds) = rest.split_at(2);
    if kinds.len() != 2 * BigEndian::read_u16(count) as usize {
        return None;
    }
    Some(Query { name, kinds })
}

/// Whether this kind of information is among those that are asked for, two bytes each.
pub fn asks_for(kinds: &[u8], kind: u16) -> bool
    ensures { (asked : List ℕ) → AreKinds kinds.now asked → result ≡ is_among kind asked }
{
    for i in 0..kinds.len() / 2 {
        if BigEndian::read_u16(&kinds[2 * i..]) == kind {
            return true;
        }
    }
    false
}

/// Whether the name is the export's, or left out.
pub fn is_known(export: &[u8], name: &[u8]) -> bool
    ensures { IsTrue result ↔ IsKnown export.now name.now }
{
    name.is_empty() || name == export
}
