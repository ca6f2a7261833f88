//! The order in which the dies of a page are looked at.
ghost use Rattle.std.specs.Prelude.{◌≡◌, ◌+◌, ◌<◌, ◌≤◌, ◌==◌, None, option_map, slice_index_or, take};
ghost use Rattle.std.specs.List.{list_any};
ghost use Rattle.fa_mirror.specs.Order.{first_of, homes_in_use, looks};

use crate::home::homes;
use fa_map_calls::Map;
use fa_types::{Copies, Die, Page};

/// A page's homes, as many as it is to have copies, and then the other dies falling.
#[derive(Clone, Copy)]
pub struct Order {
    pub homes: [Die; 3],
    pub copies: u32,
    pub dies: u32,
    ghost few: { copies ≤ 3 },
    ghost fits: { dies ≤ 64 },
}

/// The order of a page.
pub fn order_of<M: Map>(map: &M, copies: Copies, page: Page) -> Order
    ensures first { first_of result.copies result.homes ≡ homes_in_use copies.number (M.view map.now) page.0 }
    ensures copies { result.copies ≡ copies.number }
    ensures dies { result.dies ≡ (M.view map.now).geometry.dies }
{
    let geometry = map.geometry();
    Order {
        homes: homes(page, geometry.dies - geometry.spares),
        copies: copies.number,
        dies: geometry.dies,
    }
}

impl Order {
    /// How many dies are looked at, the homes twice.
    pub fn looks(self) -> u32
        ensures { result ≡ self.copies + self.dies }
    {
        self.copies + self.dies
    }

    /// The die of a look, from 0, and none where it is a home that was looked at before.
    pub fn die_at(self, look: u32) -> Option<Die>
        requires { look < self.copies + self.dies }
        ensures { option_map (λ die. die.0) result ≡ slice_index_or (looks self.copies self.homes self.dies) look None }
    {
        if look < self.copies {
            return Some(self.homes[look as usize]);
        }
        let die = Die((self.dies - 1 - (look - self.copies)) as u8);
        if self.is_home(die) { None } else { Some(die) }
    }

    /// Whether the die is one of the homes.
    fn is_home(self, die: Die) -> bool
        ensures { result ≡ list_any (λ home. home.0 == die.0) (take self.copies self.homes) }
    {
        self.homes[..self.copies as usize]
            .iter()
            .any(|home| home.0 == die.0)
    }
}
