//! Where copies of a page go.
ghost use Rattle.std.specs.Prelude.{◌≡◌, ℕ, true, false, ◌-◌, ◌<◌, ◌≤◌, option_map};
ghost use Rattle.std.specs.List.{All};
ghost use Rattle.fa_machine.specs.Placement.{copies_asked as rule_asked, copy_place as rule_place, has_room as rule_room};
ghost use Rattle.fa_machine.specs.Placement.{is_thin as rule_thin, targets as rule_targets};
ghost use Rattle.fa_mirror.specs.Chosen.{AreApart, TakesWrites};
ghost use Rattle.fa_mirror.specs.Order.{first_dies as rule_first, numbers_of, takes_copy as rule_takes};

use crate::order::order_of;
use crate::placing::Placing;
use fa_map_calls::Map;
use fa_types::{Copies, Die, Page};

/// The dies that a write of the page goes to, in the page's order: the first live dies with room, as many as a page is to have
/// copies, or as there are live dies. Fewer where fewer have room.
pub fn targets<M: Map>(map: &M, copies: Copies, page: Page) -> Placing
    requires { page.0 < (M.view map.now).geometry.pages }
    ensures dies { numbers_of result ≡ rule_targets copies.number (M.view map.now) page.0 }
    ensures each { All (λ die. TakesWrites (M.view map.now) die.0) result }
    ensures apart { copies.number ≤ (M.view map.now).geometry.dies - (M.view map.now).geometry.spares → AreApart (numbers_of result) }
{
    let asked = copies_asked(map, copies) as usize;
    let order = order_of(map, copies, page);
    let mut placing = Placing::none();
    for look in 0..order.looks() {
        if placing.len() == asked {
            break;
        }
        if let Some(die) = order.die_at(look) {
            if has_room(map, die) {
                placing.push(die);
            }
        }
    }
    placing
}

/// The dies that a write of the page goes to where each has room: the first live ones in its order, as many as it asks for copies.
pub fn first_dies<M: Map>(map: &M, copies: Copies, page: Page) -> Placing
    ensures { numbers_of result ≡ rule_first copies.number (M.view map.now) page.0 }
{
    let asked = copies_asked(map, copies) as usize;
    let order = order_of(map, copies, page);
    let mut placing = Placing::none();
    for look in 0..order.looks() {
        if placing.len() == asked {
            break;
        }
        if let Some(die) = order.die_at(look) {
            if map.is_live(die) {
                placing.push(die);
            }
        }
    }
    placing
}

/// How many copies a write asks for: as many as a page is to have, or as there are live dies.
pub fn copies_asked<M: Map>(map: &M, copies: Copies) -> u32
    ensures { result ≡ rule_asked copies.number (M.view map.now) }
{
    copies.number.min(map.live_dies())
}

/// Whether the page has a current copy, fewer than it is to have, and fewer than there are live dies.
pub fn is_thin<M: Map>(map: &M, copies: Copies, page: Page) -> bool
    ensures { result ≡ rule_thin copies.number (M.view map.now) page.0 }
{
    if page.0 >= map.geometry().pages {
        return false;
    }
    let held = map.copies_of(page);
    0 < held && held < copies_asked(map, copies)
}

/// Where one more copy of the page goes: the first live die with room in the page's order that does not hold it.
pub fn copy_place<M: Map>(map: &M, copies: Copies, page: Page) -> Option<Die>
    ensures { option_map (λ die. die.0) result ≡ rule_place copies.number (M.view map.now) page.0 }
{
    let order = order_of(map, copies, page);
    for look in 0..order.looks() {
        if let Some(die) = order.die_at(look) {
            if takes_copy(map, page, die) {
                return Some(die);
            }
        }
    }
    None
}

/// Whether a live die has room.
pub fn has_any_room<M: Map>(map: &M) -> bool
    ensures none { result ≡ false → (die : ℕ) → rule_room (M.view map.now) die ≡ false }
    ensures some { result ≡ true → (die : ℕ) × (rule_room (M.view map.now) die ≡ true) }
{
    for die in 0..map.geometry().dies {
        if has_room(map, Die(die as u8)) {
            return true;
        }
    }
    false
}

/// Whether a die is live and has room.
fn has_room<M: Map>(map: &M, die: Die) -> bool
    ensures { result ≡ rule_room (M.view map.now) die.0 }
{
    map.is_live(die) && map.room(die) > 0
}

/// Whether a die is live and has room, and does not hold the page.
fn takes_copy<M: Map>(map: &M, page: Page, die: Die) -> bool
    ensures { result ≡ rule_takes (M.view map.now) page.0 die.0 }
{
    has_room(map, die) && (page.0 >= map.geometry().pages || map.copy_on(page, die).is_none())
}
