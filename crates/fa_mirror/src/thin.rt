//! Thin pages that have a place to go.
ghost use Rattle.std.specs.Prelude.{◌≡◌, ◌≤◌, ◌==◌, ◌&&◌, length, nat_lt, option_map};
ghost use Rattle.fa_machine.specs.Copies.{holders};
ghost use Rattle.fa_machine.specs.Looks.{next_thin as rule_next};
ghost use Rattle.fa_machine.specs.Placement.{is_thin};
ghost use Rattle.fa_mirror.specs.Firsts.{IsFirst, lower_of};

use crate::placement::{copies_asked, copy_place, has_any_room};
use fa_map_calls::Map;
use fa_types::{Copies, Die, Page};

/// The lowest thin page that has a place to go, and that place. Where no live die has room it takes a look at each die, and else at
/// thin pages alone, at each that has no place and at the first that has one.
pub fn next_thin<M: Map>(map: &M, copies: Copies) -> Option<(Page, Die)>
    ensures { option_map (λ found. (found.0.0, found.1.0)) result ≡ rule_next copies.number (M.view map.now) }
{
    if has_any_room(map) {
        next_placed(map, copies)
    } else {
        None
    }
}

/// The same by a look at each thin page before the one that has a place to go.
fn next_placed<M: Map>(map: &M, copies: Copies) -> Option<(Page, Die)>
    ensures { option_map (λ found. (found.0.0, found.1.0)) result ≡ rule_next copies.number (M.view map.now) }
{
    let mut from = Page(0);
    while let Some(page) = next_from(map, copies, from) {
        if let Some(die) = copy_place(map, copies, page) {
            return Some((page, die));
        }
        from = Page(page.0 + 1);
    }
    None
}

/// The lowest thin page from one on.
fn next_from<M: Map>(map: &M, copies: Copies, from: Page) -> Option<Page>
    ensures { IsFirst (is_thin copies.number (M.view map.now)) from.0 (M.view map.now).geometry.pages (option_map (λ page. page.0) result) }
{
    let asked = copies_asked(map, copies);
    lower(
        next_held(map, 1, asked, from),
        next_held(map, 2, asked, from),
    )
}

/// The lowest page from one on that so many live dies hold, where more copies are asked for.
fn next_held<M: Map>(map: &M, count: u32, asked: u32, from: Page) -> Option<Page>
    requires { (1 ≤ count) × (count ≤ 2) }
    ensures { IsFirst (λ page. nat_lt count asked && length (holders (M.view map.now) page) == count) from.0
        (M.view map.now).geometry.pages (option_map (λ page. page.0) result) }
{
    if count < asked {
        map.next_with(count, from)
    } else {
        None
    }
}

/// The lower of two pages, if there are any.
fn lower(first: Option<Page>, second: Option<Page>) -> Option<Page>
    ensures { option_map (λ page. page.0) result ≡ lower_of (option_map (λ page. page.0) first) (option_map (λ page. page.0) second) }
{
    match first {
        None => second,
        Some(one) => match second {
            Some(two) if two.0 < one.0 => Some(two),
            _ => Some(one),
        },
    }
}
