//! Where slots stand in the list of all slots, and the links by which the copies of a page are found.
ghost use Rattle.std.specs.Prelude.{◌≡◌, ℕ, ◌+◌, ◌*◌, ◌<◌, None, Some, true, false, is_some, length};
ghost use Rattle.fa_map.specs.Chains.{AreInside, IsInside, IsRenewed, IsSecond, follower, link_at, second_at, target};
ghost use Rattle.fa_map.specs.Entries.{rewritten, with_first_two, with_head, with_link};
ghost use Rattle.fa_map_calls.specs.Plain.{die_slots};

use crate::entries::{Link, NO_LINK, Second};
use crate::rows::{PageRows, SlotRows};
use fa_types::{Die, Geometry, Slot};
use std::alloc::Allocator;

/// Where a slot stands in the list of all slots.
pub fn index_of(geometry: Geometry, die: Die, slot: Slot) -> usize
    requires die { die.0 < geometry.dies }
    requires slot { slot.0 < die_slots geometry }
    ensures index { result ≡ die.0 * die_slots geometry + slot.0 }
    ensures fits { result < geometry.dies * die_slots geometry }
{
    die.0 as usize * (geometry.blocks * geometry.slots) as usize + slot.0 as usize
}

/// Whether a link leads to this slot of the die.
pub fn leads_to(link: Link, die: Die, slot: Slot) -> bool
    ensures there { result ≡ true → target link ≡ Some (die.0, slot.0) }
    ensures elsewhere { result ≡ false → target link ≡ Some (die.0, slot.0) → ⊥ }
{
    match link.die {
        None => false,
        Some(other) => other == die.0 && link.slot == slot.0,
    }
}

/// The link behind a place of a page's chain becomes this one, and what is kept of the page's first two copies follows. The
/// caller says which copy then follows the one at `link`, and whether that one is followed by another: no slot's row is read.
/// Rows are written only where the page has more than two copies then.
pub fn relink<A: Allocator>(
    geometry: Geometry,
    pages: &mut PageRows<A>,
    slots: &mut SlotRows<A>,
    page: u32,
    last: Link,
    link: Link,
    following: Link,
    is_followed: bool,
)
    requires head { page < length pages.old.heads }
    requires second { page < length pages.old.seconds }
    requires linked { length slots.old.links ≡ geometry.dies * die_slots geometry }
    requires first { IsInside geometry.dies (die_slots geometry) (link_at pages.old.heads page) }
    requires last { IsInside geometry.dies (die_slots geometry) (target last) }
    requires link { IsInside geometry.dies (die_slots geometry) (target link) }
    requires inside { AreInside geometry.dies (die_slots geometry) slots.old.links }
    requires kept { IsSecond slots.old.links (die_slots geometry) (link_at pages.old.heads page) (second_at pages.old.seconds page) }
    requires following { target following
        ≡ follower (with_link (target last) (die_slots geometry) link slots.old.links) (die_slots geometry) (target link) }
    requires followed { is_followed ≡ is_some
        (follower (with_link (target last) (die_slots geometry) link slots.old.links) (die_slots geometry) (target following)) }
    ensures versions { pages.new.versions ≡ pages.old.versions }
    ensures heads { pages.new.heads ≡ with_head (target last) page link pages.old.heads }
    ensures seconds { IsRenewed slots.new.links pages.new.heads pages.old.seconds pages.new.seconds (die_slots geometry) page }
    ensures entries { slots.new.entries ≡ slots.old.entries }
    ensures links { slots.new.links ≡ with_link (target last) (die_slots geometry) link slots.old.links }
    ensures written { slots.new.written ≡ rewritten (link_at pages.old.heads page) (target last) (die_slots geometry) link
        (second_at pages.old.seconds page) (second_at pages.new.seconds page).more slots.old.written }
    ensures inside { AreInside geometry.dies (die_slots geometry) slots.new.links }
{
    let before = pages.second(page as usize);
    let second = second_after(pages, page, last, link, following, is_followed);
    let first = pages.head(page as usize);
    write_links(geometry, slots, first, before, last, link, second.more);
    link_behind(geometry, pages, slots, page, last, link);
    pages.set_second(page as usize, second);
}

/// What is to be kept of a page's second copy once the link behind a place of its chain became this one. It follows from what was
/// kept of the page's first two copies: the link makes a first copy, or a second, or stands behind the second, or further on.
fn second_after<A: Allocator>(
    pages: &PageRows<A>,
    page: u32,
    last: Link,
    link: Link,
    following: Link,
    is_followed: bool,
) -> Second
    requires head { page < length pages.now.heads }
    requires second { page < length pages.now.seconds }
    ensures first { target last ≡ None → result ≡ record { place = following; more = is_followed } }
    ensures second { (place : ℕ × ℕ) → target last ≡ Some place → link_at pages.now.heads page ≡ Some place
        → result ≡ record { place = link; more = is_some (target following) } }
    ensures third { (place : ℕ × ℕ) → target last ≡ Some place → (link_at pages.now.heads page ≡ Some place → ⊥)
        → target (second_at pages.now.seconds page).place ≡ Some place
        → result ≡ record { place = (second_at pages.now.seconds page).place; more = is_some (target link) } }
    ensures further { (place : ℕ × ℕ) → target last ≡ Some place → (link_at pages.now.heads page ≡ Some place → ⊥)
        → (target (second_at pages.now.seconds page).place ≡ Some place → ⊥) → result ≡ second_at pages.now.seconds page }
{
    match last.die {
        None => Second {
            place: following,
            more: is_followed,
        },
        Some(die) => {
            let second = pages.second(page as usize);
            if leads_to(pages.head(page as usize), Die(die), Slot(last.slot)) {
                return Second {
                    place: link,
                    more: following.die.is_some(),
                };
            }
            if leads_to(second.place, Die(die), Slot(last.slot)) {
                return Second {
                    place: second.place,
                    more: link.die.is_some(),
                };
            }
            second
        }
    }
}

/// The link behind a place of a page's chain becomes this one, for clauses alone: no slot's row is written. Behind none the link
/// is the page's first.
fn link_behind<A: Allocator>(
    geometry: Geometry,
    pages: &mut PageRows<A>,
    slots: &mut SlotRows<A>,
    page: u32,
    last: Link,
    link: Link,
)
    requires page { page < length pages.old.heads }
    requires linked { length slots.old.links ≡ geometry.dies * die_slots geometry }
    requires last { IsInside geometry.dies (die_slots geometry) (target last) }
    ensures versions { pages.new.versions ≡ pages.old.versions }
    ensures heads { pages.new.heads ≡ with_head (target last) page link pages.old.heads }
    ensures seconds { pages.new.seconds ≡ pages.old.seconds }
    ensures entries { slots.new.entries ≡ slots.old.entries }
    ensures links { slots.new.links ≡ with_link (target last) (die_slots geometry) link slots.old.links }
    ensures written { slots.new.written ≡ slots.old.written }
{
    match last.die {
        None => pages.set_head(page as usize, link),
        Some(die) => slots.tell_link(index_of(geometry, Die(die), Slot(last.slot)), link),
    }
}

/// The link behind a place of a page's chain is written in the slot's row, if the page has more than two copies now. Where it had
/// no third so far, the links of its first two are written before.
fn write_links<A: Allocator>(
    geometry: Geometry,
    slots: &mut SlotRows<A>,
    first: Link,
    second: Second,
    last: Link,
    link: Link,
    more: bool,
)
    requires linked { length slots.old.links ≡ geometry.dies * die_slots geometry }
    requires first { IsInside geometry.dies (die_slots geometry) (target first) }
    requires second { IsInside geometry.dies (die_slots geometry) (target second.place) }
    requires last { IsInside geometry.dies (die_slots geometry) (target last) }
    ensures entries { slots.new.entries ≡ slots.old.entries }
    ensures links { slots.new.links ≡ slots.old.links }
    ensures written { slots.new.written
        ≡ rewritten (target first) (target last) (die_slots geometry) link second more slots.old.written }
{
    if !more {
        return;
    }
    write_first_two(geometry, slots, first, second);
    write_behind(geometry, slots, last, link);
}

/// The links of a page's first two copies are written in their slots' rows, unless it has a third copy: then they are there.
fn write_first_two<A: Allocator>(
    geometry: Geometry,
    slots: &mut SlotRows<A>,
    first: Link,
    second: Second,
)
    requires linked { length slots.old.links ≡ geometry.dies * die_slots geometry }
    requires first { IsInside geometry.dies (die_slots geometry) (target first) }
    requires second { IsInside geometry.dies (die_slots geometry) (target second.place) }
    ensures entries { slots.new.entries ≡ slots.old.entries }
    ensures links { slots.new.links ≡ slots.old.links }
    ensures written { slots.new.written ≡ with_first_two (target first) (die_slots geometry) second slots.old.written }
{
    if second.more {
        return;
    }
    write_behind(geometry, slots, first, second.place);
    write_behind(geometry, slots, second.place, NO_LINK);
}

/// The link behind a place is written in its slot's row; behind none nothing is.
fn write_behind<A: Allocator>(geometry: Geometry, slots: &mut SlotRows<A>, place: Link, link: Link)
    requires linked { length slots.old.links ≡ geometry.dies * die_slots geometry }
    requires place { IsInside geometry.dies (die_slots geometry) (target place) }
    ensures entries { slots.new.entries ≡ slots.old.entries }
    ensures links { slots.new.links ≡ slots.old.links }
    ensures written { slots.new.written ≡ with_link (target place) (die_slots geometry) link slots.old.written }
{
    match place.die {
        None => {}
        Some(die) => slots.write_link(index_of(geometry, Die(die), Slot(place.slot)), link),
    }
}
