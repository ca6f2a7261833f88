//! The page map in tables beside the plain one: 10,000 calls, and the last slots of a large die.
ghost use Rattle.std.specs.Prelude.{◌≡◌, ◌<◌};

use fa_machine::{Block, Version};
use fa_map::PageMap;
use fa_map_calls::{BlockCounts, Map};
use fa_plain_map::PlainMap;
use fa_types::{Die, Geometry, Kind, Page, Seq, Slot};
use std::alloc::Global;
use std::test::Fail;

/// What a map answers of a page, of a slot and of a block.
type PageLook = (
    (Option<Version>, Option<Seq>),
    u32,
    (Option<(Die, Slot)>, Option<(Die, Slot)>),
);

type SlotLook = (u8, Option<(Page, Version)>);

type BlockLook = (
    (BlockCounts, bool),
    (u32, u32),
    (Option<Slot>, Option<Slot>),
);

/// Numbers that look random, the same in each run.
#[derive(Drop)]
struct Draws {
    state: u64,
}

impl Draws {
    /// The next eight bytes.
    fn next(&mut self) -> [u8; 8] {
        self.state = self
            .state
            .wrapping_mul(6_364_136_223_846_793_005)
            .wrapping_add(1_442_695_040_888_963_407);
        self.state.to_be_bytes()
    }
}

/// One call, by numbers that were drawn.
#[derive(Clone, Copy)]
struct Call {
    kind: u8,
    die: u8,
    slot: u32,
    block: u32,
    page: u64,
    seq: u64,
}

fn drawn(draws: &mut Draws, seq: u64) -> Call {
    let [kind, die, slot, block, page, ..] = draws.next();
    Call {
        kind: kind % 130,
        die: die % 4,
        slot: u32::from(slot % 48),
        block: u32::from(block % 12),
        page: u64::from(page % 64),
        seq,
    }
}

/// A write of this number.
fn write(seq: u64) -> Version {
    Version {
        seq: Seq(seq),
        kind: Kind::Data,
    }
}

/// Makes one more copy of the page's last write current, where the die has none and the slot holds none. It is
/// made by `hold`, or else by `make_current`.
fn copy_more<M: Map>(map: &mut M, page: Page, die: Die, slot: Slot, by_hold: bool) {
    let g = map.geometry();
    if page.0 >= g.pages || die.0 as u32 >= g.dies || slot.0 >= g.blocks * g.slots {
        return;
    }
    if !map.is_live(die) || map.copy_in(die, slot).is_some() {
        return;
    }
    let held = map.copy_on(page, die).is_some();
    if let Some(last) = map.version(page) {
        if !held && by_hold {
            map.hold(page, last, die, slot);
        } else if !held {
            map.make_current(page, last, die, slot);
        }
    }
}

/// Makes a copy of another write of the page current, where the slot holds none.
fn copy_new<M: Map>(map: &mut M, page: Page, version: Version, die: Die, slot: Slot) {
    let g = map.geometry();
    if page.0 >= g.pages || die.0 as u32 >= g.dies || slot.0 >= g.blocks * g.slots {
        return;
    }
    if !map.is_live(die) || map.copy_in(die, slot).is_some() {
        return;
    }
    let same = match map.version(page) {
        Some(last) => last.seq.0 == version.seq.0,
        None => false,
    };
    if !same {
        map.make_current(page, version, die, slot);
    }
}

/// Makes a write the page's last, with no copy so far.
fn renew<M: Map>(map: &mut M, page: Page, version: Version) {
    if page.0 < map.geometry().pages {
        map.renew(page, version);
    }
}

/// Makes the call, where its conditions hold, and answers the slot that it took.
fn make<M: Map>(map: &mut M, call: Call) -> Option<Slot> {
    let g = map.geometry();
    let die = Die(call.die);
    let slot = Slot(call.slot);
    if call.die as u32 >= g.dies || call.slot >= g.blocks * g.slots || call.block >= g.blocks {
        return None;
    }
    if !map.is_live(die) {
        map.bring_in(die);
        return None;
    }
    if call.kind == 0 {
        map.drop_die(die);
    } else if call.kind < 25 {
        return map.take_slot(die);
    } else if call.kind < 40 {
        return map.take_slot_outside(die, Block(call.block));
    } else if call.kind < 44 {
        map.make_stale(die, slot);
    } else if call.kind < 50 {
        map.block_erased(die, Block(call.block));
    } else if call.kind < 75 {
        copy_more(map, Page(call.page), die, slot, false);
    } else if call.kind < 100 {
        copy_new(map, Page(call.page), write(call.seq), die, slot);
    } else if call.kind < 103 {
        map.reserve_slot(die, slot);
    } else if call.kind < 110 {
        renew(map, Page(call.page), write(call.seq));
    } else {
        copy_more(map, Page(call.page), die, slot, true);
    }
    None
}

/// Whether two slots, or none, are the same.
fn is_same_slot(a: Option<Slot>, b: Option<Slot>) -> bool {
    a == b
}

/// What a map answers of a page: its last write, how many copies of it are current, and the first two of them. None of a page that
/// the map does not have.
fn page_look<M: Map>(map: &M, page: u64) -> Option<PageLook> {
    if page >= map.geometry().pages {
        return None;
    }
    let page = Page(page);
    Some((
        (map.version(page), map.seq(page)),
        map.copies_of(page),
        (map.first_copy(page), second_copy(map, page)),
    ))
}

/// The second copy of a page.
fn second_copy<M: Map>(map: &M, page: Page) -> Option<(Die, Slot)>
    requires { page.0 < (M.view map.now).geometry.pages }
{
    match map.first_copy(page) {
        Some((die, slot)) => map.next_copy(page, die, slot),
        None => None,
    }
}

/// The pages from one on that have one copy, and those that have two: the lowest of each.
fn few_from<M: Map>(map: &M, page: u64) -> (Option<Page>, Option<Page>) {
    (map.next_with(1, Page(page)), map.next_with(2, Page(page)))
}

/// Whether these are the lowest pages with one copy and with two from one on.
fn has_few<M: Map>(map: &M, page: u64, few: (Option<Page>, Option<Page>)) -> bool {
    few_from(map, page) == few
}

/// The slot of a page's copy on a die, if it has one. None where the map does not have the page or the die.
fn copy_look<M: Map>(map: &M, page: u64, die: u8) -> Option<Option<Slot>> {
    let g = map.geometry();
    if page >= g.pages || die as u32 >= g.dies {
        return None;
    }
    Some(map.copy_on(Page(page), Die(die)))
}

/// What a map answers of a slot: its state, and what it holds. None where the map does not have it.
fn slot_look<M: Map>(map: &M, die: u8, slot: u32) -> Option<SlotLook> {
    let g = map.geometry();
    if die as u32 >= g.dies || slot >= g.blocks * g.slots {
        return None;
    }
    let (die, slot) = (Die(die), Slot(slot));
    Some((map.state(die, slot) as u8, map.copy_in(die, slot)))
}

/// What a map answers of a die and one of its blocks: its slots by their states, whether the die is live, its erased slots and its
/// room, and the slots that it offers to a writer and for a move from the block. None where the map does not have the block.
fn block_look<M: Map>(map: &M, die: u8, block: u32) -> Option<BlockLook> {
    let g = map.geometry();
    if die as u32 >= g.dies || block >= g.blocks {
        return None;
    }
    let (die, block) = (Die(die), Block(block));
    Some((
        (map.counts(die, block), map.is_live(die)),
        (map.free(die), map.room(die)),
        (map.writers_slot(die), map.slot_for_move(die, block)),
    ))
}

/// Whether two looks are the same, and are of what there is.
fn is_same<T: PartialEq + Copy>(a: Option<T>, b: Option<T>) -> bool {
    a.is_some() && a == b
}

/// Whether two maps of 64 pages, and of dies of 12 blocks of 4 slots, answer of a die alike.
fn is_die_alike<A: Map, B: Map>(a: &A, b: &B, die: u8) -> bool {
    let mut alike = true;
    for page in 0..64u64 {
        alike = alike && is_same(copy_look(a, page, die), copy_look(b, page, die));
    }
    for slot in 0..48u32 {
        alike = alike && is_same(slot_look(a, die, slot), slot_look(b, die, slot));
    }
    for block in 0..12u32 {
        alike = alike && is_same(block_look(a, die, block), block_look(b, die, block));
    }
    alike
}

/// Whether two maps of four such dies answer every look alike.
fn are_alike<A: Map, B: Map>(a: &A, b: &B) -> bool {
    let mut alike = a.live_dies() == b.live_dies()
        && has_few(a, 64, (None, None))
        && has_few(b, u64::MAX, (None, None));
    for page in 0..64u64 {
        alike = alike
            && is_same(page_look(a, page), page_look(b, page))
            && has_few(a, page, few_from(b, page));
    }
    for die in 0..4u8 {
        alike = alike && is_die_alike(a, b, die);
    }
    alike
}

/// Makes 10,000 calls of both maps, which answer alike, and comes to a page with one copy and to one with two.
fn answer_alike<A: Map, B: Map>(a: &mut A, b: &mut B) -> Result<(), Fail> {
    let mut draws = Draws { state: 7 };
    let mut one = false;
    let mut two = false;
    for number in 0..10_000u64 {
        let call = drawn(&mut draws, number + 1);
        let slots = (make(a, call), make(b, call));
        ensure!(
            is_same_slot(slots.0, slots.1) && (number % 50 != 0 || are_alike(a, b)),
            at number
        );
        let few = few_from(a, 0);
        one = one || few.0.is_some();
        two = two || few.1.is_some();
    }
    ensure!(one && two);
    Ok(())
}

/// The same of a new map in lists beside another one.
fn answers_as_lists<M: Map>(alloc: Global, map: &mut M, geometry: Geometry) -> Result<(), Fail> {
    let mut plain = PlainMap::new(alloc, geometry)?;
    answer_alike(map, &mut plain)
}

#[test]
fn ten_thousand_calls(rt: HostRuntime) -> Result<(), Fail> {
    let geometry = Geometry::new(4, 0, 12, 4, 512, 64)?;
    let mut tables = PageMap::new(rt.alloc(), geometry)?;
    answers_as_lists(rt.alloc(), &mut tables, geometry)
}

/// The call of this kind of die 0.
fn call_of(kind: u8) -> Call {
    Call {
        kind,
        die: 0,
        slot: 0,
        block: 0,
        page: 0,
        seq: 1,
    }
}

/// Whether a writer takes this slot of die 0, with as many looks.
fn takes(map: &mut PageMap, slot: Option<Slot>, least: u32, most: u32) -> bool {
    let taken = make(map, call_of(1));
    let looks = map.last_looks();
    is_same_slot(taken, slot) && least <= looks && looks <= most
}

/// Takes the slots of die 0 of a new map in their order, so many, each with this many looks, until the die has no
/// room, which takes one look. The first call brings the die in.
fn slots_come_in_order(map: &mut PageMap, slots: u32, least: u32, most: u32) -> Result<(), Fail> {
    ensure!(takes(map, None, 0, 0));
    for slot in 0..slots {
        ensure!(takes(map, Some(Slot(slot)), least, most), at slot);
    }
    ensure!(takes(map, None, 1, 1));
    Ok(())
}

/// The same of a new map.
fn slots_of_a_map_come_in_order(
    alloc: Global,
    geometry: Geometry,
    slots: u32,
    least: u32,
    most: u32,
) -> Result<(), Fail> {
    let mut map = PageMap::new(alloc, geometry)?;
    slots_come_in_order(&mut map, slots, least, most)
}

// A slot is found by the die's count and a look at the erased slots. Where the die has no room, its count is all
// that is read. The die of the first map is large, and the last slot that a writer takes is 4,031.
#[test]
fn looks_for_a_slot(rt: HostRuntime) -> Result<(), Fail> {
    let large = Geometry::new(2, 0, 64, 64, 512, 64)?;
    let small = Geometry::new(2, 0, 4, 4, 512, 4)?;
    slots_of_a_map_come_in_order(rt.alloc(), large, 4_032, 1, 129)?;
    slots_of_a_map_come_in_order(rt.alloc(), small, 12, 2, 2)
}
