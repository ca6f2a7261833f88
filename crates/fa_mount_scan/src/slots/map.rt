//! The contents of dies as one page map.
ghost use Rattle.std.specs.Prelude.{◌≡◌, ◌≢◌, ℕ, ◌+◌, ◌*◌, ◌<◌, ◌↔◌, true, false, Some, None, length, IsTrue, IfOk, OnOk, OnErr, slice_get};
ghost use Rattle.std.specs.FinMap.{get};
ghost use Rattle.fa_types.specs.declared.numbers.Page.{Page};
ghost use Rattle.fa_map_calls.specs.Changes.{new_map};
ghost use Rattle.fa_machine.specs.declared.places.Version.{Version};
ghost use Rattle.fa_machine.specs.declared.places.Used.TheVariants.{Held};
ghost use Rattle.fa_machine.specs.State.{is_live, used_at};
ghost use Rattle.fa_mount_scan.specs.Content.{AreContents, NamePages, IsMountedContent, slots_on};
ghost use Rattle.fa_mount_scan.specs.ContentMerging.{AreLastBefore, NamesPages, IsMountedBefore, ChangesDie, last_in, noted};

use crate::slots::content::{DieContents, SlotContent};
use fa_machine::Version;
use fa_map_calls::Map;
use fa_types::{Die, Page, Slot};
use std::alloc::{AllocError, Allocator};

/// Fills a map that has no live die and no page with what was found: the mounted content. The dies that
/// were read are live now. Out of memory, the map is as it was.
pub(crate) fn mount_content<M: Map, A: Allocator>(
    alloc: A,
    map: &mut M,
    contents: &[Option<DieContents<A>>],
) -> Result<(), AllocError>
    requires empty { M.view map.old ≡ new_map (M.view map.old).geometry }
    requires contents { AreContents (M.view map.old).geometry contents.now }
    ensures mounted { OnOk result (IsMountedContent (M.view map.old).geometry contents.now (M.view map.new)) }
    ensures err { OnErr result (map.new ≡ map.old) }
{
    let last = last_writes(alloc, map.geometry().pages, contents)?;
    for die in 0..contents.len() {
        if let Some(found) = &contents[die] {
            map.bring_in(Die(die as u8));
            mount_die(map, last.as_slice(), found.slots(), Die(die as u8));
        }
    }
    Ok(())
}

/// The last write of each page, of the copies on all dies.
fn last_writes<A: Allocator, B: Allocator>(
    alloc: A,
    pages: u64,
    contents: &[Option<DieContents<B>>],
) -> Result<Vec<Option<Version>, A>, AllocError>
    requires { NamePages contents.now pages }
    ensures length { IfOk result (λ last. length last.items ≡ pages) }
    ensures last { IfOk result (λ last. AreLastBefore contents.now (length contents.now) 0 last.items) }
{
    let mut last = vec![in alloc; None; pages as usize]?;
    for die in 0..contents.len() {
        note_die(&mut last, contents, die);
    }
    Ok(last)
}

/// Takes the copies on one more die into account.
fn note_die<A: Allocator, B: Allocator>(
    last: &mut Vec<Option<Version>, A>,
    contents: &[Option<DieContents<B>>],
    die: usize,
)
    requires die { die < length contents.now }
    requires pages { NamePages contents.now (length last.old.items) }
    requires last { AreLastBefore contents.now die 0 last.old.items }
    ensures length { length last.new.items ≡ length last.old.items }
    ensures last { AreLastBefore contents.now (die + 1) 0 last.new.items }
{
    let Some(found) = &contents[die] else {
        return;
    };
    let slots = found.slots();
    for slot in 0..slots.len() {
        note_slot(last, slots[slot]);
    }
}

/// Takes what was found in one more slot into account.
fn note_slot<A: Allocator>(last: &mut Vec<Option<Version>, A>, content: SlotContent)
    requires { (page : Page) (version : Version) → content ≡ SlotContent.Copy page version → page.0 < length last.old.items }
    ensures noted { last.new.items ≡ noted content last.old.items }
    ensures length { length last.new.items ≡ length last.old.items }
{
    if let SlotContent::Copy { page, version } = content {
        let newer = match last[page.0 as usize] {
            Some(newest) => newest.seq.0 < version.seq.0,
            None => true,
        };
        if newer {
            last[page.0 as usize] = Some(version);
        }
    }
}

/// Gives the slots of a live die, all of which are erased, the states of what was found in them.
fn mount_die<M: Map>(map: &mut M, last: &[Option<Version>], slots: &[SlotContent], die: Die)
    requires slots { length slots.now ≡ (M.view map.old).geometry.blocks * (M.view map.old).geometry.slots }
    requires pages { NamesPages slots.now (length last.now) }
    requires last { length last.now ≡ (M.view map.old).geometry.pages }
    requires before { IsMountedBefore last.now slots.now die.0 0 (M.view map.old) }
    ensures mounted { IsMountedBefore last.now slots.now die.0 (length slots.now) (M.view map.new) }
    ensures others { ChangesDie die.0 (M.view map.old) (M.view map.new) }
{
    for slot in 0..slots.len() {
        mount_slot(map, last, slots, die, slot);
    }
}

/// Gives one more slot the state of what was found in it.
fn mount_slot<M: Map>(
    map: &mut M,
    last: &[Option<Version>],
    slots: &[SlotContent],
    die: Die,
    slot: usize,
)
    requires slot { slot < length slots.now }
    requires slots { length slots.now ≡ (M.view map.old).geometry.blocks * (M.view map.old).geometry.slots }
    requires pages { NamesPages slots.now (length last.now) }
    requires last { length last.now ≡ (M.view map.old).geometry.pages }
    requires before { IsMountedBefore last.now slots.now die.0 slot (M.view map.old) }
    ensures mounted { IsMountedBefore last.now slots.now die.0 (slot + 1) (M.view map.new) }
    ensures others { ChangesDie die.0 (M.view map.old) (M.view map.new) }
{
    match slots[slot] {
        SlotContent::Erased => {}
        SlotContent::Stale => map.make_stale(die, Slot(slot as u32)),
        SlotContent::Copy { page, version } => {
            if is_first(map, last, page, version, die) {
                map.make_current(page, version, die, Slot(slot as u32));
            } else {
                map.make_stale(die, Slot(slot as u32));
            }
        }
    }
}

/// Whether a copy is one of the page's last write, and the first one on its die.
fn is_first<M: Map>(
    map: &M,
    last: &[Option<Version>],
    page: Page,
    version: Version,
    die: Die,
) -> bool
    requires page { page.0 < (M.view map.now).geometry.pages }
    requires last { length last.now ≡ (M.view map.now).geometry.pages }
    requires numbers { (v : Version) → get (M.view map.now).versions page.0 ≡ Some v → last_in last.now page.0 ≡ Some v }
    requires live { is_live (M.view map.now) die.0 ≡ true }
    ensures last { result ≡ true → last_in last.now page.0 ≡ Some version }
    ensures first { result ≡ true → (s : ℕ) (v : Version) → ¬ (used_at (M.view map.now) die.0 s ≡ Some (Held page v)) }
    ensures other { result ≡ false → last_in last.now page.0 ≡ Some version
        → (s : ℕ) × (used_at (M.view map.now) die.0 s ≡ Some (Held page version)) }
{
    if last[page.0 as usize] != Some(version) {
        return false;
    }
    map.copy_on(page, die).is_none()
}
