//! Slots as a list of their states, which is searched from its beginning.
ghost use Rattle.std.specs.Prelude.{◌≡◌, ℕ, ◌+◌, ◌*◌, ◌/◌, ◌-◌, ◌<◌, ◌≤◌, ◌==◌, ◌&&◌, ◌||◌, not, nat_le, nat_lt, length, if◌then◌else◌};
ghost use Rattle.std.specs.Prelude.{option_map, find, count_by, is_none, None, Some};
ghost use Rattle.std.specs.List.{range_with_len};
ghost use Rattle.fa_machine.specs.Copies.{is_held_slot, is_reserved_slot, is_stale_slot};
ghost use Rattle.fa_machine.specs.Maps.{below};
ghost use Rattle.fa_machine.specs.Writing.{without_page};
ghost use Rattle.fa_map_calls.specs.Changes.{outdated};
ghost use Rattle.fa_map_calls.specs.Plain.{holds, slot_at};

use fa_machine::{Used, Version};
use fa_map_calls::BlockCounts;
use fa_types::Page;

/// Whether a slot in this state holds a copy of the page.
fn holds_page(used: Option<Used>, page: Page) -> bool
    ensures { result ≡ holds page.0 used }
{
    match used {
        Some(Used::Held { page: held, .. }) => held.0 == page.0,
        _ => false,
    }
}

/// The state of a slot once this write of the page is current elsewhere.
fn outdate_slot(used: Option<Used>, page: Page, version: Version) -> Option<Used>
    ensures { result ≡ option_map (outdated page.0 version) used }
{
    match used {
        Some(
            Used::Held {
                page: held,
                version: old,
            },
        ) => {
            if held.0 == page.0 && old.seq.0 != version.seq.0 {
                Some(Used::Stale)
            } else {
                used
            }
        }
        _ => used,
    }
}

/// The state of a slot once no copy of the page is current.
fn retire_slot(used: Option<Used>, page: Page) -> Option<Used>
    ensures { result ≡ option_map (without_page page.0) used }
{
    match used {
        Some(Used::Held { page: held, .. }) => {
            if held.0 == page.0 {
                Some(Used::Stale)
            } else {
                used
            }
        }
        _ => used,
    }
}

/// Which of so many slots from a first one holds the page, the lowest one.
pub fn find_copy(used: &[Option<Used>], first: usize, count: u32, page: Page) -> Option<u32>
    requires { first + count ≤ length used.now }
    ensures { result ≡ find (λ slot. holds page.0 (slot_at used.now (first + slot))) (below count) }
{
    for slot in 0..count {
        if holds_page(used[first + slot as usize], page) {
            return Some(slot);
        }
    }
    None
}

/// Which of so many slots from a first one is erased, the lowest one.
pub fn find_erased(used: &[Option<Used>], first: usize, count: u32) -> Option<u32>
    requires { first + count ≤ length used.now }
    ensures { result ≡ find (λ slot. is_none (slot_at used.now (first + slot))) (below count) }
{
    for slot in 0..count {
        if used[first + slot as usize].is_none() {
            return Some(slot);
        }
    }
    None
}

/// Which of so many slots from a first one is erased and outside the block, the lowest one. A block has
/// `slots` slots.
pub fn find_erased_outside(
    used: &[Option<Used>],
    first: usize,
    count: u32,
    slots: u32,
    block: u32,
) -> Option<u32>
    requires room { first + count ≤ length used.now }
    requires slots { 0 < slots }
    ensures { result ≡ find (λ slot. is_none (slot_at used.now (first + slot)) && not (slot / slots == block)) (below count) }
{
    for slot in 0..count {
        if used[first + slot as usize].is_none() && slot / slots != block {
            return Some(slot);
        }
    }
    None
}

/// How many of so many slots from a first one are erased.
pub fn count_erased(used: &[Option<Used>], first: usize, count: u32) -> u32
    requires { first + count ≤ length used.now }
    ensures { result ≡ count_by (λ slot. is_none (slot_at used.now (first + slot))) (below count) }
{
    let mut erased = 0;
    for slot in 0..count {
        if used[first + slot as usize].is_none() {
            erased += 1;
        }
    }
    erased
}

/// How many of so many slots from a first one are in each state.
pub fn count_states(used: &[Option<Used>], first: usize, count: u32) -> BlockCounts
    requires { first + count ≤ length used.now }
    ensures erased { result.erased ≡ count_by (λ slot. is_none (slot_at used.now (first + slot))) (below count) }
    ensures reserved { result.reserved ≡ count_by (λ slot. is_reserved_slot (slot_at used.now (first + slot))) (below count) }
    ensures current { result.current ≡ count_by (λ slot. is_held_slot (slot_at used.now (first + slot))) (below count) }
    ensures stale { result.stale ≡ count_by (λ slot. is_stale_slot (slot_at used.now (first + slot))) (below count) }
{
    let mut erased = 0;
    let mut reserved = 0;
    let mut current = 0;
    let mut stale = 0;
    for slot in 0..count {
        match used[first + slot as usize] {
            None => erased += 1,
            Some(Used::Reserved) => reserved += 1,
            Some(Used::Held { .. }) => current += 1,
            Some(Used::Stale) => stale += 1,
        }
    }
    BlockCounts {
        erased,
        reserved,
        current,
        stale,
    }
}

/// A slot that holds another write of the page is stale.
pub fn outdate(used: &mut [Option<Used>], page: Page, version: Version)
    ensures { (k : ℕ) → slot_at used.new k ≡ option_map (outdated page.0 version) (slot_at used.old k) }
{
    for index in 0..used.len() {
        used[index] = outdate_slot(used[index], page, version);
    }
}

/// A slot that holds the page is stale.
pub fn retire(used: &mut [Option<Used>], page: Page)
    ensures { (k : ℕ) → slot_at used.new k ≡ option_map (without_page page.0) (slot_at used.old k) }
{
    for index in 0..used.len() {
        used[index] = retire_slot(used[index], page);
    }
}

/// So many slots from a first one are erased.
pub fn erase_all(used: &mut [Option<Used>], first: usize, count: usize)
    requires { first + count ≤ length used.old }
    ensures { (k : ℕ) → slot_at used.new k ≡ (if nat_le first k && nat_lt k (first + count) then None else slot_at used.old k) }
{
    for index in first..first + count {
        used[index] = None;
    }
}

/// So many slots from a first one are erased, save those that are reserved.
pub fn erase_unreserved(used: &mut [Option<Used>], first: usize, count: usize)
    requires { first + count ≤ length used.old }
    ensures { (k : ℕ) → slot_at used.new k
        ≡ (if nat_le first k && nat_lt k (first + count) && not (is_reserved_slot (slot_at used.old k)) then None else slot_at used.old k) }
{
    for index in first..first + count {
        match used[index] {
            Some(Used::Reserved) => {}
            _ => used[index] = None,
        }
    }
}
