//! Slots that are opened together, eight or four at a time.
ghost use Rattle.std.specs.Prelude.{◌≡◌, ◌≤◌, ◌-◌, ◌<◌, ◌↔◌, All, ℕ, IsTrue, length, take};
ghost use Rattle.fa_lanes.specs.Lanes.{message};
ghost use Rattle.fa_tag.specs.OpenedTogether.{AreOpened};
ghost use Rattle.fa_tag.specs.SlotGrammar.{IsErased as AreErased};

use crate::tag::{DIGEST_BYTES, Opened, open, open_with};
use fa_lanes::{LANES, WIDE_LANES, digests, digests_of_four, fronts_of_four};
use fa_types::TAG_BYTES;
use fa_types::bytes::is_erased;

/// Writes what each slot's bytes are, as [`open`] tells it. Eight slots of one length are hashed side by side, then four of those that
/// are left over, and the last ones one by one.
pub fn open_all(slots: &[&[u8]], opened: &mut [Opened])
    requires { length opened.old ≡ length slots.now }
    ensures { AreOpened slots.now opened.new }
{
    let eights = slots.len() / LANES;
    'eights: for i in 0..eights {
        let from = LANES * i;
        open_eight(&slots[from..from + LANES], &mut opened[from..from + LANES]);
    }
    let (_, rest) = opened.split_at_mut(LANES * eights);
    open_rest(&slots[LANES * eights..], rest);
}

/// The same of slots of which eight together were opened before.
fn open_rest(slots: &[&[u8]], opened: &mut [Opened])
    requires { length opened.old ≡ length slots.now }
    ensures { AreOpened slots.now opened.new }
{
    if slots.len() < WIDE_LANES {
        open_each(slots, opened);
        return;
    }
    let (four, rest) = opened.split_at_mut(WIDE_LANES);
    open_four(&slots[..WIDE_LANES], four);
    open_each(&slots[WIDE_LANES..], rest);
}

/// The same of four slots.
fn open_four(slots: &[&[u8]], opened: &mut [Opened])
    requires slots { length slots.now ≡ 4 }
    requires opened { length opened.old ≡ 4 }
    ensures { AreOpened slots.now opened.new }
{
    let bytes = slots[0].len();
    if bytes < TAG_BYTES || !have_length(slots, bytes) || !are_mostly_written(slots) {
        open_each(slots, opened);
        return;
    }
    let made = digests_of_four(&fronts_of_four(slots, bytes - DIGEST_BYTES));
    'slots: for i in 0..WIDE_LANES {
        opened[i] = open_with(slots[i], Some(&made[i]));
    }
}

/// The same of eight slots.
fn open_eight(slots: &[&[u8]], opened: &mut [Opened])
    requires slots { length slots.now ≡ 8 }
    requires opened { length opened.old ≡ 8 }
    ensures { AreOpened slots.now opened.new }
{
    let bytes = slots[0].len();
    if bytes < TAG_BYTES || !have_length(slots, bytes) || !are_mostly_written(slots) {
        open_each(slots, opened);
        return;
    }
    let made = digests(&sealed_parts(slots, bytes - DIGEST_BYTES));
    'slots: for i in 0..LANES {
        opened[i] = open_with(slots[i], Some(&made[i]));
    }
}

/// The same of any slots, one by one.
fn open_each(slots: &[&[u8]], opened: &mut [Opened])
    requires { length opened.old ≡ length slots.now }
    ensures { AreOpened slots.now opened.new }
{
    'slots: for i in 0..slots.len() {
        opened[i] = open(slots[i]);
    }
}

/// Whether each piece has this many bytes.
pub(crate) fn have_length(pieces: &[&[u8]], bytes: usize) -> bool
    ensures { IsTrue result ↔ All (λ piece. length piece.now ≡ bytes) pieces.now }
{
    pieces.iter().all(|piece| piece.len() == bytes)
}

/// Whether at least half of the slots were written: fewer are opened faster one by one, since an erased slot is not
/// hashed.
fn are_mostly_written(slots: &[&[u8]]) -> bool {
    let written = slots.iter().filter(|slot| !is_erased(slot)).count();
    written >= slots.len() / 2
}

/// The bytes of eight slots of which their digests are.
fn sealed_parts<'a>(slots: &[&'a [u8]], bytes: usize) -> [&'a [u8]; LANES]
    requires eight { length slots.now ≡ 8 }
    requires within { All (λ slot. bytes ≤ length slot.now) slots.now }
    ensures size { length result ≡ 8 }
    ensures parts { (l : ℕ) → l < 8 → message result l ≡ take bytes (message slots.now l) }
{
    [
        &slots[0][..bytes],
        &slots[1][..bytes],
        &slots[2][..bytes],
        &slots[3][..bytes],
        &slots[4][..bytes],
        &slots[5][..bytes],
        &slots[6][..bytes],
        &slots[7][..bytes],
    ]
}
