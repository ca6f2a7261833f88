//! What a read hands out of a slot's bytes.
ghost use Rattle.std.specs.Prelude.{◌≡◌, ◌≤◌, length, take};

use std::alloc::Allocator;
use std::mem::swap;

/// The buffer has the first of the slot's bytes, as many as it has bytes itself. Where it has memory for a whole slot, as buffers of
/// batches have, the two change places and nothing is copied. What `slot` has then is in no clause.
pub fn hand_over<A: Allocator>(slot: &mut Vec<u8, A>, buffer: &mut Vec<u8, A>)
    requires { length buffer.old.items ≤ length slot.old.items }
    ensures buffer { buffer.new.items ≡ take (length buffer.old.items) slot.old.items }
    ensures slot { length slot.new.items ≡ length slot.old.items }
{
    let page_len = buffer.len();
    let slot_len = slot.len();
    if slot_len <= buffer.capacity() && buffer.resize(slot_len, 0).is_ok() {
        swap(slot, buffer);
        buffer.truncate(page_len);
    } else {
        buffer.as_mut_slice().copy_from_slice(&slot[..page_len]);
    }
}
