//! The trait of a block store.
ghost use Rattle.std.specs.Prelude.{◌≡◌, ◌+◌, ◌≤◌, length, IfOk, IfErr, OnOk};
ghost use Rattle.fa_types.specs.Store.{Store, Call, Reading, Writing, Zeroing, Trimming, Flushing, Answer, Gave, Done, Refused};
ghost use Rattle.fa_types.specs.Store.{Meets, IsWhole};

use std::alloc::Allocator;
use thiserror::Error;

/// Why a block store refused a call.
#[derive(Clone, Copy, Debug, Error)]
pub enum BlockFault {
    /// Fault 1: the range meets a page whose last copy is gone, or no die is live.
    #[error("lost")]
    Lost,
    /// Fault 2: no room to write.
    #[error("no room")]
    NoRoom,
    /// Fault 3: no memory for the call. It may be made again.
    #[error("no memory")]
    NoMemory,
    /// Fault 4: a counter of the store is at its end.
    #[error("a counter is at its end")]
    Spent,
}

/// A store of bytes, written by pages. Offsets and lengths are in bytes, and a range has to lie
/// within the store.
///
/// A write, zero or trim takes its pages in rising order. One that is refused has written the pages
/// before the refused one and no other; one that is refused in the flush that `fua` asks for has
/// written all.
pub trait Blocks {
    /// What is seen of the store.
    ghost view: { Self → Store };

    /// One call, with its answer, that led from a store to a store. Only the calls below make it, so
    /// who is handed such a link knows that the call was made.
    ghost made: { Self → Call → Answer → Self → Type 0 };

    /// How many bytes the store has.
    fn size(&self) -> u64
        ensures { result ≡ (view self.now).size };

    /// How many bytes a page has. A trim takes whole pages alone.
    fn page_bytes(&self) -> u32
        ensures { result ≡ (view self.now).page_bytes };

    /// The `len` bytes from the offset, in memory of the allocator.
    fn read<A: Allocator>(
        &mut self,
        alloc: A,
        offset: u64,
        len: u64,
    ) -> Result<Vec<u8, A>, BlockFault>
        requires { offset + len ≤ (view self.old).size }
        ensures gave { IfOk result (λ bytes. made self.old (Reading offset len) (Gave bytes.items) self.new) }
        ensures refused { IfErr result (λ fault. made self.old (Reading offset len) (Refused fault) self.new) };

    /// Writes the bytes at the offset. With `fua` they are on their images when the call is answered.
    fn write(&mut self, offset: u64, bytes: &[u8], fua: bool) -> Result<(), BlockFault>
        requires { offset + length bytes.now ≤ (view self.old).size }
        ensures done { OnOk result (made self.old (Writing offset bytes.now fua) Done self.new) }
        ensures refused { IfErr result (λ fault. made self.old (Writing offset bytes.now fua) (Refused fault) self.new) };

    /// Writes `len` zeros at the offset, as `write` does. With `hole` the pages that lie wholly in the
    /// range need no longer have bytes of their own.
    fn zero(&mut self, offset: u64, len: u64, fua: bool, hole: bool) -> Result<(), BlockFault>
        requires { offset + len ≤ (view self.old).size }
        ensures done { OnOk result (made self.old (Zeroing offset len fua hole) Done self.new) }
        ensures refused { IfErr result (λ fault. made self.old (Zeroing offset len fua hole) (Refused fault) self.new) };

    /// Makes zeros of the pages that lie wholly among the `len` bytes from the offset, as `zero` with
    /// `hole` does, and leaves all other bytes.
    fn trim(&mut self, offset: u64, len: u64, fua: bool) -> Result<(), BlockFault>
        requires { offset + len ≤ (view self.old).size }
        ensures done { OnOk result (made self.old (Trimming offset len fua) Done self.new) }
        ensures refused { IfErr result (λ fault. made self.old (Trimming offset len fua) (Refused fault) self.new) };

    /// Puts all that was written on its images. It is never refused for memory.
    fn flush(&mut self) -> Result<(), BlockFault>
        ensures done { OnOk result (made self.old Flushing Done self.new) }
        ensures refused { IfErr result (λ fault. made self.old Flushing (Refused fault) self.new) };

    /// Each call is one of a block store.
    ghost meets: { (before after : Self) (call : Call) (answer : Answer) → made before call answer after
        → Meets (view before) call answer (view after) };

    /// A store has pages of at least one byte, and of one that is alone each byte is seen.
    ghost whole: { (store : Self) → IsWhole (view store) };
}
