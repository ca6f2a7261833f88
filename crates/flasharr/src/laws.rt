//! Laws of conversations, each the contract of a function with no code.
ghost use Rattle.std.specs.Prelude.{◌≡◌, ℕ, Bool, List, [], Result, length, map};
ghost use Rattle.std.specs.declared.alloc.Global.{Global as Heap};
ghost use Rattle.fa_machine.specs.State.{Core};
ghost use Rattle.fa_mount.specs.MountsArray.{MountsArray};
ghost use Rattle.fa_mount.specs.declared.closing.CloseFault.{CloseFault};
ghost use Rattle.fa_mount_headers.specs.Found.{AreOnlyRead};
ghost use Rattle.fa_mount_headers.specs.declared.judging.Standing.{Standing};
ghost use Rattle.flasharr.specs.Conversation.{Converses};
ghost use Rattle.flasharr.specs.Right.{IsRight};
ghost use Rattle.fa_prog_text.specs.Talk.{known};
ghost use Rattle.fa_session.specs.declared.session_end.SessionEnd.{SessionEnd};
ghost use Rattle.fa_faults.specs.declared.faults.Fault.{Fault};

use fa_image::Image;
use fa_plain_store::MemBlocks;
use fa_solo_laws::beginnings::a_mounted_store_is_of_a_world;
use fa_solo_laws::sessions::a_session_of_the_store_meets;
use std::alloc::Global;

/// A client of an array that was mounted is answered as by a plain store whose bytes are what stood in the slots of its images, from the
/// first byte to the last. Or a call of the store was given up: its request took 2^64 - 1 turns, and was refused as lost, or a copy of a
/// page was looked at as often in vain. The images return what was written, and the current copies of one page agree as they are mounted.
pub fn a_conversation_is_right<L, M, I: Image>()
    ensures { (copies : ℕ) (unclean : Bool) (before mounted : List I) (array : List ℕ) (dies : List Standing) (core : Core)
        (export bytes written : List ℕ) (end : SessionEnd) (faults : List Fault) (closed : Result ℕ CloseFault)
        → MountsArray Heap I.view I.made copies unclean before mounted array dies core
        → AreOnlyRead (map I.view before) (map I.view mounted) → length dies ≡ core.page_map.geometry.dies
        → (it : Converses I.view I.honest I.made L M export bytes array dies core mounted written end faults closed)
        → IsRight I.view I.honest I.made export (known bytes it.left [] written) end dies core mounted it.first it.last it.session }
{
    a_mounted_store_is_of_a_world::<L, M, I, Global>();
    a_session_of_the_store_meets::<L, M, I, Global, MemBlocks>();
}
