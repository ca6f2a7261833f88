//! The header's job.
ghost use Rattle.std.specs.Prelude.{◌≡◌, ◌+◌, ◌^◌, ◌<◌, ◌≤◌, if◌then◌else◌, IfSome};
ghost use Rattle.fa_machine.specs.State.{MapState, is_live};
ghost use Rattle.fa_machine.specs.Taking.{header_job as rule_header, mask_of as rule_mask};
ghost use Rattle.fa_core_state.specs.Core.{core_of};
ghost use Rattle.fa_core_dispatch.specs.Begins.{MayBegin};

use fa_core_state::State;
use fa_machine::Flight;
use fa_map_calls::Map;
use fa_types::Die;
use std::alloc::Allocator;

/// The header of a die that is behind.
pub fn header_job<M: Map, A: Allocator + Clone>(state: &State<M, A>, die: Die) -> Option<Flight>
    ensures job { result ≡ rule_header (core_of M.view state.now) die.0 }
    ensures may { IfSome result (λ flight. MayBegin (core_of M.view state.now) die.0 flight) }
{
    if state.behind.contains(die.0 as usize) {
        Some(Flight::Header {
            epoch: state.epoch,
            live: mask_of(&state.page_map),
        })
    } else {
        None
    }
}

/// The live dies as a header tells them: bit `d` stands for die `d`. It takes a look at each die.
fn mask_of<M: Map>(page_map: &M) -> u64
    ensures { result ≡ rule_mask (M.view page_map.now) }
{
    let mut mask = 0u64;
    for die in 0..page_map.geometry().dies {
        mask += bit_of(page_map, die);
    }
    mask
}

/// The bit that stands for a die, and 0 where it is not live.
fn bit_of<M: Map>(page_map: &M, die: u32) -> u64
    requires { die < 64 }
    ensures { result ≡ (if is_live (M.view page_map.now) die then 2 ^ die else 0) }
{
    if page_map.is_live(Die(die as u8)) {
        1 << die
    } else {
        0
    }
}
