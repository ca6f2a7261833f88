//! The collector's step as a job.
ghost use Rattle.std.specs.Prelude.{◌≡◌, ℕ, ◌*◌, ◌<◌, ◌&&◌, not, true, IfSome, None};
ghost use Rattle.std.specs.FinMap.{contains_key, get};
ghost use Rattle.fa_machine.specs.State.{is_live, used_at};
ghost use Rattle.fa_machine.specs.Taking.{begun, flight_of as rule_flight, move_from as rule_move, step_job as rule_step};
ghost use Rattle.fa_machine.specs.declared.jobs.Flight.TheVariants.{Move};
ghost use Rattle.fa_core_tables.specs.Dies.{by_die};
ghost use Rattle.fa_set.specs.Members.{members};
ghost use Rattle.fa_core_state.specs.Core.{core_of};
ghost use Rattle.fa_core_state.specs.Fitted.{IsFitted};
ghost use Rattle.fa_core_dispatch.specs.Begins.{IsOfCollector, MayBegin};
ghost use Rattle.fa_types.specs.Windows.{is_in_window};

use fa_collect::next_step;
use fa_core_state::State;
use fa_machine::{Block, CollectorStep, Flight, Version};
use fa_map_calls::Map;
use fa_types::{Die, Page, Slot, Window};
use std::alloc::Allocator;

/// The collector's next step, in a round of the die's window in which none was done.
pub fn step_job<M: Map, A: Allocator + Clone>(state: &State<M, A>, die: Die) -> Option<Flight>
    requires { die.0 < (M.view state.now.page_map).geometry.dies }
    ensures job { result ≡ rule_step (core_of M.view state.now) die.0 }
    ensures may { IfSome result (λ flight. MayBegin (core_of M.view state.now) die.0 flight) }
{
    if is_due(state, die) {
        flight_of(&state.page_map, die, next_step(&state.page_map, die))
    } else {
        None
    }
}

/// Whether this is a round of the die's window, and no step was done in it.
fn is_due<M: Map, A: Allocator + Clone>(state: &State<M, A>, die: Die) -> bool
    ensures { result ≡ (is_in_window (get (core_of M.view state.now).calendar.windows die.0) (core_of M.view state.now).calendar.round
        && not (contains_key (members state.now.stepped) die.0)) }
{
    is_inside(state.bookings.window(die), state.bookings.now().0)
        && !state.stepped.contains(die.0 as usize)
}

/// Whether the round is one of the window.
fn is_inside(window: Option<Window>, round: u64) -> bool
    ensures { result ≡ is_in_window window round }
{
    match window {
        None => false,
        Some(window) => window.first.0 <= round && round <= window.last.0,
    }
}

/// The step as a job.
fn flight_of<M: Map>(page_map: &M, die: Die, step: CollectorStep) -> Option<Flight>
    requires { die.0 < (M.view page_map.now).geometry.dies }
    ensures job { result ≡ rule_flight (M.view page_map.now) die.0 step }
    ensures may { IfSome result (λ flight. IsOfCollector (M.view page_map.now) flight) }
{
    match step {
        CollectorStep::MoveSlot(from) => move_from(page_map, die, from),
        CollectorStep::EraseBlock(block) => Some(Flight::Erase { block }),
        CollectorStep::Nothing => None,
    }
}

/// A move of what the slot holds, to the lowest erased slot outside its block. A slot that the die does not have holds nothing.
fn move_from<M: Map>(page_map: &M, die: Die, from: Slot) -> Option<Flight>
    requires { die.0 < (M.view page_map.now).geometry.dies }
    ensures job { result ≡ rule_move (M.view page_map.now) die.0 from.0 (used_at (M.view page_map.now) die.0 from.0) }
    ensures may { IfSome result (λ flight. IsOfCollector (M.view page_map.now) flight) }
{
    let geometry = page_map.geometry();
    if geometry.blocks * geometry.slots <= from.0 {
        return None;
    }
    match page_map.copy_in(die, from) {
        None => None,
        Some((page, version)) => {
            match page_map.slot_for_move(die, Block(from.0 / geometry.slots)) {
                None => None,
                Some(to) => Some(Flight::Move {
                    page,
                    version,
                    from,
                    to,
                }),
            }
        }
    }
}

/// The move is what the die is at, and its new slot is reserved.
pub fn begin_move<M: Map, A: Allocator + Clone>(
    state: &mut State<M, A>,
    die: Die,
    page: Page,
    version: Version,
    from: Slot,
    to: Slot,
)
    requires inside { die.0 < (M.view state.old.page_map).geometry.dies }
    requires live { is_live (M.view state.old.page_map) die.0 ≡ true }
    requires idle { get (by_die state.old.jobs) die.0 ≡ None }
    requires slot { to.0 < (M.view state.old.page_map).geometry.blocks * (M.view state.old.page_map).geometry.slots }
    requires fitted { IsFitted M.view state.old }
    ensures begun { (seat : ℕ) → core_of M.view state.new ≡ begun die.0 seat (Move page version from to) (core_of M.view state.old) }
    ensures fitted { IsFitted M.view state.new }
{
    state.page_map.reserve_slot(die, to);
    state.jobs.insert(
        die,
        Flight::Move {
            page,
            version,
            from,
            to,
        },
    );
}
