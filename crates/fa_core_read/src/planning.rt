//! Plans of the pages of a list.
ghost use Rattle.std.specs.Prelude.{◌≡◌, ◌<◌, ◌≤◌, true, false, find, length, map, IfOk, None};
ghost use Rattle.std.specs.List.{All};
ghost use Rattle.fa_core_bookings.specs.Bookings.{calendar_of};
ghost use Rattle.fa_machine.specs.Copies.{is_lost};
ghost use Rattle.fa_machine.specs.Reading.{IsPlanned, is_late as rule_late, to_read};
ghost use Rattle.fa_machine.specs.Step.{is_distinct};
ghost use Rattle.fa_core_calls.specs.Answers.{IsHandedOut, planned_of};

use crate::planner::Planner;
use fa_core_bookings::Bookings;
use fa_core_read_pages::list_written;
use fa_core_state::State;
use fa_map_calls::Map;
use fa_plan::{Planned, plan_in};
use fa_types::Page;
use std::alloc::{AllocError, Allocator};

/// Whether too few rounds are left to plan in.
pub fn is_late<A: Allocator + Clone>(bookings: &Bookings<A>) -> bool
    ensures { result ≡ rule_late (calendar_of bookings.now) }
{
    bookings.now().0 > (1 << 56) - (1 << 24)
}

/// A plan of those of these pages that have bytes on their dies, in the least number of rounds from the current one. The pages are at
/// most 1,024, no two the same, and none of them is lost. The error is out of memory.
pub fn plan_written<M: Map, A: Allocator + Copy>(
    alloc: A,
    planner: &mut Planner<A>,
    state: &State<M, A>,
    pages: &[Page],
) -> Result<Planned<A>, AllocError>
    requires inside { All (λ page. page.0 < (M.view state.now.page_map).geometry.pages) pages.now }
    requires distinct { is_distinct (map (λ page. page.0) pages.now) ≡ true }
    requires few { length pages.now ≤ 1024 }
    requires held { find (is_lost (M.view state.now.page_map)) (map (λ page. page.0) pages.now) ≡ None }
    requires early { rule_late (calendar_of state.now.bookings) ≡ false }
    ensures planned { IfOk result (λ planned. IsPlanned (M.view state.now.page_map) (calendar_of state.now.bookings)
        (to_read (M.view state.now.page_map) (map (λ page. page.0) pages.now)) (planned_of planned)) }
    ensures handed { IfOk result (λ planned. IsHandedOut
        (length (to_read (M.view state.now.page_map) (map (λ page. page.0) pages.now))) planned) }
{
    list_written(&state.page_map, pages, &mut planner.entries)?;
    plan_in(
        alloc,
        &mut planner.workspace,
        &planner.entries,
        &state.bookings,
    )
}
