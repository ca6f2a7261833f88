//! Plans that an array keeps while it is served.
ghost use Rattle.std.specs.Prelude.{◌≡◌};
ghost use Rattle.fa_core.specs.Array.{IsWhole, number_of, state_of};

use fa_core::Array;
use fa_map_calls::Map;
use std::alloc::Global;

/// The array, which keeps the plan of each n-th batch for who writes it, where that is wanted.
pub fn keeping<M: Map + Drop>(alloc: Global, array: Array<M>, plans_every: Option<u64>) -> Array<M>
    requires { IsWhole M.view array }
    ensures state { state_of M.view result ≡ state_of M.view array }
    ensures number { number_of result ≡ number_of array }
    ensures whole { IsWhole M.view result }
{
    let Some(every) = plans_every else {
        return array;
    };
    let mut array = array;
    array.log_plans(alloc, every);
    array
}
