//! Arrays that are owned: what lines ask of one, until it is dropped.
ghost use Rattle.std.specs.Prelude.{◌≡◌, IfOk};
ghost use Rattle.std.specs.FinMap.{empty, len};
ghost use Rattle.fa_core.specs.Array.{IsWhole};

use crate::array_lines::over_array;
use crate::seen::show_mounted;
use crate::shape::{Shape, array_over};
use crate::store::over_store;
use fa_map_calls::Map;
use fa_mount::MountedArray;
use fa_mount_headers::MountRefused;
use fa_shared::discard;
use flasharr_lab_lines::{Lab, Script};
use flasharr_lab_parts::{DieImage, Heap, Yard, show_unmounted};
use std::alloc::{AllocError, Allocator};
use std::marker::Brand;
use std::sync::ledger::Blank;

/// Does what lines ask of an array that was mounted until it is dropped, or tells why none was.
pub(crate) fn own_mounted<'a, M: Map + Drop, I: DieImage>(
    script: &mut Script,
    lab: &mut Lab<'a>,
    yard: &mut Yard<'a, I>,
    made: Result<MountedArray<M, &'a Heap>, MountRefused>,
)
    requires { IfOk made (λ mounted. IsWhole M.view mounted.array) }
{
    match made {
        Ok(mounted) => {
            show_mounted(&mounted.array, &mut lab.tools.output);
            script.turn.done(&mut lab.tools);
            own(script, lab, yard, mounted);
        }
        Err(refused) => {
            show_unmounted(&refused, &mut lab.tools.output);
            script.turn.done(&mut lab.tools);
        }
    }
}

/// Makes an array over a new page map, if there is one, and does what lines ask of it until it is dropped.
pub(crate) fn own_made<'a, M: Map + Drop, I: DieImage>(
    script: &mut Script,
    lab: &mut Lab<'a>,
    yard: &mut Yard<'a, I>,
    made: Result<M, AllocError>,
    shape: Shape,
)
    requires geometry { IfOk made (λ page_map. (M.view page_map).geometry ≡ shape.geometry) }
    requires unwritten { IfOk made (λ page_map. (M.view page_map).versions ≡ empty) }
    requires out { IfOk made (λ page_map. len (M.view page_map).live ≡ 0) }
{
    match without_images(lab.heap(), made, shape) {
        Ok(mounted) => {
            lab.tools.output.word("made");
            script.turn.done(&mut lab.tools);
            own(script, lab, yard, mounted);
        }
        Err(_) => {
            lab.tools.output.word("refused: out of memory");
            script.turn.done(&mut lab.tools);
        }
    }
}

/// The array of a shape over a new page map, with no images. The error is out of memory.
fn without_images<'a, M: Map + Drop>(
    heap: &'a Heap,
    made: Result<M, AllocError>,
    shape: Shape,
) -> Result<MountedArray<M, &'a Heap>, AllocError>
    requires geometry { IfOk made (λ page_map. (M.view page_map).geometry ≡ shape.geometry) }
    requires unwritten { IfOk made (λ page_map. (M.view page_map).versions ≡ empty) }
    requires out { IfOk made (λ page_map. len (M.view page_map).live ≡ 0) }
    ensures { IfOk result (λ mounted. IsWhole M.view mounted.array) }
{
    let array = array_over(heap, made?, shape)?;
    Ok(MountedArray {
        array,
        dies: Vec::new(heap),
    })
}

/// Does what lines ask of an array and of stores of it until it is dropped. Each array ends here.
fn own<'a, M: Map + Drop, I: DieImage>(
    script: &mut Script,
    lab: &mut Lab<'a>,
    yard: &mut Yard<'a, I>,
    mounted: MountedArray<M, &'a Heap>,
)
    requires { IsWhole M.view mounted.array }
{
    let mut mounted = mounted;
    'stores: for _ in 0..u64::MAX {
        match over_array(script, lab, yard, &mut mounted) {
            Some(rounds) => {
                let blank = Blank::new(257);
                mounted = over_store::<Brand, M, I>(blank, script, lab, yard, mounted, rounds);
            }
            None => break 'stores,
        }
    }
    give_up(mounted);
}

/// An array over any allocator is given up.
fn give_up<M: Map + Drop, A: Allocator + Copy>(mounted: MountedArray<M, A>) {
    let MountedArray { array, .. } = mounted;
    discard(array);
}
