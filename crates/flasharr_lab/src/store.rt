//! A store of one thread over an array.
ghost use Rattle.std.specs.Prelude.{◌≡◌, ◌≤◌};
ghost use Rattle.fa_core.specs.Array.{IsWhole};

use fa_core::Array;
use fa_core_calls::Events;
use fa_map_calls::Map;
use fa_mount::MountedArray;
use fa_solo::{Parts, Solo};
use flasharr_lab_lines::{Lab, Script, ask_all};
use flasharr_lab_parts::{DieImage, Heap, Yard};
use std::alloc::Allocator;
use std::mem::replace;
use std::sync::ledger::{Blank, Ledger};

/// Makes a store of an array and its images, does what lines ask of it up to one that is none of a store's, and takes both back.
pub(crate) fn over_store<'a, L: Ledger, M: Map + Drop, I: DieImage>(
    blank: Blank,
    script: &mut Script,
    lab: &mut Lab<'a>,
    yard: &mut Yard<'a, I>,
    mounted: MountedArray<M, &'a Heap>,
    rounds: u64,
) -> MountedArray<M, &'a Heap>
    requires name { blank.name ≡ L.name }
    requires parts { (blank.parts ≡ L.parts) × (blank.parts ≡ 257) }
    requires whole { IsWhole M.view mounted.array }
    requires window { (1 ≤ rounds) × (rounds ≤ 64) }
    ensures { IsWhole M.view result.array }
{
    let heap = lab.heap();
    let images = replace(&mut yard.images, Vec::new(heap));
    let (mounted, images) = ask_mounted::<L, M, I, &'a Heap>(
        heap, blank, script, lab, yard, mounted, images, rounds,
    );
    yard.images = images;
    mounted
}

/// Makes a store of an array and images over any allocator, does what lines ask of it up to one that is none of a store's, and gives both back. A
/// store over an array is proved where the allocator is a parameter, and not where one is named.
fn ask_mounted<'a, L: Ledger, M: Map + Drop, I: DieImage, A: Allocator + Copy>(
    alloc: A,
    blank: Blank,
    script: &mut Script,
    lab: &mut Lab<'a>,
    yard: &mut Yard<'a, I>,
    mounted: MountedArray<M, A>,
    images: Vec<I, A>,
    rounds: u64,
) -> (MountedArray<M, A>, Vec<I, A>)
    requires name { blank.name ≡ L.name }
    requires parts { (blank.parts ≡ L.parts) × (blank.parts ≡ 257) }
    requires whole { IsWhole M.view mounted.array }
    requires window { (1 ≤ rounds) × (rounds ≤ 64) }
    ensures { IsWhole M.view result.0.array }
{
    let MountedArray { array, dies } = mounted;
    let parts = Parts {
        array,
        dies,
        images,
    };
    let Parts {
        array,
        dies,
        images,
    } = ask_parts::<L, Array<M, A>, I, A>(alloc, blank, script, lab, yard, parts, rounds);
    (MountedArray { array, dies }, images)
}

/// Makes a store of these parts, does what lines ask of it up to one that is none of a store's, and gives the parts back.
fn ask_parts<'a, L: Ledger, E: Events<A>, I: DieImage, A: Allocator + Copy>(
    alloc: A,
    blank: Blank,
    script: &mut Script,
    lab: &mut Lab<'a>,
    yard: &mut Yard<'a, I>,
    parts: Parts<E, I, A>,
    rounds: u64,
) -> Parts<E, I, A>
    requires name { blank.name ≡ L.name }
    requires parts { (blank.parts ≡ L.parts) × (blank.parts ≡ 257) }
    requires whole { E.whole parts.array }
    requires window { (1 ≤ rounds) × (rounds ≤ 64) }
    ensures { E.whole result.array }
{
    let start = lab.tools.meter.start();
    let made = Solo::<L, E, I, A>::new(alloc, blank, parts, rounds);
    lab.tools.meter.stop(start);
    match made {
        Ok(mut store) => {
            lab.tools.output.word("store");
            script.turn.done(&mut lab.tools);
            ask_all(script, lab, yard, &mut store);
            store.into_parts()
        }
        Err(parts) => {
            lab.tools.output.word("refused: out of memory");
            script.turn.done(&mut lab.tools);
            parts
        }
    }
}
