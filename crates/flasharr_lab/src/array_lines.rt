//! Lines over an array.
ghost use Rattle.std.specs.Prelude.{◌≡◌, ◌≤◌, IfSome, true};
ghost use Rattle.fa_core.specs.Array.{IsWhole};

use crate::certified::plan_pages;
use crate::image_lines::touch_images;
use crate::jobs::{run_job_of, work_all};
use crate::looks::show_look;
use crate::making::run_event;
use fa_image::Image;
use fa_map_calls::Map;
use fa_mount::{CloseFault, MountedArray, close_clean};
use fa_types::Die;
use flasharr_lab_calls::do_free;
use flasharr_lab_lines::{Desk, Lab, Script, do_bare, make_job};
use flasharr_lab_parts::{DieImage, Heap, Tools, Yard};
use flasharr_lab_words::{MAX_DIES, Order, Output, Wish, Work, die_of, number_at, show_live};
use std::alloc::Allocator;

/// The most rounds that a window of the collector has.
const MAX_WINDOW_ROUNDS: u64 = 64;

/// Does what lines ask of an array, up to one by which it is dropped, or one that asks for a store of it: then how many rounds its windows
/// have.
pub(crate) fn over_array<'a, M: Map + Drop, I: DieImage>(
    script: &mut Script,
    lab: &mut Lab<'a>,
    yard: &mut Yard<'a, I>,
    mounted: &mut MountedArray<M, &'a Heap>,
) -> Option<u64>
    requires { IsWhole M.view mounted.old.array }
    ensures whole { IsWhole M.view mounted.new.array }
    ensures window { IfSome result (λ rounds. (1 ≤ rounds) × (rounds ≤ 64)) }
{
    'lines: for _ in 0..u64::MAX {
        if !script.goes_on(&mut lab.tools) {
            return None;
        }
        match script.turn.order.wish {
            Wish::Begin(_) => return None,
            Wish::Work(Work::Solo) if has_images(mounted, yard.images.len()) => {
                let rounds = number_at(script.turn.order.numbers.as_slice(), 0);
                if is_window(rounds) {
                    return Some(rounds);
                }
                lab.tools.output.word("no window");
            }
            _ => do_line(&script.turn.order, lab, yard, mounted),
        }
        script.turn.done(&mut lab.tools);
    }
    None
}

/// Whether there are images, `count` of them, and each live die has one.
fn has_images<M: Map + Drop, A: Allocator + Copy>(
    mounted: &MountedArray<M, A>,
    count: usize,
) -> bool {
    count > 0 && mounted.has_images(count)
}

/// Whether a window may have so many rounds.
fn is_window(rounds: u64) -> bool
    ensures { result ≡ true → (1 ≤ rounds) × (rounds ≤ 64) }
{
    rounds != 0 && rounds <= MAX_WINDOW_ROUNDS
}

/// Does what a line asks for.
fn do_line<'a, M: Map + Drop, I: DieImage>(
    order: &Order,
    lab: &mut Lab<'a>,
    yard: &mut Yard<'a, I>,
    mounted: &mut MountedArray<M, &'a Heap>,
)
    requires { IsWhole M.view mounted.old.array }
    ensures { IsWhole M.view mounted.new.array }
{
    let Lab {
        tools,
        desk,
        beside,
    } = lab;
    let numbers = order.numbers.as_slice();
    match order.wish {
        Wish::Make(event) => run_event(&mut mounted.array, tools, desk, event, numbers),
        Wish::Show(look) => show_look(&mounted.array, tools, desk, look, numbers),
        Wish::Work(work) => do_work(mounted, &mut yard.images, tools, desk, work, numbers),
        Wish::Touch(deed) => touch_images(order, deed, tools, &mut yard.images),
        Wish::Bare(wish) => do_bare(wish, numbers, tools, yard),
        Wish::Free(wish) => do_free(order, wish, tools, beside),
        Wish::Ask(_) => tools.output.word("no store"),
        Wish::Begin(_) => {}
    }
}

/// Does what a line asks of an array over its images.
fn do_work<'a, M: Map + Drop, I: Image>(
    mounted: &mut MountedArray<M, &'a Heap>,
    images: &mut [I],
    tools: &mut Tools<'a>,
    desk: &mut Desk<'a>,
    work: Work,
    numbers: &[u64],
)
    requires { IsWhole M.view mounted.old.array }
    ensures { IsWhole M.view mounted.new.array }
{
    let die = die_of(number_at(numbers, 0));
    match work {
        Work::Make => make_job(mounted.image_of(die), images, tools, desk, die),
        Work::Run => {
            let _ = run_job_of(mounted, images, tools, desk, die);
        }
        Work::All => {
            let count = work_all(mounted, images, tools, desk);
            tools.output.pair("worked", count);
        }
        Work::Close => show_closing(close(mounted, images), &mut tools.output),
        Work::Places => show_image_places(mounted, &mut tools.output),
        Work::Plan => plan_pages(&mounted.array, tools, numbers),
        Work::Solo => tools.output.word("no image"),
    }
}

/// Closes the array over its images. One of which a live die has no image is told as busy.
fn close<M: Map + Drop, A: Allocator + Copy, I: Image>(
    mounted: &MountedArray<M, A>,
    images: &mut [I],
) -> Result<u64, CloseFault>
    requires { IsWhole M.view mounted.now.array }
{
    if mounted.has_images(images.len()) {
        close_clean(mounted, images)
    } else {
        Err(CloseFault::Busy)
    }
}

/// Tells which dies are marked, or why the array is not closed.
fn show_closing(closed: Result<u64, CloseFault>, output: &mut Output) {
    match closed {
        Ok(mask) => {
            output.word("closed");
            show_live(mask, output);
        }
        Err(CloseFault::Lost(page)) => {
            output.refusal(&CloseFault::Lost(page));
            output.number(page.0);
        }
        Err(fault) => output.refusal(&fault),
    }
}

/// Tells where the image of each die stands.
fn show_image_places<M: Map + Drop, A: Allocator + Copy>(
    mounted: &MountedArray<M, A>,
    output: &mut Output,
) {
    output.word("places");
    for die in 0..MAX_DIES {
        show_image_place(mounted, Die(die as u8), output);
    }
}

/// Tells where the image of a die stands, if the array has the die.
fn show_image_place<M: Map + Drop, A: Allocator + Copy>(
    mounted: &MountedArray<M, A>,
    die: Die,
    output: &mut Output,
) {
    if mounted.array.is_die(die) {
        match mounted.image_of(die) {
            Some(place) => output.number(place as u64),
            None => output.word("-"),
        }
    }
}
