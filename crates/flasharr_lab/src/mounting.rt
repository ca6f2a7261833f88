//! Arrays that are made and mounted. The page map is named here, and in `scanning` and `image_lines`.
use crate::no_array::without_array;
use crate::owning::{own_made, own_mounted};
use crate::scanning::scan_together;
use crate::shape::{Shape, shape_of};
use fa_map::PageMap;
use fa_mount::mount;
use flasharr_lab_lines::{Lab, Script};
use flasharr_lab_parts::{DieImage, Yard, copies_of};
use flasharr_lab_words::{Begin, Wish, number_at};
use std::mem::replace;
use std::thread::Threads;

/// Does what all lines ask for, over images that are made as they say.
pub(crate) fn run_lines<'a, T: Threads + Sync, I: DieImage + Send>(
    threads: &T,
    script: &mut Script,
    lab: &mut Lab<'a>,
    yard: &mut Yard<'a, I>,
) {
    'lines: for _ in 0..u64::MAX {
        if !script.goes_on(&mut lab.tools) {
            break 'lines;
        }
        match script.turn.order.wish {
            Wish::Begin(Begin::ScanTogether) => {
                let numbers = script.turn.order.numbers.as_slice();
                scan_together(threads, numbers, yard.images.as_mut_slice(), &mut lab.tools);
                script.turn.done(&mut lab.tools);
            }
            Wish::Begin(Begin::Mount { unclean }) => mount_images(script, lab, yard, unclean),
            Wish::Begin(Begin::Alone) => make_array(script, lab, yard),
            _ => without_array(&mut script.turn, lab, yard),
        }
    }
}

/// Mounts the images, and does what lines ask of the array until it is dropped.
fn mount_images<'a, I: DieImage>(
    script: &mut Script,
    lab: &mut Lab<'a>,
    yard: &mut Yard<'a, I>,
    unclean: bool,
) {
    lab.desk.begin_anew();
    let copies = number_at(script.turn.order.numbers.as_slice(), 0);
    match copies_of(copies, yard.images.as_slice(), &mut lab.tools.output) {
        Some(copies) => {
            let start = lab.tools.meter.start();
            let made = mount(lab.heap(), yard.images.as_mut_slice(), copies, unclean);
            lab.tools.meter.stop(start);
            own_mounted(script, lab, yard, made);
        }
        None => script.turn.done(&mut lab.tools),
    }
}

/// Makes an array without images, and does what lines ask of it until it is dropped. The images that were there are dropped after it.
fn make_array<'a, I: DieImage>(script: &mut Script, lab: &mut Lab<'a>, yard: &mut Yard<'a, I>) {
    lab.desk.begin_anew();
    match shape_of(script.turn.order.numbers.as_slice()) {
        Some(shape) => {
            let _before = replace(&mut yard.images, Vec::new(lab.heap()));
            make_shape(script, lab, yard, shape);
        }
        None => script.turn.refuse(&mut lab.tools),
    }
}

/// Makes an array of a shape, and does what lines ask of it until it is dropped.
fn make_shape<'a, I: DieImage>(
    script: &mut Script,
    lab: &mut Lab<'a>,
    yard: &mut Yard<'a, I>,
    shape: Shape,
) {
    let made = PageMap::new(lab.heap(), shape.geometry);
    own_made(script, lab, yard, made, shape);
}
