//! What is done while no array is there.
use crate::image_lines::touch_images;
use crate::scanning::scan_alone;
use crate::shape::geometry_of;
use fa_types::Geometry;
use flasharr_lab_calls::do_free;
use flasharr_lab_lines::{Lab, Turn, do_bare};
use flasharr_lab_parts::{DieImage, Images, Tools, Yard, drop_image, new_images, swap};
use flasharr_lab_words::{Begin, Order, Output, Wish, index_of, number_at};

/// Does what a line asks for while no array is there.
pub(crate) fn without_array<'a, I: DieImage>(
    turn: &mut Turn,
    lab: &mut Lab<'a>,
    yard: &mut Yard<'a, I>,
) {
    match turn.order.wish {
        Wish::Begin(Begin::Images { is_old }) => make_images(turn, &mut lab.tools, yard, is_old),
        _ => {
            do_without_array(&turn.order, lab, yard);
            turn.done(&mut lab.tools);
        }
    }
}

/// Makes images in the place of those before.
fn make_images<'a, I: DieImage>(
    turn: &mut Turn,
    tools: &mut Tools<'a>,
    yard: &mut Yard<'a, I>,
    is_old: bool,
) {
    match geometry_of(turn.order.numbers.as_slice()) {
        Some(geometry) => {
            yard.geometry = Some(geometry);
            yard.images = images_of(geometry, tools, yard.folder, is_old);
            turn.done(tools);
        }
        None => turn.refuse(tools),
    }
}

/// Makes images of a geometry, and tells that. There are none where they are not had.
fn images_of<'a, I: DieImage>(
    geometry: Geometry,
    tools: &mut Tools<'a>,
    folder: &str,
    is_old: bool,
) -> Images<'a, I> {
    let heap = tools.heap();
    match new_images::<I>(tools.meter.rt, heap, folder, geometry, is_old) {
        Some(images) => {
            tools.output.word("made");
            images
        }
        None => {
            tools.output.word("refused: no images");
            Vec::new(heap)
        }
    }
}

/// Does what a line asks for that makes no images.
fn do_without_array<'a, I: DieImage>(order: &Order, lab: &mut Lab<'a>, yard: &mut Yard<'a, I>) {
    let Lab { tools, beside, .. } = lab;
    let numbers = order.numbers.as_slice();
    match order.wish {
        Wish::Begin(begin) => begin_with(begin, numbers, &mut yard.images, tools),
        Wish::Touch(deed) => touch_images(order, deed, tools, &mut yard.images),
        Wish::Bare(wish) => do_bare(wish, numbers, tools, yard),
        Wish::Free(wish) => do_free(order, wish, tools, beside),
        Wish::Ask(_) => tools.output.word("no store"),
        Wish::Make(_) | Wish::Show(_) | Wish::Work(_) => tools.output.word("no array"),
    }
}

/// Changes the list of images or scans them, and tells that.
fn begin_with<I: DieImage>(
    begin: Begin,
    numbers: &[u64],
    images: &mut Images<'_, I>,
    tools: &mut Tools<'_>,
) {
    let first = index_of(number_at(numbers, 0));
    let second = index_of(number_at(numbers, 1));
    match begin {
        Begin::Scan { unclean } => scan_alone(numbers, images.as_mut_slice(), tools, unclean),
        Begin::Swap => {
            let is_swapped = swap(images.as_mut_slice(), first, second);
            show_changed(is_swapped, "swapped", &mut tools.output);
        }
        Begin::Drop => {
            let is_dropped = drop_image(images, first);
            show_changed(is_dropped, "dropped", &mut tools.output);
        }
        _ => tools.output.word("left"),
    }
}

fn show_changed(is_changed: bool, word: &str, output: &mut Output) {
    output.word(if is_changed { word } else { "no die" });
}
