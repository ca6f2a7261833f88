//! How many copies a page has, and why images are not mounted.
use fa_image::Image;
use fa_mount_headers::MountRefused;
use fa_types::Copies;
use flasharr_lab_words::Output;

/// The number of copies of each page of an array on these images. None where there is no such array, which is told.
pub fn copies_of<I: Image>(number: u64, images: &[I], output: &mut Output) -> Option<Copies> {
    match images.first() {
        Some(first) => copies_on(number, first, output),
        None => {
            output.word("no die");
            None
        }
    }
}

/// The number of copies of each page of an array on images like this one. None where there is no such array, which is told.
fn copies_on<I: Image>(number: u64, image: &I, output: &mut Output) -> Option<Copies> {
    match Copies::new(u32::try_from(number).unwrap_or(u32::MAX), image.geometry()) {
        Ok(copies) => Some(copies),
        Err(fault) => {
            output.refusal(&fault);
            None
        }
    }
}

/// Why images are not mounted, and the place of the one that is to blame.
pub fn show_unmounted(refused: &MountRefused, output: &mut Output) {
    output.refusal(&refused.fault);
    if let Some(place) = refused.image {
        output.number(place as u64);
    }
}
