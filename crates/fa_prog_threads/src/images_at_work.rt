//! The images of a server that are worked with.
use fa_mount_headers::Standing;
use fa_prog_counts::die_of;
use fa_prog_listen::{ImagePlaces, Parted, part_images};
use fa_types::Die;
use fa_workers_making::ImageTable;
use std::alloc::{AllocError, Global};

/// The images of a server, while some of them are worked with.
#[derive(Drop)]
pub(crate) struct ImagesAtWork<I: Drop> {
    /// The images of the dies that are live or spares.
    pub(crate) image_table: ImageTable<I>,
    /// These dies, those alone that have an image.
    pub(crate) dies: Vec<Die>,
    /// The places of all images, with the images of the others.
    places: ImagePlaces<I>,
}

/// Images in the order in which they were opened, of an array whose dies stand so and whose pages have so many bytes. The error is out of
/// memory.
pub(crate) fn images_at_work<I: Drop>(
    global: Global,
    standings: &[Standing],
    images: Vec<I>,
    page_bytes: u32,
) -> Result<ImagesAtWork<I>, AllocError> {
    let Parted {
        manned,
        dies,
        places,
    } = part_images(global, standings, images)?;
    let image_table = ImageTable::new(global, manned, page_bytes)?;
    Ok(ImagesAtWork {
        image_table,
        dies,
        places,
    })
}

/// The images again, in the order in which they were opened.
pub(crate) fn images_again<I: Drop>(images: ImagesAtWork<I>) -> Vec<I> {
    let ImagesAtWork {
        mut image_table,
        mut places,
        ..
    } = images;
    for die in 0..places.dies() {
        if let Some(image) = image_table.lift(die_of(die)) {
            places.lay(die, image);
        }
    }
    places.into_images()
}
