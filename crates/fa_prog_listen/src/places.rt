//! Where the images of a server belong, while some of them are worked with.
use fa_mount_headers::{Standing, place_of};
use fa_prog_counts::die_of;
use fa_types::Die;
use std::alloc::{AllocError, Global};

/// The images of a server, those that are worked with apart from their places.
#[derive(Drop)]
pub struct Parted<I: Drop> {
    /// The images of the dies that are live or spares, by the dies' numbers.
    pub manned: Vec<Option<I>>,
    /// These dies, those alone that have an image.
    pub dies: Vec<Die>,
    /// The places of all images, with the images of the others.
    pub places: ImagePlaces<I>,
}

/// Parts images, which are in the order in which they were opened, of an array whose dies stand so. The error is out of memory.
pub fn part_images<I: Drop>(
    global: Global,
    standings: &[Standing],
    images: Vec<I>,
) -> Result<Parted<I>, AllocError> {
    let mut laid = Laid::new(global, images)?;
    let mut lists = Lists::new(global, standings.len())?;
    for number in 0..standings.len() {
        lists.add(&mut laid, number, standings[number]);
    }
    let Lists {
        manned,
        dies,
        indexes,
    } = lists;
    Ok(Parted {
        manned,
        dies,
        places: ImagePlaces { indexes, laid },
    })
}

/// Lists by the dies' numbers, as they grow. There is memory for all dies.
#[derive(Drop)]
struct Lists<I: Drop> {
    manned: Vec<Option<I>>,
    dies: Vec<Die>,
    indexes: Vec<Option<usize>>,
}

impl<I: Drop> Lists<I> {
    /// Lists for so many dies. The error is out of memory.
    fn new(global: Global, count: usize) -> Result<Lists<I>, AllocError> {
        let dies = Vec::with_capacity(global, count)?;
        let indexes = Vec::with_capacity(global, count)?;
        let manned = Vec::with_capacity(global, count)?;
        Ok(Lists {
            manned,
            dies,
            indexes,
        })
    }

    /// Adds the die of this number, which stands so, and takes its image from its place.
    fn add(&mut self, laid: &mut Laid<I>, number: usize, standing: Standing) {
        let index = index_at_work(standing);
        let image = match index {
            Some(index) => laid.lift(index),
            None => None,
        };
        if image.is_some() {
            let _ = self.dies.push(die_of(number));
        }
        let _ = self.indexes.push(index);
        let _ = self.manned.push(image);
    }
}

/// The place of the image of a die that is live or a spare.
fn index_at_work(standing: Standing) -> Option<usize> {
    match standing {
        Standing::Live(_) | Standing::Spare(_) => place_of(standing),
        _ => None,
    }
}

/// Where the images of dies belong among all images.
#[derive(Drop)]
pub struct ImagePlaces<I: Drop> {
    /// The places, by the dies' numbers.
    indexes: Vec<Option<usize>>,
    /// The images that are in their places.
    laid: Laid<I>,
}

impl<I: Drop> ImagePlaces<I> {
    /// How many dies there are.
    pub fn dies(&self) -> usize {
        self.indexes.len()
    }

    /// Lays the image of the die of this number back in its place.
    pub fn lay(&mut self, die: usize, image: I) {
        if let Some(Some(index)) = self.indexes.get(die) {
            self.laid.lay(*index, image);
        }
    }

    /// The images, in the order in which they were opened.
    pub fn into_images(self) -> Vec<I> {
        self.laid.into_images()
    }
}

/// A place for each image, by the order in which they were opened.
#[derive(Drop)]
struct Laid<I: Drop> {
    /// The images that are in their places.
    laid: Vec<Option<I>>,
    /// Memory for all of them.
    images: Vec<I>,
}

impl<I: Drop> Laid<I> {
    /// All images, each in its place. There is memory for all. The error is out of memory.
    fn new(global: Global, images: Vec<I>) -> Result<Laid<I>, AllocError> {
        let memory = Vec::with_capacity(global, images.len())?;
        let mut laid = Vec::with_capacity(global, images.len())?;
        for image in images {
            let _ = laid.push(Some(image));
        }
        Ok(Laid {
            laid,
            images: memory,
        })
    }

    /// Lays an image back in its place.
    fn lay(&mut self, index: usize, image: I) {
        if let Some(place) = self.laid.get_mut(index) {
            *place = Some(image);
        }
    }

    /// Lifts an image from its place, if it is there.
    fn lift(&mut self, index: usize) -> Option<I> {
        match self.laid.get_mut(index) {
            Some(place) => place.take(),
            None => None,
        }
    }

    /// The images in their order.
    fn into_images(self) -> Vec<I> {
        let Laid { laid, mut images } = self;
        for place in laid {
            if let Some(image) = place {
                let _ = images.push(image);
            }
        }
        images
    }
}
