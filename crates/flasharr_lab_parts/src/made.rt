//! Images in files and in memory, as they are made.
use fa_image::{FileImage, Image, MemImage};
use fa_types::Geometry;
use std::alloc::{AllocError, Global};
use std::io;
use std::path::Path;

/// An image that can be made of nothing.
pub trait Made: Image {
    /// An image of this geometry, in a file of this name in a folder if it is one in a file.
    fn new_image(
        rt: &HostRuntime,
        folder: &str,
        name: &str,
        geometry: Geometry,
    ) -> io::Result<Self>;

    /// How many programs met a slot that was not erased, as far as that is counted.
    fn programs_over(&self) -> u64;
}

impl Made for MemImage {
    fn new_image(
        rt: &HostRuntime,
        _folder: &str,
        _name: &str,
        geometry: Geometry,
    ) -> io::Result<MemImage> {
        Ok(MemImage::new(rt.alloc(), geometry)?)
    }

    fn programs_over(&self) -> u64 {
        self.overwrites()
    }
}

impl Made for FileImage {
    fn new_image(
        rt: &HostRuntime,
        folder: &str,
        name: &str,
        geometry: Geometry,
    ) -> io::Result<FileImage> {
        let path = path_in(rt.alloc(), folder, name)?;
        FileImage::create(rt, Path::new(path.as_str()), geometry)
    }

    fn programs_over(&self) -> u64 {
        0
    }
}

/// The path of a file in a folder. The error is out of memory.
fn path_in(alloc: Global, folder: &str, name: &str) -> Result<String, AllocError> {
    format!(in alloc; "{folder}/{name}")
}
