//! The image of a die, which can be made to fail and to lie.
use crate::made::Made;
use fa_image::{FuseImage, Image, WrongImage};
use fa_types::Geometry;

/// What can be told of an image.
#[derive(Clone, Copy)]
pub struct Marks {
    /// How many calls failed at the second fuse.
    pub second_faults: u64,
    /// Whether a read gave wrong bytes.
    pub has_lied: bool,
    /// How many programs met a slot that was not erased, as far as that is counted.
    pub overwrites: u64,
}

/// The image of a die, of which one call can be made to fail at each of two fuses, and one read to give wrong bytes.
pub trait DieImage: Image {
    /// An erased image of this geometry, in a file of this name in a folder if it is one in a file. None where it is not had.
    fn make(rt: &HostRuntime, folder: &str, name: &str, geometry: Geometry) -> Option<Self>;

    /// The call of this number from now on fails, from 1, at the first fuse; with 0 none does.
    fn set_fuse(&mut self, call: u64);

    /// The same image, of which that call fails at the second fuse, and that read of a slot gives wrong bytes; with 0 none does. The first
    /// fuse is off, and the counts begin anew.
    fn rigged(self, call: u64, read: u64) -> Self;

    /// What can be told of it.
    fn marks(&self) -> Marks;
}

/// An image with two fuses that may lie.
pub type Fused<I> = FuseImage<FuseImage<WrongImage<I>>>;

impl<I: Made> DieImage for FuseImage<FuseImage<WrongImage<I>>> {
    fn make(rt: &HostRuntime, folder: &str, name: &str, geometry: Geometry) -> Option<Fused<I>> {
        let image = I::new_image(rt, folder, name, geometry).ok()?;
        Some(FuseImage::new(FuseImage::new(WrongImage::new(image))))
    }

    fn set_fuse(&mut self, call: u64) {
        self.arm(call);
    }

    fn rigged(self, call: u64, read: u64) -> Fused<I> {
        let mut lying = WrongImage::new(self.into_inner().into_inner().into_inner());
        lying.arm(read);
        let mut fused = FuseImage::new(lying);
        fused.arm(call);
        FuseImage::new(fused)
    }

    fn marks(&self) -> Marks {
        let second = self.inner();
        let lying = second.inner();
        Marks {
            second_faults: second.faults(),
            has_lied: lying.has_lied(),
            overwrites: lying.inner().programs_over(),
        }
    }
}
