//! Why images are not mounted, and why one is not formatted.
ghost use Rattle.std.specs.Prelude.{◌≡◌};
ghost use Rattle.fa_mount_headers.specs.Fault.{mount_fault_number};

use fa_image::ImageFault;
use fa_types::Die;
use thiserror::Error;

/// Why images are not mounted: the first that applies, in the order 7 for headers, 1, 2 for the numbers of
/// arrays, 3, 4, 2 for masks, 5, 6, then 7 and 6 for slots; 8 at any point.
#[derive(Clone, Copy, Debug, Error)]
pub enum MountFault {
    /// Fault 1: the bytes of an image's header are those of no header. Such an image is left aside where
    /// an unclean array is mounted.
    #[error("header bad")]
    HeaderBad,
    /// Fault 2: two headers are of different arrays, or two of the greatest epoch have different masks.
    #[error("arrays differ")]
    ArraysDiffer,
    /// Fault 3: two headers have different geometries, a header has another one than its image, or the
    /// geometry has no room for the copies of each page.
    #[error("geometry differs")]
    GeometryDiffers,
    /// Fault 4: two headers name one die.
    #[error("die twice")]
    DieTwice,
    /// Fault 5: a die of the mask has no image, an older epoch, or no clean mark. Not where an unclean array
    /// is mounted.
    #[error("unclean")]
    Unclean,
    /// Fault 6: no header is that of a die in use, or no die of the mask is left.
    #[error("no die live")]
    NoDieLive,
    /// Fault 7: an image did not read what it was asked for. Where an unclean array is mounted, the image is
    /// left aside.
    #[error("image fault")]
    ImageFault,
    /// Fault 8: out of memory.
    #[error("no memory")]
    NoMemory,
}

impl MountFault {
    /// The fault's number, 1 to 8.
    pub fn number(self) -> u8
        ensures { result ≡ mount_fault_number self }
    {
        match self {
            MountFault::HeaderBad => 1,
            MountFault::ArraysDiffer => 2,
            MountFault::GeometryDiffers => 3,
            MountFault::DieTwice => 4,
            MountFault::Unclean => 5,
            MountFault::NoDieLive => 6,
            MountFault::ImageFault => 7,
            MountFault::NoMemory => 8,
        }
    }
}

/// A fault, with what an admin has to look for.
#[derive(Clone, Copy, Debug, Error)]
#[error("{fault}")]
pub struct MountRefused {
    /// Why the images are not mounted.
    pub fault: MountFault,
    /// Which image it is, from 0 in the list of images, where one is to blame.
    pub image: Option<usize>,
    /// Which die it is, where its number is known.
    pub die: Option<Die>,
}

impl MountRefused {
    ghost use Rattle.fa_mount_headers.specs.Rules.{refused};

    /// A fault for which no image and no die is to blame.
    pub fn of_nobody(fault: MountFault) -> MountRefused
        ensures { result ≡ refused fault }
    {
        MountRefused {
            fault,
            image: None,
            die: None,
        }
    }
}

/// An image that refused a call while it was formatted.
#[derive(Clone, Copy, Debug, Error)]
#[error("image {image}: {fault}")]
pub struct FormatFault {
    /// Which image it is, from 0 in the list of images.
    pub image: usize,
    /// Which call it refused.
    pub fault: ImageFault,
}
