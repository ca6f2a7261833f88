//! Why an image refused a call.
ghost use Rattle.std.specs.Prelude.{◌≡◌, Err};
ghost use Rattle.fa_image.specs.Image.{fault_number, one_more};

use thiserror::Error;

/// Which call an image refused. What was to be written may have been left with any bytes.
#[derive(Clone, Copy, Debug, PartialEq, Eq, Error)]
pub enum ImageFault {
    /// Fault 1: a slot was not read.
    #[error("a slot could not be read")]
    ReadSlot,
    /// Fault 2: a slot was not programmed, or not in full.
    #[error("a slot could not be programmed")]
    Program,
    /// Fault 3: a block was not erased, or not in full.
    #[error("a block could not be erased")]
    EraseBlock,
    /// Fault 4: the header was not read.
    #[error("the header could not be read")]
    ReadHeader,
    /// Fault 5: the header was not written in full, or may not be on its medium.
    #[error("the header could not be written")]
    WriteHeader,
    /// Fault 6: what was written may not be on its medium yet.
    #[error("the image could not be synced")]
    Sync,
}

impl ImageFault {
    /// The fault's number, 1 to 6.
    pub fn number(self) -> u8
        ensures { result ≡ fault_number self }
    {
        match self {
            ImageFault::ReadSlot => 1,
            ImageFault::Program => 2,
            ImageFault::EraseBlock => 3,
            ImageFault::ReadHeader => 4,
            ImageFault::WriteHeader => 5,
            ImageFault::Sync => 6,
        }
    }
}

/// Answers a fault and counts it.
pub(crate) fn refuse(fault: ImageFault, faults: &mut u64) -> Result<(), ImageFault>
    ensures fault { result ≡ Err fault }
    ensures counts { faults.new ≡ one_more faults.old }
{
    *faults = faults.wrapping_add(1);
    Err(fault)
}
