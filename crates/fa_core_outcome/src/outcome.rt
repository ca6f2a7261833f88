//! How a job ends.
use fa_image::ImageFault;
use fa_tag::Opened;

/// How a job of a die ended.
#[derive(Clone, Copy, PartialEq, Eq)]
pub enum Outcome {
    /// A slot was read, and this is what stands in it. Its payload is in the buffer beside the outcome.
    Read(Opened),
    /// A copy was programmed.
    Programmed,
    /// A copy was moved.
    Moved,
    /// A block was erased.
    Erased,
    /// The header was written.
    HeaderWritten,
    /// The image was synced.
    Synced,
    /// The image refused a call.
    Fault(ImageFault),
    /// What a move read was not the copy that it was to move.
    Wrong,
}
