//! What the laboratory has beside an array: the heap that arrays are in, the meter of calls, images, and what lines do to these.
#![tactic(auto)]

mod copies;
mod die_image;
mod heap;
mod images;
mod made;
mod meter;
mod tools;
mod touching;

pub use copies::{copies_of, show_unmounted};
pub use die_image::{DieImage, Fused, Marks};
pub use heap::{Counted, Heap, new_heap};
pub use images::{ARRAY, Images, Yard, drop_image, new_images, swap};
pub use made::Made;
pub use meter::Meter;
pub use tools::Tools;
pub use touching::touch;
