//! Images of dies: a list of slots and a header, in a file or in memory, an image that fails on
//! demand and one that lies on demand, all under one contract. Only what makes an image takes memory.
#![tactic(auto)]

mod fault;
mod file_image;
mod fuse_image;
mod image;
pub mod laws;
mod mem_image;
mod shape;
mod wrong_image;

pub use fault::ImageFault;
pub use file_image::FileImage;
pub use fuse_image::FuseImage;
pub use image::Image;
pub use mem_image::MemImage;
pub use wrong_image::WrongImage;
