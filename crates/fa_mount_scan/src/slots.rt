//! The slots of an array's images: how they are read, what was found in them, and the page map that they are.

pub(crate) mod content;
mod die;
mod dies;
mod map;
mod missing;
mod readings;
pub(crate) mod recover;
pub(crate) mod scan;
mod settle;
mod side_by_side;
