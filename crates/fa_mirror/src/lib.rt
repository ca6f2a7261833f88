//! Where copies go: the homes of a page, the dies that a write of it goes to, whether it is thin, and the die for one more
//! copy, with its slot there. Each is the array's rule of what the page map shows. No call takes memory.
#![tactic(auto)]

mod home;
mod order;
mod placement;
mod placing;
mod slot;
mod thin;

pub use home::homes;
pub use placement::{copies_asked, copy_place, first_dies, is_thin, targets};
pub use placing::Placing;
pub use slot::slot_on;
pub use thin::next_thin;
