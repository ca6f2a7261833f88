//! What every command has of the machine that it runs on: standard error and output, the file of the settings, the files of images, and those
//! that a server writes beside them: of the pages that were lost, and of plans.
#![tactic(auto)]

mod complaint;
mod host;
mod images;
mod lost;
mod lost_file;
mod lost_pages;
mod plan_file;
mod plan_tail;
pub mod printing;
mod settings_file;
mod watched;

pub use complaint::{complain, complain_of_call, tell};
pub use host::Host;
pub use images::{NotOpened, OpenImages, Opening, images_alone, open_images, tell_refused};
pub use lost_file::{
    keep_in, keep_lost_at_end, keep_or_tell, open_lost, remove_if_empty, tell_not_kept,
};
pub use lost_pages::LostPages;
pub use plan_file::{PlanFile, open_plans};
pub use settings_file::{NoSettings, refuse_settings, settings_at};
pub use watched::{Watched, clear};
