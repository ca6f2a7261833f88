//! The files that a server has open.
use crate::host::ServerHost;
use fa_prog_host::{PlanFile, open_lost, open_plans, tell_not_kept};
use fa_settings::PlansFile;
use std::fs::File;

/// The files that a server has open.
#[derive(Drop)]
pub struct Held<I: Drop> {
    /// The images.
    pub images: Vec<I>,
    /// The file of lost pages.
    pub lost: File,
    /// The file of plans, where they are written.
    pub plans: Option<PlanFile>,
}

/// Opens the file of lost pages of the settings in the file of this path, and the file of plans, where there is to be one. None where
/// either is refused, which is told.
pub fn open_beside<R: ServerHost>(
    rt: &R,
    path: &str,
    plans: Option<PlansFile<'_>>,
) -> Option<(File, Option<PlanFile>)> {
    match open_lost(rt, path) {
        Ok(lost) => match plans {
            None => Some((lost, None)),
            Some(plans) => Some((lost, Some(open_plans(rt, plans.path)?))),
        },
        Err(refused) => {
            tell_not_kept(rt, path, &refused);
            None
        }
    }
}
