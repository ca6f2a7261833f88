//! Where the clients of a server come, and what its threads share beside the array.
use crate::plan::ServePlan;
use fa_mount_headers::{Standing, place_of};
use fa_prog_clients::AcceptQueue;
use fa_prog_counts::Counts;
use fa_settings::Settings;
use std::alloc::{AllocError, Allocator, Global};
use std::net::TcpListener;

/// What the threads of a server share beside the array.
#[derive(Drop)]
pub struct Listening<'a> {
    /// Where clients connect.
    pub listener: &'a TcpListener,
    /// Where others may ask how the array is.
    pub looks: Option<&'a TcpListener>,
    /// Where clients wait for a session.
    pub accept_queue: AcceptQueue,
    /// What is counted.
    pub counts: Counts,
    /// What the dies' images are called, by the dies' numbers.
    pub paths: Vec<&'a str>,
    /// The paths of those that there are.
    pub image_paths: Vec<Option<&'a str>>,
    /// How many copies each page is to have.
    pub copies: u32,
    /// How many rounds a collector's window has.
    pub window_rounds: u64,
}

/// What the threads share for an array whose dies stand so. The error is out of memory.
pub fn listening_of<'a, A: Allocator>(
    global: Global,
    dies: &[Standing],
    plan: &ServePlan<'a, A>,
) -> Result<Listening<'a>, AllocError> {
    let settings = plan.settings;
    let image_paths = paths_of(global, dies, plan.places, settings)?;
    let paths = names_of(global, image_paths.as_slice())?;
    let sessions = settings.sessions as usize;
    let accept_queue = AcceptQueue::new(global, sessions)?;
    let counts = Counts::new(global, sessions, dies.len())?;
    Ok(Listening {
        listener: plan.listener,
        looks: plan.looks,
        accept_queue,
        counts,
        paths,
        image_paths,
        copies: settings.copies.number,
        window_rounds: u64::from(settings.window_rounds),
    })
}

/// What images of these paths are called. The error is out of memory.
fn names_of<'a>(global: Global, paths: &[Option<&'a str>]) -> Result<Vec<&'a str>, AllocError> {
    let mut names = Vec::with_capacity(global, paths.len())?;
    for path in paths {
        let _ = names.push(path.unwrap_or("an image"));
    }
    Ok(names)
}

/// The paths of the dies' images, by the dies' numbers. The error is out of memory.
fn paths_of<'a, A: Allocator>(
    global: Global,
    dies: &[Standing],
    places: &[usize],
    settings: &'a Settings<A>,
) -> Result<Vec<Option<&'a str>>, AllocError> {
    let mut paths = Vec::with_capacity(global, dies.len())?;
    for standing in dies {
        let _ = paths.push(path_of(*standing, places, settings));
    }
    Ok(paths)
}

/// The path of the image of a die that stands so, if it has one.
fn path_of<'a, A: Allocator>(
    standing: Standing,
    places: &[usize],
    settings: &'a Settings<A>,
) -> Option<&'a str> {
    let place = place_of(standing).and_then(|index| places.get(index));
    match place.and_then(|place| settings.images.get(*place)) {
        Some(path) => Some(path.as_str()),
        None => None,
    }
}
