//! What a server is asked to do.
use fa_settings::Settings;
use std::alloc::Allocator;
use std::net::TcpListener;

/// Which array is to be served, and where.
#[derive(Drop)]
pub struct ServePlan<'a, A: Allocator> {
    /// Where clients connect.
    pub listener: &'a TcpListener,
    /// Where others may ask how the array is.
    pub looks: Option<&'a TcpListener>,
    pub settings: &'a Settings<A>,
    /// The path of the settings.
    pub path: &'a str,
    /// The places of the images among the settings' paths, in the order in which they were opened.
    pub places: &'a [usize],
    /// Clients that come and go are told on standard error.
    pub verbose: bool,
    /// The plan of each n-th batch is kept for who writes it.
    pub plans_every: Option<u64>,
}

/// What the threads of a server are told of its settings.
#[derive(Clone, Copy)]
pub struct ThreadPlan<'a> {
    /// The export's name.
    pub export: &'a str,
    /// How many clients are served at once.
    pub sessions: usize,
    /// How many bytes a page has.
    pub page_bytes: u32,
    /// How many copies each page is to have.
    pub copies: u32,
    /// Clients that come and go are told on standard error.
    pub verbose: bool,
    /// Others may ask how the array is.
    pub has_looks: bool,
}

impl<'a, A: Allocator> ServePlan<'a, A> {
    /// What the threads are told.
    pub fn threads(&self) -> ThreadPlan<'a> {
        let settings = self.settings;
        ThreadPlan {
            export: settings.export.as_str(),
            sessions: settings.sessions as usize,
            page_bytes: settings.geometry.page_bytes,
            copies: settings.copies.number,
            verbose: self.verbose,
            has_looks: self.looks.is_some(),
        }
    }
}
