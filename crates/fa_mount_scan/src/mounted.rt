//! An array as its images hold it, and its numbers.
ghost use Rattle.std.specs.Prelude.{◌≡◌, ◌<◌, if◌then◌else◌, count_by};
ghost use Rattle.fa_machine.specs.Maps.{below};
ghost use Rattle.fa_machine.specs.Placement.{is_thin as is_thin_page};
ghost use Rattle.fa_mount_scan.specs.Reported.{IsReportOf, is_spare as is_spare_die, is_written};

use fa_map_calls::Map;
use fa_mirror::is_thin;
use fa_mount_headers::Standing;
use fa_types::{Copies, Page};
use std::alloc::{Allocator, Global};

/// An array as its images hold it: its map, and how its dies stand. Nothing is under way.
#[derive(Drop)]
pub struct Mounted<M: Map + Drop, A: Allocator = Global> {
    /// The mounted content. The live dies are those of the mask that were read.
    pub map: M,
    /// The number of the array.
    pub array: [u8; 16],
    /// The greatest epoch of the headers.
    pub epoch: u64,
    /// Each die of the mask was closed clean in that epoch.
    pub clean: bool,
    /// How each die stands, by its number, with its place in the list of images.
    pub dies: Vec<Standing, A>,
}

/// The numbers of an array.
#[derive(Clone, Copy)]
pub struct Report {
    /// All dies of the geometry.
    pub dies: u32,
    /// Live dies.
    pub live: u32,
    /// Spares.
    pub spares: usize,
    /// The greatest epoch of the headers.
    pub epoch: u64,
    /// Each die of the mask was closed clean in that epoch.
    pub clean: bool,
    /// Pages that were ever written, holes among them.
    pub written: u64,
    /// Pages with a current copy, but with fewer than they are to have, and than there are live dies.
    pub thin: u64,
}

impl<M: Map + Drop, A: Allocator> Mounted<M, A> {
    /// The array's numbers, where each page is to have so many copies.
    pub fn report(&self, copies: Copies) -> Report
        ensures numbers { IsReportOf copies.number (M.view self.now.map) self.now.dies.items result }
        ensures epoch { result.epoch ≡ self.now.epoch }
        ensures clean { result.clean ≡ self.now.clean }
    {
        Report {
            dies: self.map.geometry().dies,
            live: self.map.live_dies(),
            spares: count_spares(self.dies.as_slice()),
            epoch: self.epoch,
            clean: self.clean,
            written: written_pages(&self.map),
            thin: thin_pages(&self.map, copies),
        }
    }
}

/// How many dies are spares.
fn count_spares(dies: &[Standing]) -> usize
    ensures { result ≡ count_by is_spare_die dies.now }
{
    dies.iter()
        .filter(|standing| matches!(**standing, Standing::Spare(_)))
        .count()
}

/// How many pages were ever written.
fn written_pages<M: Map>(map: &M) -> u64
    ensures { result ≡ count_by (is_written (M.view map.now)) (below (M.view map.now).geometry.pages) }
{
    let mut written = 0;
    for page in 0..map.geometry().pages {
        written += one_if(map.version(Page(page)).is_some());
    }
    written
}

/// How many pages are thin.
fn thin_pages<M: Map>(map: &M, copies: Copies) -> u64
    ensures { result ≡ count_by (is_thin_page copies.number (M.view map.now)) (below (M.view map.now).geometry.pages) }
{
    let mut thin = 0;
    for page in 0..map.geometry().pages {
        thin += one_if(is_thin(map, copies, Page(page)));
    }
    thin
}

/// One where it is so, and nothing otherwise.
fn one_if(is_so: bool) -> u64
    ensures { result ≡ (if is_so then 1 else 0) }
{
    if is_so { 1 } else { 0 }
}
