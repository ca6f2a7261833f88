//! The table of the dies of an array.
ghost use Rattle.std.specs.Prelude.{◌≡◌, ◌<◌, ℕ, length, map, string_bytes, option_map, option_and_then, IfOk};
ghost use Rattle.fa_prog_images.specs.Table.{AreRowsFrom, IsRow, good_header as good, header_of as header_in, image_of as image_at};
ghost use Rattle.fa_prog_images.specs.Table.{path_at, slots_on, slots_read as counts_read, standing_of as standing_in, state_text};

use fa_machine::Block;
use fa_map_calls::Map;
use fa_mount_headers::{Found, HeaderFound, Standing};
use fa_mount_scan::Mounted;
use fa_tag::Header;
use fa_types::Die;
use std::alloc::{AllocError, Allocator, Global};

/// How many slots of a die are in each state.
#[derive(Clone, Copy)]
pub struct SlotCounts {
    /// Erased slots.
    pub erased: u64,
    /// Slots that hold a current copy.
    pub current: u64,
    /// Stale slots.
    pub stale: u64,
}

/// What is known of a die.
#[derive(Clone, Copy)]
pub(crate) struct DieRow<'a> {
    /// The die.
    pub die: Die,
    /// The path of its image, if it has one.
    pub path: Option<&'a str>,
    /// live, out, spare or missing.
    pub state: &'static str,
    /// The header of its image.
    pub header: Option<Header>,
    /// Its slots, where they were read.
    pub slots: Option<SlotCounts>,
}

impl DieRow<'_> {
    /// The epoch of its image's header.
    pub(crate) fn epoch(&self) -> Option<u64>
        ensures { result ≡ option_map (λ header. header.epoch) self.now.header }
    {
        self.header.map(|header| header.epoch)
    }

    /// Whether its image has the clean mark.
    pub(crate) fn clean(&self) -> Option<bool>
        ensures { result ≡ option_map (λ header. header.clean) self.now.header }
    {
        self.header.map(|header| header.clean)
    }

    /// Its erased slots.
    pub(crate) fn erased(&self) -> Option<u64>
        ensures { result ≡ option_map (λ slots. slots.erased) self.now.slots }
    {
        self.slots.map(|slots| slots.erased)
    }

    /// Its slots that hold a current copy.
    pub(crate) fn current(&self) -> Option<u64>
        ensures { result ≡ option_map (λ slots. slots.current) self.now.slots }
    {
        self.slots.map(|slots| slots.current)
    }

    /// Its stale slots.
    pub(crate) fn stale(&self) -> Option<u64>
        ensures { result ≡ option_map (λ slots. slots.stale) self.now.slots }
    {
        self.slots.map(|slots| slots.stale)
    }
}

/// A row for each die of an array. The images were opened from the paths at these places, and these are their headers.
pub(crate) fn rows_of<'a, A: Allocator, M: Map + Drop>(
    global: Global,
    paths: &'a [String<A>],
    places: &[usize],
    founds: &[Found],
    mounted: &Mounted<M>,
) -> Result<Vec<DieRow<'a>>, AllocError>
    ensures each { IfOk result (λ rows. AreRowsFrom (map string_bytes paths.now) places.now founds.now mounted.now.dies.items
        (M.view mounted.now.map) 0 rows.items) }
    ensures all { IfOk result (λ rows. length rows.items ≡ (M.view mounted.now.map).geometry.dies) }
{
    let mut rows = Vec::new(global);
    for die in 0..mounted.map.geometry().dies {
        let row = row_of(paths, places, founds, mounted, Die(die as u8));
        rows.push(row)?;
    }
    Ok(rows)
}

/// What is known of a die.
fn row_of<'a, A: Allocator, M: Map + Drop>(
    paths: &'a [String<A>],
    places: &[usize],
    founds: &[Found],
    mounted: &Mounted<M>,
    die: Die,
) -> DieRow<'a>
    requires { die.0 < (M.view mounted.now.map).geometry.dies }
    ensures { IsRow (map string_bytes paths.now) places.now founds.now mounted.now.dies.items (M.view mounted.now.map) die.0 result }
{
    let standing = standing_of(mounted.dies.as_slice(), die);
    let index = image_of(standing);
    DieRow {
        die,
        path: path_of(paths, places, index),
        state: state_of(standing),
        header: header_of(founds, index),
        slots: slots_read(&mounted.map, die, standing),
    }
}

/// How a die stands.
fn standing_of(dies: &[Standing], die: Die) -> Standing
    ensures { result ≡ standing_in dies.now die.0 }
{
    match dies.get(usize::from(die.0)) {
        Some(standing) => *standing,
        None => Standing::Missing,
    }
}

/// How many slots of a die are in each state, where they were read.
fn slots_read<M: Map>(map: &M, die: Die, standing: Standing) -> Option<SlotCounts>
    requires { die.0 < (M.view map.now).geometry.dies }
    ensures { result ≡ counts_read (M.view map.now) die.0 standing }
{
    match standing {
        Standing::Live(_) | Standing::Spare(_) => Some(slots_of(map, die)),
        Standing::Missing | Standing::Out(_) => None,
    }
}

/// Which image is that of a die, if it has one.
fn image_of(standing: Standing) -> Option<usize>
    ensures { result ≡ image_at standing }
{
    match standing {
        Standing::Missing => None,
        Standing::Live(index) | Standing::Spare(index) | Standing::Out(index) => Some(index),
    }
}

/// The path of an image, by its index in the list of those that were opened from the paths at these places.
pub(crate) fn path_of<'a, A: Allocator>(
    paths: &'a [String<A>],
    places: &[usize],
    index: Option<usize>,
) -> Option<&'a str>
    ensures { option_map (λ path. path.now) result ≡ option_and_then (path_at (map string_bytes paths.now) places.now) index }
{
    let place = *places.get(index?)?;
    Some(paths.get(place)?.as_str())
}

/// The header of an image, by its index in the list of what was found.
fn header_of(founds: &[Found], index: Option<usize>) -> Option<Header>
    ensures { result ≡ option_and_then (header_in founds.now) index }
{
    match founds.get(index?) {
        Some(found) => good_header(found.header),
        None => None,
    }
}

/// The header that was found, if it is good.
fn good_header(header: HeaderFound) -> Option<Header>
    ensures { result ≡ good header }
{
    match header {
        HeaderFound::Good(header) => Some(header),
        HeaderFound::Unread | HeaderFound::Bad => None,
    }
}

/// How a die stands, in a word.
fn state_of(standing: Standing) -> &'static str
    ensures { result.now ≡ state_text standing }
{
    match standing {
        Standing::Missing => "missing",
        Standing::Live(_) => "live",
        Standing::Spare(_) => "spare",
        Standing::Out(_) => "out",
    }
}

/// How many slots of a die are in each state.
fn slots_of<M: Map>(map: &M, die: Die) -> SlotCounts
    requires { die.0 < (M.view map.now).geometry.dies }
    ensures { result ≡ slots_on (M.view map.now) die.0 }
{
    let mut counts = SlotCounts {
        erased: 0,
        current: 0,
        stale: 0,
    };
    for block in 0..map.geometry().blocks {
        let found = map.counts(die, Block(block));
        counts.erased += u64::from(found.erased);
        counts.current += u64::from(found.current);
        counts.stale += u64::from(found.stale);
    }
    counts
}
