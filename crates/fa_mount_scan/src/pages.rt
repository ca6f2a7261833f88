//! The pages of a mounted array that were ever written, and where their current copies stand.
ghost use Rattle.std.specs.Prelude.{◌≡◌, ◌≤◌, length};
ghost use Rattle.std.specs.Iterator.{YieldsFirst, item_count};
ghost use Rattle.fa_mount_scan.specs.Pages.{written_pages};

use crate::mounted::Mounted;
use fa_machine::Version;
use fa_map_calls::Map;
use fa_types::{Die, Page, Slot};
use std::alloc::Allocator;
use std::iter::FusedIterator;
use std::marker::Model;

/// The pages of an array that were ever written, the pages rising. It is seen as the list of those that are
/// left. Each page of the array is looked up once.
#[derive(Drop)]
pub struct Pages<'a, M: Map> {
    map: &'a M,
    // The next page that is looked up.
    next: u64,
}

impl<'a, M: Map> Model for Pages<'a, M> {
    ghost use Rattle.std.specs.Prelude.{◌≤◌, List};
    ghost use Rattle.fa_mount_scan.specs.Pages.{Written, written_from};

    ghost Value = { List Written };

    ghost view = { λ pages. written_from (M.view pages.map.now) pages.next };

    ghost invariant = { λ pages. pages.next ≤ (M.view pages.map.now).geometry.pages };
}

/// A page that was written.
#[derive(Drop)]
pub struct WrittenPage<'a, M: Map> {
    /// The page.
    pub page: Page,
    /// Its last write.
    pub version: Version,
    map: &'a M,
}

impl<'a, M: Map> Model for WrittenPage<'a, M> {
    ghost use Rattle.std.specs.Prelude.{◌<◌};
    ghost use Rattle.fa_mount_scan.specs.Pages.{Written, places_of};

    ghost Value = { Written };

    ghost view = { λ written. record {
      page = written.page;
      version = written.version;
      places = places_of (M.view written.map.now) written.page.0;
    } };

    ghost invariant = { λ written. written.page.0 < (M.view written.map.now).geometry.pages };
}

/// The places of the current copies of a page, the dies rising. It is seen as the list of those that are left.
/// Each takes one step along the page's copies.
#[derive(Drop)]
pub struct Places<'a, M: Map> {
    map: &'a M,
    page: Page,
    // The next place, if there is one more.
    next: Option<(Die, Slot)>,
}

impl<'a, M: Map> Model for Places<'a, M> {
    ghost use Rattle.std.specs.Prelude.{◌≡◌, ◌<◌, List, Some, IfSome};
    ghost use Rattle.fa_types.specs.declared.numbers.Die.{Die};
    ghost use Rattle.fa_types.specs.declared.numbers.Slot.{Slot};
    ghost use Rattle.fa_machine.specs.Copies.{copy_on};
    ghost use Rattle.fa_mount_scan.specs.Pages.{places_left};

    ghost Value = { List (Die × Slot) };

    ghost view = { λ places. places_left (M.view places.map.now) places.page.0 places.next };

    ghost invariant = { λ places. (places.page.0 < (M.view places.map.now).geometry.pages)
        × IfSome places.next (λ copy. copy_on (M.view places.map.now) places.page.0 copy.0.0 ≡ Some copy.1.0) };
}

impl<M: Map + Drop, A: Allocator> Mounted<M, A> {
    /// The pages that were ever written, each with its last write and the places of its current copies. It
    /// takes no memory.
    pub fn pages(&self) -> Pages<'_, M>
        ensures written { result ≡ written_pages (M.view self.now.map) }
        ensures few { length result ≤ 1048576 }
    {
        Pages {
            map: &self.map,
            next: 0,
        }
    }
}

impl<'a, M: Map> Iterator for Pages<'a, M> {
    type Item = WrittenPage<'a, M>;

    ghost next_gives = { YieldsFirst (λ rest. rest) };

    ghost remaining = { item_count (λ rest. rest) };

    fn next(&mut self) -> Option<WrittenPage<'a, M>> {
        while self.next < self.map.geometry().pages {
            let page = Page(self.next);
            self.next += 1;
            if let Some(version) = self.map.version(page) {
                return Some(WrittenPage {
                    page,
                    version,
                    map: self.map,
                });
            }
        }
        None
    }
}

impl<'a, M: Map> FusedIterator for Pages<'a, M> {}

impl<'a, M: Map> WrittenPage<'a, M> {
    /// The places of the page's current copies, the dies rising. There is none where the page is lost.
    pub fn places(&self) -> Places<'a, M>
        ensures current { result ≡ self.now.places }
        ensures few { length result ≤ 64 }
    {
        Places {
            map: self.map,
            page: self.page,
            next: self.map.first_copy(self.page),
        }
    }
}

impl<'a, M: Map> Iterator for Places<'a, M> {
    type Item = (Die, Slot);

    ghost next_gives = { YieldsFirst (λ rest. rest) };

    ghost remaining = { item_count (λ rest. rest) };

    fn next(&mut self) -> Option<(Die, Slot)> {
        let (die, slot) = self.next?;
        self.next = self.map.next_copy(self.page, die, slot);
        Some((die, slot))
    }
}

impl<'a, M: Map> FusedIterator for Places<'a, M> {}
