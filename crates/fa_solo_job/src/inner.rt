//! What a store of one thread owns.
ghost use Rattle.std.specs.Prelude.{◌≡◌, ◌+◌, true, IfErr, IfOk, length};
ghost use Rattle.fa_mount.specs.Standings.{place_on};

use fa_core_calls::Events;
use fa_faults::Faults;
use fa_image::Image;
use fa_mount_headers::{Standing, place_of};
use fa_shared_lock::{Locked, Seat};
use fa_types::{Die, Geometry, TAG_BYTES};
use std::alloc::{AllocError, Allocator, Global};
use std::sync::ledger::{Blank, Ledger};

/// An array with the images that it was mounted from, in their order.
#[derive(Drop)]
pub struct Parts<E: Events<A>, I: Image, A: Allocator + Copy = Global> {
    /// The array.
    pub array: E,
    /// The places of its dies' images in the list.
    pub dies: Vec<Standing, A>,
    /// The images.
    pub images: Vec<I, A>,
}

/// An array that nobody else uses, with its images and what their jobs want.
#[derive(Drop)]
pub struct Inner<L: Ledger, E: Events<A>, I: Image, A: Allocator + Copy> {
    /// Where memory for requests comes from.
    pub alloc: A,
    /// The array.
    pub locked: Locked<L, E, A>,
    /// The one seat of the array.
    pub seat: Seat<L>,
    /// The places of the dies' images.
    pub dies: Vec<Standing, A>,
    /// The images, in the order in which they were mounted.
    pub images: Vec<I, A>,
    /// A slot's bytes.
    pub scratch: Vec<u8, A>,
    /// A page's bytes.
    pub buffer: Vec<u8, A>,
    /// The last faults that took dies out.
    pub faults: Faults<A>,
    /// How many rounds a window of the collector has, 1 to 64.
    pub window_rounds: u64,
}

/// Memory for the jobs of dies: a slot's bytes, a page's, and the faults that they end with.
#[derive(Drop)]
struct Memory<A: Allocator> {
    scratch: Vec<u8, A>,
    buffer: Vec<u8, A>,
    faults: Faults<A>,
}

impl<L: Ledger, E: Events<A>, I: Image, A: Allocator + Copy> Inner<L, E, I, A> {
    ghost use Rattle.std.specs.Prelude.{◌≡◌, IfSome};
    ghost use Rattle.fa_solo_job.specs.Inner.{IsPlaced};

    /// An array and its images for one thread. Where memory is refused both are handed back.
    pub fn new(
        alloc: A,
        blank: Blank,
        parts: Parts<E, I, A>,
        window_rounds: u64,
    ) -> Result<Inner<L, E, I, A>, Parts<E, I, A>>
        requires name { blank.name ≡ L.name }
        requires parts { (blank.parts ≡ L.parts) × (blank.parts ≡ 257) }
        requires whole { E.whole parts.array }
        ensures core { IfOk result (λ inner. inner.locked.core ≡ E.core parts.array) }
        ensures number { IfOk result (λ inner. inner.locked.number ≡ E.number parts.array) }
        ensures dies { IfOk result (λ inner. inner.dies ≡ parts.dies) }
        ensures images { IfOk result (λ inner. inner.images ≡ parts.images) }
        ensures rounds { IfOk result (λ inner. inner.window_rounds ≡ window_rounds) }
        ensures refused { IfErr result (λ back. back ≡ parts) }
    {
        let Parts {
            array,
            dies,
            images,
        } = parts;
        let Ok(
            Memory {
                scratch,
                buffer,
                faults,
            },
        ) = memory_for(alloc, array.geometry().page_bytes)
        else {
            return Err(Parts {
                array,
                dies,
                images,
            });
        };
        match Locked::new(alloc, blank, array) {
            Ok(locked) => Ok(seated(
                alloc,
                locked,
                dies,
                images,
                Memory {
                    scratch,
                    buffer,
                    faults,
                },
                window_rounds,
            )),
            Err(array) => Err(Parts {
                array,
                dies,
                images,
            }),
        }
    }

    /// The array and its images.
    pub fn into_parts(self) -> Parts<E, I, A>
        ensures core { E.core result.array ≡ self.locked.core }
        ensures number { E.number result.array ≡ self.locked.number }
        ensures whole { E.whole result.array }
        ensures dies { result.dies ≡ self.dies }
        ensures images { result.images ≡ self.images }
    {
        let Inner {
            locked,
            dies,
            images,
            ..
        } = self;
        Parts {
            array: locked.into_array(),
            dies,
            images,
        }
    }

    /// The place of the image of a die, which is of the array's geometry. None where there is none.
    pub fn place(&self, die: Die) -> Option<usize>
        ensures { IfSome result (λ place. IsPlaced I.view self.now die.0 place) }
    {
        let place = place_at(self.dies.as_slice(), usize::from(die.0))?;
        if place >= self.images.len() {
            return None;
        }
        if !is_of(&self.images[place], self.geometry()) {
            return None;
        }
        Some(place)
    }

    /// The array's geometry.
    fn geometry(&self) -> Geometry
        ensures { result ≡ self.now.locked.core.page_map.geometry }
    {
        self.locked.array().geometry()
    }
}

/// Whether an image is of this geometry.
fn is_of<I: Image>(image: &I, geometry: Geometry) -> bool
    ensures { result ≡ true → (I.view image.now).geometry ≡ geometry }
{
    image.geometry() == geometry
}

/// The place of the image of a die. None where it has no image, or is none of the array.
fn place_at(dies: &[Standing], die: usize) -> Option<usize>
    ensures { result ≡ place_on dies.now die }
{
    match dies.get(die) {
        Some(standing) => place_of(*standing),
        None => None,
    }
}

/// Takes the one seat of an array that is locked for one thread.
fn seated<L: Ledger, E: Events<A>, I: Image, A: Allocator + Copy>(
    alloc: A,
    locked: Locked<L, E, A>,
    dies: Vec<Standing, A>,
    images: Vec<I, A>,
    memory: Memory<A>,
    window_rounds: u64,
) -> Inner<L, E, I, A>
    requires { locked.out ≡ 0 }
    ensures core { result.locked.core ≡ locked.core }
    ensures number { result.locked.number ≡ locked.number }
    ensures dies { result.dies ≡ dies }
    ensures images { result.images ≡ images }
    ensures rounds { result.window_rounds ≡ window_rounds }
{
    let mut locked = locked;
    let Some(seat) = locked.seat() else {
        unreachable!()
    };
    let Memory {
        scratch,
        buffer,
        faults,
    } = memory;
    Inner {
        alloc,
        locked,
        seat,
        dies,
        images,
        scratch,
        buffer,
        faults,
        window_rounds,
    }
}

/// Memory for the jobs of dies whose pages have so many bytes. The error is out of memory.
fn memory_for<A: Allocator + Copy>(alloc: A, page_bytes: u32) -> Result<Memory<A>, AllocError>
    ensures scratch { IfOk result (λ memory. length memory.scratch.items ≡ page_bytes + 64) }
    ensures buffer { IfOk result (λ memory. length memory.buffer.items ≡ page_bytes) }
{
    let page = page_bytes as usize;
    let scratch = vec![in alloc; 0u8; page + TAG_BYTES]?;
    let mut buffer = vec![in alloc; 0u8; page + TAG_BYTES]?;
    buffer.truncate(page);
    let faults = Faults::new(alloc)?;
    Ok(Memory {
        scratch,
        buffer,
        faults,
    })
}
