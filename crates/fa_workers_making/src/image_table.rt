//! The images of an array's dies, for all who work for the dies.
use crate::bench::{Bench, MadeJob};
use crate::job_memory::JobMemory;
use crate::moves::OpenedMove;
use crate::order::{Begun, Order};
use fa_core_outcome::Outcome;
use fa_image::Image;
use fa_jobs::Gate;
use fa_types::Die;
use std::alloc::{AllocError, Allocator, Global};
use std::sync::{Mutex, Wait};

/// The images of an array's dies, each behind a lock of its own. A die has one job at a time, and its image is locked for that job alone,
/// so nobody waits long for an image.
#[derive(Drop)]
pub struct ImageTable<I: Drop, A: Allocator = Global> {
    // By the numbers of the dies.
    images: Vec<Mutex<Option<I>>, A>,
    // Where jobs lie that somebody took for several dies at once.
    bench: Bench<A>,
}

impl<I: Drop, A: Allocator + Copy> ImageTable<I, A> {
    /// The images, by the numbers of their dies, with memory for a job of each. None where a die has none. A page of the array has so many
    /// bytes. The error is out of memory.
    pub fn new<B: Allocator>(
        alloc: A,
        images: Vec<Option<I>, B>,
        page_bytes: u32,
    ) -> Result<ImageTable<I, A>, AllocError> {
        let bench = Bench::new(alloc, images.len(), page_bytes)?;
        let mut locks = Vec::with_capacity(alloc, images.len())?;
        for image in images {
            locks.push(Mutex::new(image))?;
        }
        Ok(ImageTable {
            images: locks,
            bench,
        })
    }
}

impl<I: Drop, A: Allocator> ImageTable<I, A> {
    /// The bench of these dies.
    pub fn bench(&self) -> &Bench<A> {
        &self.bench
    }

    /// The image of a die, if it is there. Then it is there no more.
    pub fn lift(&mut self, die: Die) -> Option<I> {
        match self.images.get_mut(die.0 as usize) {
            Some(lock) => lock.get_mut().take(),
            None => None,
        }
    }
}

impl<I: Image + Drop, A: Allocator> ImageTable<I, A> {
    /// Makes the first call of a job on its die's image, which is locked meanwhile, and all of one that neither reads nor moves a page.
    /// What it has read is in the memory's scratch behind it and is not opened.
    pub(crate) fn begin<R: Wait, B: Allocator, G: Gate>(
        &self,
        rt: &R,
        order: &Order<B>,
        memory: &mut JobMemory<B>,
        gate: &G,
    ) -> Begun {
        let Some(lock) = self.images.get(order.die().0 as usize) else {
            return Begun::Over(order.refused());
        };
        let mut guard = lock.lock(rt);
        match &mut *guard {
            Some(image) => order.begin(image, &mut memory.scratch, &mut memory.buffer, gate),
            None => Begun::Over(order.refused()),
        }
    }

    /// Makes the second call of a move on its die's image, which is locked meanwhile.
    pub fn end_move<R: Wait, B: Allocator, G: Gate>(
        &self,
        rt: &R,
        opened: OpenedMove<B>,
        gate: &G,
    ) -> MadeJob<B> {
        let Some(lock) = self.images.get(opened.die().0 as usize) else {
            return opened.refused();
        };
        let mut guard = lock.lock(rt);
        match &mut *guard {
            Some(image) => opened.end(image, gate),
            None => opened.refused(),
        }
    }

    /// Makes the calls of a job on its die's image, which is locked meanwhile, and tells how the job ended. Where the die has no image the
    /// job is refused as the image would refuse it.
    pub fn run<R: Wait, B: Allocator, G: Gate>(
        &self,
        rt: &R,
        order: &Order<B>,
        memory: &mut JobMemory<B>,
        gate: &G,
    ) -> Outcome {
        let Some(lock) = self.images.get(order.die().0 as usize) else {
            return order.refused();
        };
        let mut guard = lock.lock(rt);
        match &mut *guard {
            Some(image) => order.run(image, &mut memory.scratch, &mut memory.buffer, gate),
            None => order.refused(),
        }
    }
}
