//! How many pages and slots of an array are in which state. They are counted in many holds of the array's lock, each of bounded time.
use crate::watched::{BLOCKS_A_HOLD, PAGES_A_HOLD, Watched};
use fa_prog_clients::Networked;
use fa_prog_status::{PageStatus, SlotCounts};
use fa_types::Die;
use std::alloc::{AllocError, Global};
use std::time::{Duration, Instant};

/// A census is taken anew once it is so many times as old as the time that it took.
const REST: u32 = 100;

/// What was counted of an array.
#[derive(Drop)]
pub(crate) struct Census {
    /// Its pages.
    pub(crate) pages: PageStatus,
    /// By the numbers of the dies: their slots.
    pub(crate) slots: Vec<SlotCounts>,
    /// When it was taken, and for how long.
    taken: Option<(Instant, Duration)>,
}

impl Census {
    /// Nothing was counted yet.
    pub(crate) fn new(global: Global) -> Census {
        Census {
            pages: PageStatus::new(global),
            slots: Vec::new(global),
            taken: None,
        }
    }

    /// Counts anew, unless that was just done: a census stands for a hundred times as long as it took. The error is out of memory.
    pub(crate) fn renew<R: Networked, W: Watched>(
        &mut self,
        rt: &R,
        watched: &W,
    ) -> Result<(), AllocError> {
        if self.is_fresh(rt) {
            return Ok(());
        }
        let began = Instant::now(rt).ok();
        self.taken = None;
        count_pages(watched, &mut self.pages)?;
        count_slots(watched, &mut self.slots)?;
        if let Some(began) = began {
            self.taken = began.elapsed(rt).ok().map(|took| (began, took));
        }
        Ok(())
    }

    /// Whether it was just taken.
    fn is_fresh<R: Networked>(&self, rt: &R) -> bool {
        let Some((began, took)) = self.taken else {
            return false;
        };
        match began.elapsed(rt) {
            Ok(age) => age < took.saturating_mul(REST),
            Err(_) => false,
        }
    }
}

/// Counts the pages. The error is out of memory.
fn count_pages<W: Watched>(watched: &W, counted: &mut PageStatus) -> Result<(), AllocError> {
    counted.clear();
    for hold in 0..watched.geometry().pages / PAGES_A_HOLD + 1 {
        watched.count_pages(hold.saturating_mul(PAGES_A_HOLD), counted)?;
    }
    Ok(())
}

/// Counts the slots of all dies. The error is out of memory.
fn count_slots<W: Watched>(watched: &W, counted: &mut Vec<SlotCounts>) -> Result<(), AllocError> {
    counted.clear();
    let geometry = watched.geometry();
    for number in 0..geometry.dies {
        counted.push(slots_of(watched, Die(number as u8), geometry.blocks))?;
    }
    Ok(())
}

/// The slots of a die of so many blocks.
fn slots_of<W: Watched>(watched: &W, die: Die, blocks: u32) -> SlotCounts {
    let mut counts = SlotCounts {
        erased: 0,
        current: 0,
        stale: 0,
    };
    for hold in 0..blocks / BLOCKS_A_HOLD + 1 {
        watched.count_slots(die, hold.saturating_mul(BLOCKS_A_HOLD), &mut counts);
    }
    counts
}
