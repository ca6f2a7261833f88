//! All that is counted while an array is served.
use crate::dies::DieCounts;
use crate::plans::PlanFileCounts;
use crate::sessions::{SessionCounts, Totals};
use fa_types::Die;
use std::alloc::{AllocError, Global};

/// What the threads of a server count, in memory that is taken before any of them is started.
#[derive(Drop)]
pub struct Counts {
    /// By the numbers of the sessions.
    sessions: Vec<SessionCounts>,
    /// By the numbers of the dies.
    dies: Vec<DieCounts>,
    /// Of the plans that are written for who checks them.
    plans: PlanFileCounts,
}

impl Counts {
    /// Nothing was counted yet, of so many sessions and dies. The error is out of memory.
    pub fn new(global: Global, sessions: usize, dies: usize) -> Result<Counts, AllocError> {
        let mut by_session = Vec::with_capacity(global, sessions)?;
        for _ in 0..sessions {
            by_session.push(SessionCounts::new(global)?)?;
        }
        let mut by_die = Vec::with_capacity(global, dies)?;
        for _ in 0..dies {
            by_die.push(DieCounts::new(global)?)?;
        }
        Ok(Counts {
            sessions: by_session,
            dies: by_die,
            plans: PlanFileCounts::new(),
        })
    }

    /// What the session of a number counts.
    pub fn session(&self, number: usize) -> Option<&SessionCounts> {
        self.sessions.get(number)
    }

    /// What is counted of a die's image.
    pub fn die(&self, die: Die) -> Option<&DieCounts> {
        self.dies.get(usize::from(die.0))
    }

    /// What is counted of the plans that are written for who checks them.
    pub fn plans(&self) -> &PlanFileCounts {
        &self.plans
    }

    /// What all sessions have counted.
    pub fn totals(&self) -> Totals {
        let mut totals = Totals::NONE;
        for session in &self.sessions {
            session.add_to(&mut totals);
        }
        totals
    }
}
