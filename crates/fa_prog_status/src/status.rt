//! How an array is at a moment.
ghost use Rattle.std.specs.Prelude.{◌≡◌};
ghost use Rattle.fa_prog_status.specs.Telling.{state_name};

use fa_prog_counts::Totals;
use fa_types::Die;

/// How a die stands.
#[derive(Clone, Copy)]
pub enum DieState {
    /// It is in use.
    Live,
    /// It is a spare that was not brought in yet.
    Spare,
    /// It is not in use, and has an image.
    Out,
    /// It has no image.
    Missing,
}

impl DieState {
    /// In a word.
    pub fn name(self) -> &'static str
        ensures { result.now ≡ state_name self }
    {
        match self {
            DieState::Live => "live",
            DieState::Spare => "spare",
            DieState::Out => "out",
            DieState::Missing => "missing",
        }
    }
}

/// How many slots of a die are in each state.
#[derive(Clone, Copy)]
pub struct SlotCounts {
    /// Erased slots.
    pub erased: u64,
    /// Slots that hold a current copy.
    pub current: u64,
    /// Stale slots.
    pub stale: u64,
}

impl SlotCounts {
    /// The numbers, each behind its word.
    pub(crate) fn numbers(self) -> [(&'static str, u64); 3] {
        [
            ("erased", self.erased),
            ("current", self.current),
            ("stale", self.stale),
        ]
    }
}

/// How a die is.
#[derive(Clone, Copy)]
pub struct DieStatus<'a> {
    /// The die.
    pub die: Die,
    /// The path of its image.
    pub path: Option<&'a str>,
    /// How it stands.
    pub state: DieState,
    /// Its header is not one of this epoch.
    pub is_behind: bool,
    /// Its slots, where it is live or a spare.
    pub slots: Option<SlotCounts>,
    /// Calls of its image that have ended, by their places.
    pub calls: [u64; 6],
    /// For how long the call under way has lasted, in milliseconds, where it lasts long.
    pub slow: Option<u64>,
}

/// What the plans of batches came to.
#[derive(Clone, Copy)]
pub struct PlanStatus {
    /// Batches that were planned.
    pub batches: u64,
    /// Their pages.
    pub pages: u64,
    /// The rounds that their plans take.
    pub rounds: u64,
    /// The rounds that they would have taken, had each page been read from its first holder.
    pub naive_rounds: u64,
}

/// What became of the plans that were to be written into a file.
#[derive(Clone, Copy)]
pub struct PlanFileStatus {
    /// They stand in the file.
    pub written: u64,
    /// The queue had no room for them, or there was no memory.
    pub dropped: u64,
    /// They do not fit the limits of the file.
    pub unfit: u64,
    /// The file could not be written.
    pub failed: u64,
}

impl PlanFileStatus {
    /// The numbers, each behind its word.
    pub(crate) fn numbers(self) -> [(&'static str, u64); 4] {
        [
            ("written", self.written),
            ("dropped", self.dropped),
            ("unfit", self.unfit),
            ("failed", self.failed),
        ]
    }
}

/// A die that went out.
#[derive(Drop)]
pub struct FaultStatus {
    /// The die.
    pub die: Die,
    /// The number of the cause.
    pub cause: u8,
    /// The cause in words.
    pub words: String,
    /// The round in which it went out.
    pub round: u64,
}

/// How an array is.
#[derive(Drop)]
pub struct Status<'a> {
    /// Its dies, by their numbers.
    pub dies: Vec<DieStatus<'a>>,
    /// How often the live dies have changed.
    pub epoch: u64,
    /// The current round.
    pub round: u64,
    /// What the plans of its batches came to.
    pub plans: PlanStatus,
    /// What became of those that were to be written into a file.
    pub plan_file: PlanFileStatus,
    /// What was counted while it was served.
    pub totals: Totals,
    /// How many clients are served.
    pub clients: u64,
    /// The last faults that took dies out, the oldest first.
    pub faults: Vec<FaultStatus>,
}

/// How many dies of an array stand how.
#[derive(Clone, Copy)]
pub(crate) struct StateCounts {
    pub(crate) live: u64,
    pub(crate) spare: u64,
    pub(crate) out: u64,
    pub(crate) missing: u64,
    /// Those that have a header that is not one of this epoch.
    pub(crate) behind: u64,
}

impl StateCounts {
    /// How many of these dies stand how.
    pub(crate) fn of(dies: &[DieStatus<'_>]) -> StateCounts {
        let mut counts = StateCounts {
            live: 0,
            spare: 0,
            out: 0,
            missing: 0,
            behind: 0,
        };
        for die in dies {
            counts.note(die);
        }
        counts
    }

    /// One more die.
    fn note(&mut self, die: &DieStatus<'_>) {
        match die.state {
            DieState::Live => self.live = self.live.saturating_add(1),
            DieState::Spare => self.spare = self.spare.saturating_add(1),
            DieState::Out => self.out = self.out.saturating_add(1),
            DieState::Missing => self.missing = self.missing.saturating_add(1),
        }
        if die.is_behind {
            self.behind = self.behind.saturating_add(1);
        }
    }
}
