//! How often streams are read and written.
ghost use Rattle.std.specs.Prelude.{◌≡◌, ◌+◌, ◌^◌, ◌<◌, ◌≤◌, ◌↔◌, IsTrue};

/// The most reads that are made, and the most writes.
const MAX_CALLS: u64 = 1 << 62;

/// How many reads and writes were made, at most 2^62 of each. Nothing else bounds a conversation with a
/// peer that never ends.
#[derive(Drop)]
pub struct Calls {
    /// How many reads.
    pub reads: u64,
    /// How many writes.
    pub writes: u64,
    pub ghost few_reads: { reads ≤ 2 ^ 62 },
    pub ghost few_writes: { writes ≤ 2 ^ 62 },
}

impl Calls {
    /// None yet.
    pub fn new() -> Calls
        ensures { (result.reads ≡ 0) × (result.writes ≡ 0) }
    {
        Calls {
            reads: 0,
            writes: 0,
        }
    }

    /// Counts a read, and answers whether it may be made.
    pub fn count_read(&mut self) -> bool
        ensures allowed { IsTrue result ↔ (self.old.reads < 2 ^ 62) }
        ensures counted { IsTrue result → self.new.reads ≡ self.old.reads + 1 }
        ensures no_fewer { self.old.reads ≤ self.new.reads }
        ensures writes { self.new.writes ≡ self.old.writes }
    {
        if self.reads >= MAX_CALLS {
            return false;
        }
        self.reads += 1;
        true
    }

    /// Counts a write, and answers whether it may be made.
    pub fn count_write(&mut self) -> bool
        ensures allowed { IsTrue result ↔ (self.old.writes < 2 ^ 62) }
        ensures counted { IsTrue result → self.new.writes ≡ self.old.writes + 1 }
        ensures no_fewer { self.old.writes ≤ self.new.writes }
        ensures reads { self.new.reads ≡ self.old.reads }
    {
        if self.writes >= MAX_CALLS {
            return false;
        }
        self.writes += 1;
        true
    }
}
