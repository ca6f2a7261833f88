//! The commands of requests that are counted.
ghost use Rattle.std.specs.Prelude.{◌≡◌, ◌<◌};
ghost use Rattle.fa_prog_counts.specs.Counting.{command_name, command_place};

/// A command that the store is asked for.
#[derive(Clone, Copy)]
pub enum Command {
    /// READ.
    Read,
    /// WRITE.
    Write,
    /// FLUSH.
    Flush,
    /// TRIM.
    Trim,
    /// WRITE_ZEROES.
    Zero,
}

/// All of them, each at its place.
pub const COMMANDS: [Command; 5] = [
    Command::Read,
    Command::Write,
    Command::Flush,
    Command::Trim,
    Command::Zero,
];

impl Command {
    /// What it is called.
    pub fn name(self) -> &'static str
        ensures { result.now ≡ command_name self }
    {
        match self {
            Command::Read => "read",
            Command::Write => "write",
            Command::Flush => "flush",
            Command::Trim => "trim",
            Command::Zero => "write_zeroes",
        }
    }

    /// Its place in a list that has one for each.
    pub(crate) fn place(self) -> usize
        ensures place { result ≡ command_place self }
        ensures few { result < 5 }
    {
        match self {
            Command::Read => 0,
            Command::Write => 1,
            Command::Flush => 2,
            Command::Trim => 3,
            Command::Zero => 4,
        }
    }
}
