//! What `--help` and `--version` show.

/// What the help of a command says.
#[derive(Clone, Copy)]
pub struct Help {
    /// What the command does, in a line.
    pub about: &'static str,
    /// How it is called.
    pub usage: &'static str,
    /// What stands behind that.
    pub more: &'static str,
}

/// The version of the program.
pub const VERSION: &str = "1.0.0";

/// What help says of the program.
pub const ABOUT: &str = "A block server over mirrored flash dies, proved before it is built";

/// What help says behind the commands.
pub const STATUSES: &str =
    "Status: 0 where the work was done, 1 where it was refused or memory, input or output failed,
2 at a fault of the arguments, the settings or the input's text.";

/// What help says of the settings.
pub const ABOUT_SETTINGS: &str = "The settings of the array, a TOML file";

/// What help says of `--unclean`.
pub const ABOUT_UNCLEAN: &str =
    "Takes an array that was not closed, or whose images are not all there";

/// What help says of `--recover`.
pub const ABOUT_RECOVER: &str =
    "Takes an array that was not closed, if the images that were in use are all there";

/// What help says of `--array`.
pub const ABOUT_ARRAY: &str = "Serves the client the array of these settings, a TOML file";

/// What help says of `--json`.
pub const ABOUT_JSON: &str = "Prints one JSON document";

/// What help says of `--verbose`.
pub const ABOUT_VERBOSE: &str = "Tells of clients that come and go, on standard error";

/// What help says of `--status`.
pub const ABOUT_STATUS: &str = "Where others may ask by HTTP how the array is, as 127.0.0.1:9100";

/// What help says of `--plans`.
pub const ABOUT_PLANS: &str =
    "A file to which the plan of each batch is appended, which verify --log checks";

/// What help says of `--plans-every`.
pub const ABOUT_PLANS_EVERY: &str =
    "Appends the plan of one batch in N, 1 to 1000000, and not of each";

/// What help says of `--log`.
pub const ABOUT_LOG: &str = "A file of plans, each of which is checked";

/// What help says of the address of `status`.
pub const ABOUT_ADDRESS: &str = "The address that the server was given with --status";

/// What help says of `--watch`.
pub const ABOUT_WATCH: &str = "Asks each second, and shows the newest answer";

/// What help says of `--die`.
pub const ABOUT_DIE: &str = "The one die whose image is made, as a spare's: 0 to 63";

/// The help of `format`.
pub const FORMAT: Help = Help {
    about: "Makes the images of an array, which holds zeros",
    usage: "flasharr format SETTINGS [--die K]",
    more: "What the image files held is lost. Printed is `formatted N images`. With --die only the image of that
die is made, as a spare's.",
};

/// The help of `check`.
pub const CHECK: Help = Help {
    about: "Reads the images of an array, and tells what they hold",
    usage: "flasharr check SETTINGS [--unclean | --recover] [--json]",
    more: "Printed are the dies, those that are live and the spares; the epoch, and whether the array was closed
clean; the pages that were written, and those with fewer copies than there could be. Nothing is written.",
};

/// The help of `dump`.
pub const DUMP: Help = Help {
    about: "Reads the images of an array, and lists its written pages",
    usage: "flasharr dump SETTINGS [--unclean | --recover] [--json]",
    more: "Printed is, for each written page, its number and the die and slot of each copy. Nothing is written.",
};

/// The help of `serve`.
pub const SERVE: Help = Help {
    about: "Serves an array over NBD, until the line `stop` comes on standard input",
    usage: "flasharr serve SETTINGS [--unclean | --recover] [--verbose] [--status ADDRESS]
                      [--plans FILE [--plans-every N]]",
    more: "Printed is first `listening ADDRESS`, where clients can connect. The server also stops where the input ends
or fails. At the end follow the last 64 faults that took dies out, a line `fault die D cause C round R` for
each, where C is 1 slot not read, 2 slot not programmed, 3 block not erased, 4 header not read, 5 header not
written, 6 image not synced, 7 slot with wrong bytes; and then `closed clean`, or `closed unclean: K` with
status 1, where K is 1 busy, 2 a page is lost, 3 no die live.

With --status a page that shows how the array is can be had by HTTP at ADDRESS, as 127.0.0.1:9100. /metrics there is for
Prometheus, and /status.json for programs. Nobody is asked for a password: choose an address of a network that is trusted.

With --plans the text of each batch of reads and of its certificate is appended to FILE, which `verify --log` checks; with
--plans-every of one batch in N.",
};

/// The help of `status`.
pub const STATUS: Help = Help {
    about: "Asks a server that runs with --status how its array is",
    usage: "flasharr status ADDRESS [--watch]",
    more: "Printed is how the dies stand, the pages and copies, the load of the last second, and the last faults. Where the
server gives no answer `status: no answer` is printed, with status 1.",
};

/// The help of `plan`.
pub const PLAN: Help = Help {
    about: "Plans a batch of reads, given as a batch text on standard input, in the least number of rounds",
    usage: "flasharr plan < TEXT",
    more: "Printed is the text of a certificate, which `verify` takes behind the batch text: the rounds, a place
for each page, and the pages that show that no plan has fewer rounds.",
};

/// The help of `talk`.
pub const TALK: Help = Help {
    about: "Serves one NBD client, whose bytes are given on standard input as lines of hexadecimal digits",
    usage: "flasharr talk [--array SETTINGS [--unclean | --recover]] < LINES",
    more: "The client finds a store of 64 pages of 512 zero bytes under the name disk. Printed are the server's
bytes, in hexadecimal on one line, and `end E`, where E is 1 disconnected, 2 aborted, 3 closed for a wrong
message, 4 input ended, 5 read failed, 6 write failed, 7 no memory in the negotiation.

With --array the client finds the array of the settings, which nobody else uses meanwhile, and which is closed
behind it. Printed are then also the faults that took dies out, and how the array was closed, as `serve` does.",
};

/// The help of `verify`.
pub const VERIFY: Help = Help {
    about: "Checks a batch text and a certificate text, given one behind the other on standard input",
    usage: "flasharr verify < TEXTS
       flasharr verify --log FILE",
    more: "Printed is `least R`, or `refused K WORDS` with status 1 for the first rule that is broken.

With --log each plan of a file of plans is checked. Printed is `plans N least L refused K rounds R`: the plans, how many
are accepted as least and how many are refused, and the sum of the rounds of the accepted ones; with status 1 where K is
not 0. Which ones are refused is told on standard error.",
};
