//! The names of lines.
use crate::order::{Ask, Bare, Begin, Deed, Ending, Event, Free, Look, Wish, Work};
use crate::words::Words;

/// Stands for any number of numbers.
const ANY: usize = usize::MAX;

/// The names of lines that end with a text, each with whether a number stands before it.
pub(crate) static TEXTS: [(&str, bool, Wish); 7] = [
    ("store write fua", true, Wish::Ask(Ask::Write { fua: true })),
    ("store write", true, Wish::Ask(Ask::Write { fua: false })),
    ("write header", true, Wish::Touch(Deed::WriteHeader)),
    ("say", false, Wish::Free(Free::Say)),
    ("digests", false, Wish::Free(Free::Digests)),
    ("plan text", false, Wish::Free(Free::PlanText)),
    ("check text", false, Wish::Free(Free::CheckText)),
];

/// The names of all other lines, each with how many numbers stand in it.
static NAMES: [(&str, usize, Wish); 101] = [
    (
        "images dies spares blocks slots bytes pages",
        6,
        Wish::Begin(Begin::Images { is_old: false }),
    ),
    (
        "images old dies spares blocks slots bytes pages",
        6,
        Wish::Begin(Begin::Images { is_old: true }),
    ),
    (
        "dies spares blocks slots bytes pages copies epoch last",
        9,
        Wish::Begin(Begin::Alone),
    ),
    ("mount", 1, Wish::Begin(Begin::Mount { unclean: false })),
    (
        "mount unclean",
        1,
        Wish::Begin(Begin::Mount { unclean: true }),
    ),
    ("leave", 0, Wish::Begin(Begin::Leave)),
    ("swap", 2, Wish::Begin(Begin::Swap)),
    ("drop", 1, Wish::Begin(Begin::Drop)),
    ("claim", 1, Wish::Make(Event::Claim)),
    ("release", 1, Wish::Make(Event::Release)),
    ("reserve", 2, Wish::Make(Event::Reserve)),
    ("reserve hole", 1, Wish::Make(Event::ReserveHole)),
    ("reserve fewer", 2, Wish::Make(Event::ReserveFewer)),
    ("commit", 1, Wish::Make(Event::Commit)),
    ("abandon", 1, Wish::Make(Event::Abandon)),
    ("admit", ANY, Wish::Make(Event::Admit)),
    ("replan", 1, Wish::Make(Event::Replan)),
    ("end", 1, Wish::Make(Event::EndBatch)),
    ("take", 1, Wish::Make(Event::Take)),
    ("done ok", 1, Wish::Make(Event::Done(Ending::Well))),
    ("done data", 2, Wish::Make(Event::Done(Ending::Data))),
    ("done other", 2, Wish::Make(Event::Done(Ending::OtherPage))),
    ("done erased", 1, Wish::Make(Event::Done(Ending::Erased))),
    ("done bad", 1, Wish::Make(Event::Done(Ending::Bad))),
    ("done wrong", 1, Wish::Make(Event::Done(Ending::Wrong))),
    ("done fault", 1, Wish::Make(Event::Done(Ending::Fault))),
    ("window", 2, Wish::Make(Event::Window)),
    ("advance", 0, Wish::Make(Event::Advance)),
    ("spare in", 1, Wish::Make(Event::SpareIn)),
    ("copy", 3, Wish::Make(Event::ReserveCopy)),
    ("commit copy", 0, Wish::Make(Event::CommitCopy)),
    ("flush begin", 0, Wish::Make(Event::FlushBegin)),
    ("flush state", 1, Wish::Make(Event::FlushState)),
    ("fold", 0, Wish::Make(Event::Fold)),
    ("array", 0, Wish::Show(Look::Array)),
    ("page", 1, Wish::Show(Look::Page)),
    ("die", 1, Wish::Show(Look::Die)),
    ("under", 1, Wish::Show(Look::Claim)),
    ("results", 1, Wish::Show(Look::Results)),
    ("next thin", 0, Wish::Show(Look::NextThin)),
    ("closed", 2, Wish::Show(Look::Closed)),
    ("closed without", 3, Wish::Show(Look::ClosedWithout)),
    ("counts", 0, Wish::Show(Look::Counts)),
    ("history", 0, Wish::Show(Look::History)),
    ("live", 0, Wish::Show(Look::Live)),
    ("dies", 0, Wish::Show(Look::Dies)),
    ("map", 0, Wish::Show(Look::Map)),
    ("all", 0, Wish::Show(Look::All)),
    ("make", 1, Wish::Work(Work::Make)),
    ("run", 1, Wish::Work(Work::Run)),
    ("work", 0, Wish::Work(Work::All)),
    ("close", 0, Wish::Work(Work::Close)),
    ("places", 0, Wish::Work(Work::Places)),
    ("plan", ANY, Wish::Work(Work::Plan)),
    ("solo", 1, Wish::Work(Work::Solo)),
    ("arm", 2, Wish::Touch(Deed::Arm)),
    ("rig", 3, Wish::Touch(Deed::Rig)),
    ("lie", 2, Wish::Touch(Deed::Lie)),
    ("put", 5, Wish::Touch(Deed::Put { is_old: false })),
    ("old slot", 5, Wish::Touch(Deed::Put { is_old: true })),
    ("slot", 2, Wish::Touch(Deed::Slot)),
    ("header", 1, Wish::Touch(Deed::Header)),
    ("read header", 1, Wish::Touch(Deed::ReadHeader)),
    ("overwrites", 0, Wish::Touch(Deed::Overwrites)),
    ("faults", 0, Wish::Touch(Deed::Faults)),
    ("try mount", 1, Wish::Touch(Deed::Try { unclean: false })),
    (
        "try mount unclean",
        1,
        Wish::Touch(Deed::Try { unclean: true }),
    ),
    ("try recover", 1, Wish::Touch(Deed::Recover)),
    ("scan", 1, Wish::Begin(Begin::Scan { unclean: false })),
    (
        "scan unclean",
        1,
        Wish::Begin(Begin::Scan { unclean: true }),
    ),
    ("scan together", 1, Wish::Begin(Begin::ScanTogether)),
    ("bare", 0, Wish::Bare(Bare::New)),
    ("bare read", 2, Wish::Bare(Bare::Read)),
    ("bare write", 3, Wish::Bare(Bare::Write)),
    ("bare erase", 2, Wish::Bare(Bare::Erase)),
    ("job read", 2, Wish::Bare(Bare::ReadJob)),
    ("job program", 2, Wish::Bare(Bare::ProgramJob)),
    ("store read", 2, Wish::Ask(Ask::Read { is_told: true })),
    ("store skim", 2, Wish::Ask(Ask::Read { is_told: false })),
    ("store fill", 3, Wish::Ask(Ask::Fill)),
    (
        "store zero",
        2,
        Wish::Ask(Ask::Zero {
            fua: false,
            hole: false,
        }),
    ),
    (
        "store zero fua",
        2,
        Wish::Ask(Ask::Zero {
            fua: true,
            hole: false,
        }),
    ),
    (
        "store hole",
        2,
        Wish::Ask(Ask::Zero {
            fua: false,
            hole: true,
        }),
    ),
    (
        "store hole fua",
        2,
        Wish::Ask(Ask::Zero {
            fua: true,
            hole: true,
        }),
    ),
    ("store trim", 2, Wish::Ask(Ask::Trim { fua: false })),
    ("store trim fua", 2, Wish::Ask(Ask::Trim { fua: true })),
    ("store flush", 0, Wish::Ask(Ask::Flush)),
    ("serve", 0, Wish::Ask(Ask::Serve)),
    ("nothing", 0, Wish::Free(Free::Nothing)),
    ("heap refuse", 1, Wish::Free(Free::Refuse)),
    ("heap full", 1, Wish::Free(Free::Full)),
    ("heap open", 0, Wish::Free(Free::Open)),
    ("heap", 0, Wish::Free(Free::Heap)),
    ("slots", 2, Wish::Free(Free::Slots)),
    ("seal", 0, Wish::Free(Free::Seal)),
    ("open", 0, Wish::Free(Free::OpenSlots { together: false })),
    (
        "open together",
        0,
        Wish::Free(Free::OpenSlots { together: true }),
    ),
    (
        "session read",
        2,
        Wish::Free(Free::Session {
            is_write: false,
            is_served: true,
        }),
    ),
    (
        "session write",
        2,
        Wish::Free(Free::Session {
            is_write: true,
            is_served: true,
        }),
    ),
    (
        "moves read",
        2,
        Wish::Free(Free::Session {
            is_write: false,
            is_served: false,
        }),
    ),
    (
        "moves write",
        2,
        Wish::Free(Free::Session {
            is_write: true,
            is_served: false,
        }),
    ),
];

/// What the words ask for. None where they are no line.
pub(crate) fn wish_of(words: &Words) -> Option<Wish> {
    for form in &NAMES {
        if form.0 == words.name.as_str() && (form.1 == ANY || form.1 == words.numbers.len()) {
            return Some(form.2);
        }
    }
    None
}
