//! What a line asks for.
use crate::naming::{TEXTS, wish_of};
use crate::words::{Words, behind};
use std::alloc::{AllocError, Global};

/// How often a line may be done where it is timed.
pub const MAX_TIMES: u64 = 100_000;

/// What a line asks for, without its numbers.
#[derive(Clone, Copy)]
pub enum Wish {
    /// The array that was there is dropped, and maybe another one is made.
    Begin(Begin),
    /// One event of the array.
    Make(Event),
    /// A look at the array, which changes nothing.
    Show(Look),
    /// What is done with an array over its images.
    Work(Work),
    /// What is done to images, or a look at them.
    Touch(Deed),
    /// A call of a store, or a conversation over it.
    Ask(Ask),
    /// What is done with an image beside those of the array.
    Bare(Bare),
    /// What has no array.
    Free(Free),
}

/// What is made in place of the array that was there.
#[derive(Clone, Copy)]
pub enum Begin {
    /// Images are made, with headers of format 1 where they are old.
    Images { is_old: bool },
    /// An array without images is made.
    Alone,
    /// The images are mounted, also where the array was not closed if it is unclean.
    Mount { unclean: bool },
    /// Nothing is made.
    Leave,
    /// Two images change places.
    Swap,
    /// An image is dropped.
    Drop,
    /// The images' page map is made, in one thread.
    Scan { unclean: bool },
    /// The same with a thread for each image.
    ScanTogether,
}

/// An event.
#[derive(Clone, Copy)]
pub enum Event {
    Claim,
    Release,
    Reserve,
    ReserveHole,
    ReserveFewer,
    Commit,
    Abandon,
    Admit,
    Replan,
    EndBatch,
    Take,
    Done(Ending),
    Window,
    Advance,
    SpareIn,
    ReserveCopy,
    CommitCopy,
    FlushBegin,
    FlushState,
    Fold,
}

/// How a job ended.
#[derive(Clone, Copy)]
pub enum Ending {
    /// What is no read did its work.
    Well,
    /// A read gave the slot that was asked for.
    Data,
    /// A read gave a good slot with another page's tag.
    OtherPage,
    /// A read gave an erased slot.
    Erased,
    /// A read gave a damaged slot.
    Bad,
    /// A move read another slot than its copy.
    Wrong,
    /// The image refused a call.
    Fault,
}

/// A look.
#[derive(Clone, Copy)]
pub enum Look {
    Array,
    Page,
    Die,
    Claim,
    Results,
    NextThin,
    Closed,
    ClosedWithout,
    Counts,
    History,
    Live,
    Dies,
    Map,
    All,
}

/// What is done with an array over its images.
#[derive(Clone, Copy)]
pub enum Work {
    /// The calls of a die's job are made.
    Make,
    /// A die's job ends by what its calls came to.
    Run,
    /// Each die that has a job does it.
    All,
    /// The array is closed.
    Close,
    /// A look at where the dies' images stand.
    Places,
    /// Pages are planned, and nothing is admitted.
    Plan,
    /// A store of the array is begun.
    Solo,
}

/// What is done to images.
#[derive(Clone, Copy)]
pub enum Deed {
    /// A call is to fail.
    Arm,
    /// A call behind the first fuse is to fail, and a read is to give wrong bytes.
    Rig,
    /// A read is to give wrong bytes.
    Lie,
    /// A slot is written, in version 1 where it is old.
    Put { is_old: bool },
    /// A look at a slot.
    Slot,
    /// A look at a header.
    Header,
    /// The bytes of a header.
    ReadHeader,
    /// A header gets these bytes.
    WriteHeader,
    /// A look at how many programs met a slot that was not erased.
    Overwrites,
    /// A look at how often images refused and lied.
    Faults,
    /// The images are mounted, and what was mounted is dropped.
    Try { unclean: bool },
    /// The images are recovered, and what was recovered is dropped.
    Recover,
}

/// What is done with the image beside those of the array.
#[derive(Clone, Copy)]
pub enum Bare {
    /// It is made.
    New,
    /// Slots are read and hashed.
    Read,
    /// Pages are hashed and programmed.
    Write,
    /// Blocks are erased.
    Erase,
    /// Read jobs are made.
    ReadJob,
    /// Program jobs are made.
    ProgramJob,
}

/// A call of a store.
#[derive(Clone, Copy)]
pub enum Ask {
    /// Bytes are read, and told or not.
    Read { is_told: bool },
    Write { fua: bool },
    /// Pages of a number are written.
    Fill,
    Zero { fua: bool, hole: bool },
    Trim { fua: bool },
    Flush,
    /// The client that said something is served.
    Serve,
}

/// What has no array.
#[derive(Clone, Copy)]
pub enum Free {
    Nothing,
    /// A request for memory is refused.
    Refuse,
    /// Requests above a size are refused.
    Full,
    /// No request is refused.
    Open,
    /// A look at the heap.
    Heap,
    /// A client says more.
    Say,
    Digests,
    /// The batch of a text is planned.
    PlanText,
    /// The plan of the batch of a text is checked.
    CheckText,
    /// Room for slots is made.
    Slots,
    Seal,
    OpenSlots { together: bool },
    /// Requests are served, or their bytes moved without a session.
    Session { is_write: bool, is_served: bool },
}

/// A line: what it asks for, its numbers, what stands behind them where that is a text, and how often it is done where it is timed.
#[derive(Drop)]
pub struct Order {
    pub wish: Wish,
    pub numbers: Vec<u64>,
    pub text: String,
    pub times: Option<u64>,
}

impl Order {
    /// What asks for nothing.
    pub fn nothing(alloc: Global) -> Order {
        Order {
            wish: Wish::Free(Free::Nothing),
            numbers: Vec::new(alloc),
            text: String::new(alloc),
            times: None,
        }
    }

    /// What a line asks for. None where it is no line. The error is out of memory.
    pub fn of(alloc: Global, line: &str) -> Result<Option<Order>, AllocError> {
        match behind(line, "time") {
            Some(rest) => timed_order(alloc, rest),
            None => Order::once(alloc, line),
        }
    }

    /// What a line asks for that is not timed.
    fn once(alloc: Global, line: &str) -> Result<Option<Order>, AllocError> {
        for form in &TEXTS {
            if let Some(rest) = behind(line, form.0) {
                return if form.1 {
                    with_number_and_text(alloc, form.2, rest)
                } else {
                    with_text(alloc, form.2, Vec::new(alloc), rest)
                };
            }
        }
        with_numbers(alloc, line)
    }
}

/// What a line asks for that is timed: first how often it is done.
fn timed_order(alloc: Global, rest: &str) -> Result<Option<Order>, AllocError> {
    let (count, line) = rest.split_once(' ').unwrap_or((rest, ""));
    match count.parse::<u64>() {
        Ok(times) if 1 <= times && times <= MAX_TIMES => {
            let mut order = Order::once(alloc, line)?;
            if let Some(order) = &mut order {
                order.times = Some(times);
            }
            Ok(order)
        }
        _ => Ok(None),
    }
}

/// What a line asks for that ends with a number and a text behind it.
fn with_number_and_text(
    alloc: Global,
    wish: Wish,
    rest: &str,
) -> Result<Option<Order>, AllocError> {
    let (word, text) = rest.split_once(' ').unwrap_or((rest, ""));
    match word.parse::<u64>() {
        Ok(number) => with_text(alloc, wish, vec![in alloc; number]?, text),
        Err(_) => Ok(None),
    }
}

/// What a line asks for with these numbers and a text.
fn with_text(
    alloc: Global,
    wish: Wish,
    numbers: Vec<u64>,
    text: &str,
) -> Result<Option<Order>, AllocError> {
    let text = String::from_str(alloc, text)?;
    Ok(Some(Order {
        wish,
        numbers,
        text,
        times: None,
    }))
}

/// What a line asks for that has no text.
fn with_numbers(alloc: Global, line: &str) -> Result<Option<Order>, AllocError> {
    let words = Words::of(alloc, line)?;
    match wish_of(&words) {
        Some(wish) => with_text(alloc, wish, words.numbers, ""),
        None => Ok(None),
    }
}
