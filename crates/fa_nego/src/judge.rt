//! What comes of the bytes that are held of an item of the client.
ghost use Rattle.std.specs.Prelude.{◌≡◌, ℕ, ◌≤◌, List, [], length, IfOk};
ghost use Rattle.fa_nego.specs.Negotiation.{NameComesTo, ListComesTo, InfoComesTo, ComesTo, refusal};
ghost use Rattle.fa_nego.specs.NegoState.{Flags, Options};
ghost use Rattle.fa_nego.specs.View.{stage_at};
ghost use Rattle.fa_nego.specs.Heard.{Judges, stage_after};

use crate::asked::{is_known, read_query};
use crate::nego::MAX_NAME_BYTES;
use crate::numbers::{
    OPT_ABORT, OPT_EXPORT_NAME, OPT_GO, OPT_INFO, OPT_LIST, REP_ACK, REP_ERR_INVALID,
    REP_ERR_UNKNOWN, REP_ERR_UNSUP,
};
use crate::phase::Phase;
use crate::reply::{export_data, information, listing, reply};
use crate::step::{CloseCause, Step};
use byteorder::{BigEndian, ByteOrder};
use fa_nego_head::{Heard, option_in};
use std::alloc::{AllocError, Allocator};

/// How many bytes the client's flags have.
pub const FLAGS_LEN: usize = 4;

/// What an option comes to: what the server says to it, and how the negotiation stands after it.
#[derive(Drop)]
pub struct Come<A: Allocator> {
    pub said: Vec<u8, A>,
    pub next: Step,
}

/// What comes of the bytes of an item: what the server says to them, and the phase that follows,
/// `None` where the item is not whole.
#[derive(Drop)]
pub struct ItemAnswer<A: Allocator> {
    pub said: Vec<u8, A>,
    pub next: Option<Phase>,
}

/// Judges the bytes that are held of an item.
pub fn judge<A: Allocator>(
    alloc: A,
    export: &str,
    size: u64,
    phase: Phase,
    held: &[u8],
) -> Result<ItemAnswer<A>, AllocError>
    requires { length export.now ≤ MAX_NAME_BYTES }
    ensures { IfOk result (λ judged. Judges export.now size (stage_at phase held.now) judged.said.items
        (stage_after phase held.now judged.next)) }
{
    match phase {
        Phase::Flags => Ok(ItemAnswer {
            said: Vec::new(alloc),
            next: judge_flags(held),
        }),
        Phase::Options { flags } => judge_option(alloc, export.as_bytes(), size, flags, held),
        Phase::Over(_) => Ok(waits(alloc)),
    }
}

/// The phase that follows the client's flags.
fn judge_flags(held: &[u8]) -> Option<Phase>
    ensures { (export : List ℕ) (size : ℕ)
        → Judges export size (Flags held.now) [] (stage_after Phase.Flags held.now result) }
{
    if held.len() < FLAGS_LEN {
        return None;
    }
    let flags = BigEndian::read_u32(held);
    // Only bits 0 and 1 are known: FIXED_NEWSTYLE and NO_ZEROES.
    if flags < 4 {
        Some(Phase::Options { flags })
    } else {
        Some(Phase::Over(Step::Closed(CloseCause::UnknownFlag)))
    }
}

/// Judges the bytes of an option: first its head, then, once its data is whole, all of it.
fn judge_option<A: Allocator>(
    alloc: A,
    export: &[u8],
    size: u64,
    flags: u32,
    held: &[u8],
) -> Result<ItemAnswer<A>, AllocError>
    requires { length export.now ≤ MAX_NAME_BYTES }
    ensures { IfOk result (λ judged. Judges export.now size (Options flags held.now) judged.said.items
        (stage_after (Phase.Options flags) held.now judged.next)) }
{
    match option_in(held) {
        Heard::Waits => Ok(waits(alloc)),
        Heard::WrongMagic => Ok(closed(alloc, CloseCause::WrongMagic)),
        Heard::TooLong => Ok(closed(alloc, CloseCause::TooLong)),
        Heard::Whole { option, given } => {
            let come = answer(alloc, export, size, flags, option, given)?;
            let next = match come.next {
                Step::More => Phase::Options { flags },
                step => Phase::Over(step),
            };
            Ok(ItemAnswer {
                said: come.said,
                next: Some(next),
            })
        }
    }
}

/// An item that is not whole, of which the server says nothing.
fn waits<A: Allocator>(alloc: A) -> ItemAnswer<A>
    ensures said { result.said.items ≡ [] }
    ensures next { result.next ≡ None }
{
    ItemAnswer {
        said: Vec::new(alloc),
        next: None,
    }
}

/// The end of a negotiation that the server closes with no word.
fn closed<A: Allocator>(alloc: A, cause: CloseCause) -> ItemAnswer<A>
    ensures said { result.said.items ≡ [] }
    ensures next { result.next ≡ Some (Phase.Over (Step.Closed cause)) }
{
    ItemAnswer {
        said: Vec::new(alloc),
        next: Some(Phase::Over(Step::Closed(cause))),
    }
}

/// What an option with this data comes to, for a client with these flags.
fn answer<A: Allocator>(
    alloc: A,
    export: &[u8],
    size: u64,
    flags: u32,
    option: u32,
    given: &[u8],
) -> Result<Come<A>, AllocError>
    requires { length export.now ≤ MAX_NAME_BYTES }
    ensures { IfOk result (λ come. ComesTo export.now size flags (record { option = option; given = given.now })
        (record { said = come.said.items; next = come.next })) }
{
    match option {
        OPT_EXPORT_NAME => export_name(alloc, export, size, flags, given),
        OPT_ABORT => Ok(Come {
            said: reply(alloc, OPT_ABORT, REP_ACK)?,
            next: Step::Aborted,
        }),
        OPT_LIST => list(alloc, export, given),
        OPT_INFO => info(alloc, export, size, OPT_INFO, given, Step::More),
        OPT_GO => info(alloc, export, size, OPT_GO, given, Step::Go),
        _ => refuse(alloc, option, REP_ERR_UNSUP),
    }
}

/// A reply with an error, after which the negotiation goes on.
fn refuse<A: Allocator>(alloc: A, option: u32, error: u32) -> Result<Come<A>, AllocError>
    ensures { IfOk result (λ come. record { said = come.said.items; next = come.next } ≡ refusal option error) }
{
    Ok(Come {
        said: reply(alloc, option, error)?,
        next: Step::More,
    })
}

/// What an EXPORT_NAME with this name comes to.
fn export_name<A: Allocator>(
    alloc: A,
    export: &[u8],
    size: u64,
    flags: u32,
    name: &[u8],
) -> Result<Come<A>, AllocError>
    ensures { IfOk result (λ come. NameComesTo export.now size flags name.now
        (record { said = come.said.items; next = come.next })) }
{
    if !is_known(export, name) {
        return Ok(Come {
            said: Vec::new(alloc),
            next: Step::Closed(CloseCause::UnknownName),
        });
    }
    Ok(Come {
        said: export_data(alloc, size, flags)?,
        next: Step::Go,
    })
}

/// What a LIST with this data comes to.
fn list<A: Allocator>(alloc: A, export: &[u8], given: &[u8]) -> Result<Come<A>, AllocError>
    requires { length export.now ≤ MAX_NAME_BYTES }
    ensures { IfOk result (λ come. ListComesTo export.now given.now
        (record { said = come.said.items; next = come.next })) }
{
    if !given.is_empty() {
        return refuse(alloc, OPT_LIST, REP_ERR_INVALID);
    }
    Ok(Come {
        said: listing(alloc, export)?,
        next: Step::More,
    })
}

/// What an INFO or GO with this data comes to: `next` where it names the export.
fn info<A: Allocator>(
    alloc: A,
    export: &[u8],
    size: u64,
    option: u32,
    given: &[u8],
    next: Step,
) -> Result<Come<A>, AllocError>
    requires { length export.now ≤ MAX_NAME_BYTES }
    ensures { IfOk result (λ come. InfoComesTo export.now size option given.now next
        (record { said = come.said.items; next = come.next })) }
{
    let Some(query) = read_query(given) else {
        return refuse(alloc, option, REP_ERR_INVALID);
    };
    if !is_known(export, query.name) {
        return refuse(alloc, option, REP_ERR_UNKNOWN);
    }
    Ok(Come {
        said: information(alloc, export, size, option, query.kinds)?,
        next,
    })
}
