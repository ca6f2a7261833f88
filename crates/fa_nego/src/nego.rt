//! The negotiation with one client.
ghost use Rattle.std.specs.Prelude.{◌≡◌, ℕ, ◌≤◌, List, ◌++◌, length, take, min, IfOk, OnErr};
ghost use Rattle.fa_nego.specs.Negotiation.{greeting_bytes};
ghost use Rattle.fa_nego.specs.NegoState.{new_state, step_of, cause_of, wanted, IsAt};
ghost use Rattle.fa_nego.specs.View.{stage_at};
ghost use Rattle.fa_nego.specs.Heard.{Hears};

use crate::judge::{FLAGS_LEN, judge};
use crate::phase::Phase;
use crate::reply::first_words;
use crate::step::{CloseCause, Fed, Step};
use byteorder::{BigEndian, ByteOrder};
use fa_nego_head::HEAD_LEN;
use std::alloc::{AllocError, Allocator, Global};
use std::marker::Model;

/// The most bytes that the name of an export may have.
pub const MAX_NAME_BYTES: usize = 4096;

/// The server's side of a handshake, from behind its greeting on. It is fed with the client's bytes
/// until it is over.
#[derive(Drop)]
pub struct Nego<'a, A: Allocator = Global> {
    export: &'a str,
    size: u64,
    phase: Phase,
    /// What has come of the item that the phase awaits.
    held: Vec<u8, A>,
}

impl<'a, A: Allocator> Model for Nego<'a, A> {
    ghost use Rattle.fa_nego.specs.NegoState.{NegoState};

    ghost Value = { NegoState };

    ghost use Rattle.std.specs.Prelude.{◌≤◌, length};
    ghost use Rattle.fa_nego.specs.View.{stage_at};
    ghost use Rattle.fa_nego.specs.declared.nego.TheConstants.{MAX_NAME_BYTES};

    ghost view = { λ s. record { export = s.export.now; size = s.size; stage = stage_at s.phase s.held.items } };

    ghost invariant = { λ s. length s.export.now ≤ MAX_NAME_BYTES };
}

impl<'a, A: Allocator> Nego<'a, A> {
    /// A negotiation that has heard nothing. The export has this name and size, in bytes.
    pub fn new(alloc: A, export: &'a str, size: u64) -> Nego<'a, A>
        requires { length export.now ≤ MAX_NAME_BYTES }
        ensures { result ≡ new_state export.now size }
    {
        Nego {
            export,
            size,
            phase: Phase::Flags,
            held: Vec::new(alloc),
        }
    }

    /// How many bytes the next flags or option need before they can be judged: what is fed up to
    /// that number is used whole. It is 0 where the negotiation is over, and only there.
    pub fn wanted(&self) -> usize
        ensures { result ≡ wanted self.now.stage }
    {
        wanted_at(self.phase, &self.held)
    }

    /// Hears the beginning of a piece, up to the end of the flags or the option that comes next, and
    /// says what the server answers. A refusal leaves the negotiation as it was.
    pub fn feed(&mut self, alloc: A, piece: &[u8]) -> Result<Fed<A>, AllocError>
        ensures used { IfOk result (λ fed. fed.used ≡ min (length piece.now) (wanted self.old.stage)) }
        ensures answer { IfOk result (λ fed. (heard said : List ℕ) → IsAt self.old heard said
            → IsAt self.new (heard ++ take fed.used piece.now) (said ++ fed.out.items)) }
        ensures step { IfOk result (λ fed. fed.step ≡ step_of self.new.stage) }
        ensures same_export { (self.new.export ≡ self.old.export) × (self.new.size ≡ self.old.size) }
        ensures err { OnErr result (self.new ≡ self.old) }
    {
        let wanted = self.wanted();
        let used = piece.len().min(wanted);
        let (phase, out) = hear(
            alloc,
            self.export,
            self.size,
            self.phase,
            &mut self.held,
            &piece[..used],
            wanted,
        )?;
        self.phase = phase;
        let step = phase.step();
        Ok(Fed { used, out, step })
    }

    /// Why the server closes the connection, once it does.
    pub fn close_cause(&self) -> Option<CloseCause>
        ensures { result ≡ cause_of (step_of self.now.stage) }
    {
        self.phase.close_cause()
    }
}

/// The first bytes of the server.
pub fn greeting() -> [u8; 18]
    ensures { result ≡ greeting_bytes }
{
    first_words()
}

/// How many bytes the item that comes needs, beyond those that are held, before it can be judged.
fn wanted_at(phase: Phase, held: &[u8]) -> usize
    ensures { result ≡ wanted (stage_at phase held.now) }
{
    match phase {
        Phase::Flags => FLAGS_LEN.saturating_sub(held.len()),
        Phase::Options { .. } if held.len() < HEAD_LEN => HEAD_LEN - held.len(),
        Phase::Options { .. } => {
            let len = BigEndian::read_u32(&held[12..]) as usize;
            (HEAD_LEN + len).saturating_sub(held.len())
        }
        Phase::Over(_) => 0,
    }
}

/// Hears a piece of an item that wants `room` more bytes, and judges what is held of it then: gives
/// the phase that follows, and what the server says. A refusal leaves what was held.
fn hear<A: Allocator>(
    alloc: A,
    export: &str,
    size: u64,
    phase: Phase,
    held: &mut Vec<u8, A>,
    piece: &[u8],
    room: usize,
) -> Result<(Phase, Vec<u8, A>), AllocError>
    requires wants { room ≡ wanted (stage_at phase held.old.items) }
    requires within { length piece.now ≤ room }
    requires name { length export.now ≤ MAX_NAME_BYTES }
    ensures heard { IfOk result (λ next. Hears export.now size (stage_at phase held.old.items) piece.now next.1.items
        (stage_at next.0 held.new.items)) }
    ensures err { OnErr result (held.new.items ≡ held.old.items) }
{
    // Room for all that the item wants is made at once, however small the pieces are.
    held.reserve(room)?;
    let before = held.len();
    held.extend_from_slice(piece)?;
    match judge(alloc, export, size, phase, held) {
        Ok(judged) => match judged.next {
            None => Ok((phase, judged.said)),
            Some(next) => {
                held.clear();
                Ok((next, judged.said))
            }
        },
        Err(error) => {
            held.truncate(before);
            Err(error)
        }
    }
}
