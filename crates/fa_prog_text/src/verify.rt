//! The command `verify`.
ghost use Rattle.std.specs.Prelude.{◌≡◌, ◌⊎◌, IfOk, IfErr, string_bytes};
ghost use Rattle.fa_texts.specs.Text.{IsTextError, words_by_line};
ghost use Rattle.fa_io.specs.Streams.{between};
ghost use Rattle.fa_prog_host.specs.Printing.{TellsNoMemory};
ghost use Rattle.fa_prog_text.specs.Verify.{AreSomeTexts, IsJudged, TellsVerify, RunsVerify, judged_status, judged_text};

use crate::input::read_input;
use crate::output::refuse_input;
use fa_batch_terms::Unsound;
use fa_cert::{Verdict, check};
use fa_prog_host::printing::{DONE, FAULTY, REFUSED, print, refuse_for_memory};
use fa_texts::{TextError, read_batch, read_certificate};
use std::alloc::{AllocError, Allocator};
use std::io::{Read, Write};

/// What comes of a batch text with a certificate text behind it.
#[derive(Drop)]
pub(crate) enum Judged {
    /// This line is the first that is in neither grammar.
    Line(u64),
    /// The batch is not sound.
    Unsound(Unsound),
    /// What the check says.
    Verdict(Verdict),
}

/// The command `verify`: reads a batch text and a certificate text, and prints the verdict, or else
/// the first line that is wrong, or what makes the batch unsound.
pub fn run_verify<R: Read, W: Write, A: Allocator + Copy>(
    alloc: A,
    input: &mut R,
    output: &mut W,
) -> u8
    ensures { let streams = between (R.remaining input.old) (R.remaining input.new) (W.contents output.old) (W.contents output.new) in
        RunsVerify streams result }
{
    match read_input(alloc, input) {
        Ok(text) => tell_verify(alloc, &text, output),
        Err(kind) => refuse_input(output, kind, b"verify: cannot read\n"),
    }
}

/// Prints what a text comes to.
fn tell_verify<W: Write, A: Allocator + Copy>(alloc: A, text: &[u8], output: &mut W) -> u8
    ensures { TellsVerify text.now (W.contents output.old) (W.contents output.new) result
        ⊎ TellsNoMemory (W.contents output.old) (W.contents output.new) result }
{
    match judge(alloc, text) {
        Ok(judged) => match told(alloc, &judged) {
            Ok(line) => print(output, status_of(&judged), line.as_bytes()),
            Err(AllocError) => refuse_for_memory(output),
        },
        Err(AllocError) => refuse_for_memory(output),
    }
}

/// Judges a batch text with a certificate text behind it. A fault of the texts is what they come to.
pub(crate) fn judge<A: Allocator + Copy>(alloc: A, text: &[u8]) -> Result<Judged, AllocError>
    ensures { IfOk result (IsJudged text.now) }
{
    match judge_texts(alloc, text) {
        Ok(judged) => Ok(judged),
        Err(TextError::Line(line)) => Ok(Judged::Line(line)),
        Err(TextError::NoMemory) => Err(AllocError),
    }
}

/// Reads both texts, and judges what they say. The faults of the texts come before those of the
/// batch, and these before the check.
fn judge_texts<A: Allocator + Copy>(alloc: A, text: &[u8]) -> Result<Judged, TextError>
    ensures judged { IfOk result (IsJudged text.now) }
    ensures fault { IfErr result (IsTextError AreSomeTexts 1 (words_by_line text.now)) }
{
    if text.len() >= 1 << 62 {
        return Err(TextError::NoMemory);
    }
    let found = read_batch(alloc, text)?;
    let claimed = read_certificate(alloc, found.rest, found.line)?;
    if let Some(unsound) = found.batch.unsound() {
        return Ok(Judged::Unsound(unsound));
    }
    let verdict = check(
        alloc,
        &found.batch,
        &found.closed,
        &claimed.plan,
        &claimed.shortage,
    )?;
    Ok(Judged::Verdict(verdict))
}

/// The line that is printed.
#[tactic(auto, unfolding(crate::specs::Verify::judged_text))]
pub(crate) fn told<A: Allocator + Copy>(alloc: A, judged: &Judged) -> Result<String<A>, AllocError>
    ensures { IfOk result (λ line. string_bytes line ≡ judged_text judged.now) }
{
    match judged {
        Judged::Line(line) => format!(in alloc; "text: line {line}\n"),
        Judged::Unsound(unsound) => unsound_told(alloc, *unsound),
        Judged::Verdict(verdict) => format!(in alloc; "{verdict}\n"),
    }
}

/// The line that is printed of a batch that is not sound.
#[tactic(auto, unfolding(crate::specs::Verify::judged_text))]
fn unsound_told<A: Allocator + Copy>(alloc: A, unsound: Unsound) -> Result<String<A>, AllocError>
    ensures { IfOk result (λ line. string_bytes line ≡ judged_text (Judged.Unsound unsound)) }
{
    match unsound {
        Unsound::NoHolder(page) => {
            let number = page.0;
            format!(in alloc; "unsound: page {number} has no holder\n")
        }
        Unsound::Twice(page) => {
            let number = page.0;
            format!(in alloc; "unsound: page {number} stands twice\n")
        }
    }
}

/// The status with which a run ends that prints this.
fn status_of(judged: &Judged) -> u8
    ensures { result ≡ judged_status judged.now }
{
    match judged {
        Judged::Verdict(Verdict::Least(_)) => DONE,
        Judged::Verdict(Verdict::Refused(_)) => REFUSED,
        Judged::Line(_) | Judged::Unsound(_) => FAULTY,
    }
}
