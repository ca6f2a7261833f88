//! The text of a batch: its pages with their holders, and the rounds in which dies are closed.
ghost use Rattle.std.specs.Prelude.{◌≡◌, ◌≢◌, ◌+◌, ◌≤◌, ◌∷◌, length, map, codes, All, IfOk, IfErr, MatchOption};
ghost use Rattle.fa_texts.specs.BatchText.{HasClosedLine, IsRead, SaysOfBatch, StartsWithBatch, closed_line};
ghost use Rattle.fa_texts.specs.Text.{IsTextError, words_by_line, words_left, words_of};

use crate::text_error::TextError;
use crate::words::{
    MAX_DIE, MAX_PAGE, cut_word, is_only_word, is_word, next_number, rising_numbers, three_numbers,
};
use fa_batch::{Batch, MAX_PAGES};
use fa_closed::{Closed, Run};
use fa_io::cut_line;
use fa_types::{Die, Page, Round};
use std::alloc::{AllocError, Allocator, Global};

/// The most runs of closed rounds of a batch text.
pub(crate) const MAX_RUNS: usize = 4096;

/// The highest round in which a batch text closes a die.
pub(crate) const MAX_CLOSED_ROUND: u64 = 1_000_000;

/// What a batch text says, and where it ends.
#[derive(Drop)]
pub struct BatchText<'a, A: Allocator = Global> {
    /// The pages in the order of their lines. They need not be sound.
    pub batch: Batch<A>,
    /// The closed rounds, the current one being 1.
    pub closed: Closed<A>,
    /// The input behind the text.
    pub rest: &'a [u8],
    /// The number of the line at which the rest begins.
    pub line: u64,
}

/// What a line of a batch text says, behind the first.
#[derive(Drop)]
enum BatchLine<A: Allocator> {
    Page(Page, Vec<Die, A>),
    Closed(Run),
    End,
    Other,
}

/// Reads the batch text with which an input begins: `batch`, then at most 1,024 lines `page P on D D ..`,
/// then at most 4,096 lines `closed D FIRST LAST`, then `end`. Pages are 0 to 1,048,575 and dies 0 to 63,
/// rising; rounds are 1 to 1,000,000, the first not above the last. Else the first line that is wrong.
pub fn read_batch<A: Allocator + Copy>(
    alloc: A,
    input: &[u8],
) -> Result<BatchText<'_, A>, TextError>
    ensures read { IfOk result (IsRead input.now) }
    ensures early { IfOk result (λ text. text.line + length text.rest.now ≤ 3 + length input.now) }
    ensures fault { IfErr result (IsTextError StartsWithBatch 1 (words_by_line input.now)) }
{
    let Some((first, behind)) = cut_line(input) else {
        return Err(TextError::Line(1));
    };
    if !is_only_word(first, b"batch") {
        return Err(TextError::Line(1));
    }
    let mut batch = Batch::new(alloc);
    let mut runs: Vec<Run, A> = Vec::new(alloc);
    let mut rest = behind;
    let mut line = 2u64;
    while let Some((text, after)) = cut_line(rest) {
        match line_of(alloc, text)? {
            BatchLine::Page(page, holders) => {
                if !runs.is_empty() || batch.len() >= MAX_PAGES {
                    return Err(TextError::Line(line));
                }
                batch.push(page, holders.as_slice())?;
            }
            BatchLine::Closed(run) => {
                if runs.len() >= MAX_RUNS {
                    return Err(TextError::Line(line));
                }
                runs.push(run)?;
            }
            BatchLine::End => {
                let closed = Closed::new(alloc, Round(1), runs)?;
                return Ok(BatchText {
                    batch,
                    closed,
                    rest: after,
                    line: line + 1,
                });
            }
            BatchLine::Other => return Err(TextError::Line(line)),
        }
        rest = after;
        line += 1;
    }
    Err(TextError::Line(line))
}

/// What a line says.
fn line_of<A: Allocator + Copy>(alloc: A, line: &[u8]) -> Result<BatchLine<A>, AllocError>
    ensures { IfOk result (SaysOfBatch (words_of line.now)) }
{
    let (word, rest) = cut_word(line);
    if is_word(word, b"page") {
        return page_line(alloc, rest);
    }
    if is_word(word, b"closed") {
        return Ok(match closed_run(rest) {
            Some(run) => BatchLine::Closed(run),
            None => BatchLine::Other,
        });
    }
    if is_only_word(line, b"end") {
        return Ok(BatchLine::End);
    }
    Ok(BatchLine::Other)
}

/// What stands behind `page`: the number of the page, `on`, and its holders, rising.
fn page_line<A: Allocator + Copy>(alloc: A, rest: Option<&[u8]>) -> Result<BatchLine<A>, AllocError>
    ensures { IfOk result (SaysOfBatch (codes "page" ∷ words_left rest.entry)) }
{
    let Some((page, rest)) = next_number(rest, MAX_PAGE) else {
        return Ok(BatchLine::Other);
    };
    let Some(text) = rest else {
        return Ok(BatchLine::Other);
    };
    let (word, rest) = cut_word(text);
    if !is_word(word, b"on") {
        return Ok(BatchLine::Other);
    }
    match rising_numbers(alloc, rest, MAX_DIE)? {
        Some(numbers) => {
            let holders = dies_of(alloc, numbers.as_slice())?;
            Ok(BatchLine::Page(Page(page), holders))
        }
        None => Ok(BatchLine::Other),
    }
}

/// The dies of these numbers.
fn dies_of<A: Allocator>(alloc: A, numbers: &[u64]) -> Result<Vec<Die, A>, AllocError>
    requires { All (λ n. n ≤ 63) numbers.now }
    ensures { IfOk result (λ dies. map (λ d. d.0) dies.items ≡ numbers.now) }
{
    let mut dies = Vec::new(alloc);
    for n in numbers {
        dies.push(Die(*n as u8))?;
    }
    Ok(dies)
}

/// What stands behind `closed`: a die, and its first and last closed round.
fn closed_run(rest: Option<&[u8]>) -> Option<Run>
    ensures { MatchOption result ((run : Run) → HasClosedLine run → codes "closed" ∷ words_left rest.entry ≢ closed_line run)
        (λ run. (codes "closed" ∷ words_left rest.entry ≡ closed_line run) × HasClosedLine run) }
{
    let (die, first, last) = three_numbers(rest, (MAX_DIE, MAX_CLOSED_ROUND, MAX_CLOSED_ROUND))?;
    if first == 0 || last < first {
        return None;
    }
    Some(Run {
        die: Die(die as u8),
        first: Round(first),
        last: Round(last),
    })
}
