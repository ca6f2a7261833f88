//! The text of a certificate: a plan, and the pages that show that no plan has fewer rounds.
ghost use Rattle.std.specs.Prelude.{◌≡◌, ◌≢◌, ℕ, ◌+◌, ◌^◌, ◌<◌, ◌≤◌, ◌∷◌, length, map, codes};
ghost use Rattle.std.specs.Prelude.{IfOk, IfErr, MatchOption};
ghost use Rattle.fa_texts.specs.CertificateText.{HasPlaceLine, IsCertificateText, IsSomeCertificate};
ghost use Rattle.fa_texts.specs.CertificateText.{SaysOfCertificate, place_line, rounds_line};
ghost use Rattle.fa_texts.specs.Text.{IsTextError, words_by_line, words_left, words_of};

use crate::text_error::TextError;
use crate::words::{
    MAX_DIE, MAX_PAGE, cut_word, is_only_word, is_word, next_number, rising_numbers, three_numbers,
};
use fa_batch::{Places, Plan, Shortage};
use fa_batch_terms::Place;
use fa_io::cut_line;
use fa_types::{Die, Page, Round};
use std::alloc::{AllocError, Allocator, Global};

/// The highest round, and number of rounds, of a certificate text.
const MAX_CERTIFICATE_ROUND: u64 = 2_000_000;

/// What a certificate text says.
#[derive(Drop)]
pub struct Certificate<A: Allocator = Global> {
    /// The plan, with the rounds that it claims.
    pub plan: Plan<A>,
    /// The pages that are to show that no plan has fewer.
    pub shortage: Shortage<A>,
}

/// What a line of a certificate text says, behind the first.
#[derive(Drop)]
enum CertificateLine<A: Allocator> {
    Place(Place),
    Short(Shortage<A>),
    End,
    Other,
}

/// Reads the certificate text that an input is, of which the first line has this number: `rounds R`, lines
/// `place P D ROUND`, one line `short P P ..` with the pages rising unless the shortage is empty, then `end`,
/// and nothing behind it. Rounds are at most 2,000,000. Else the first line that is wrong.
pub fn read_certificate<A: Allocator + Copy>(
    alloc: A,
    input: &[u8],
    line: u64,
) -> Result<Certificate<A>, TextError>
    requires { line + length input.now + 1 < 2 ^ 64 }
    ensures read { IfOk result (λ found. IsCertificateText (words_by_line input.now) found.plan.rounds found.plan.places found.shortage) }
    ensures fault { IfErr result (IsTextError IsSomeCertificate line (words_by_line input.now)) }
{
    let Some((first, behind)) = cut_line(input) else {
        return Err(TextError::Line(line));
    };
    let Some(rounds) = rounds_of(first) else {
        return Err(TextError::Line(line));
    };
    let mut places = Places::new(alloc);
    let mut shortage = Shortage::new(alloc);
    let mut rest = behind;
    let mut line = line + 1;
    while let Some((text, after)) = cut_line(rest) {
        match line_of(alloc, text)? {
            CertificateLine::Place(place) => {
                if !shortage.is_empty() {
                    return Err(TextError::Line(line));
                }
                places.push(place)?;
            }
            CertificateLine::Short(pages) => {
                if !shortage.is_empty() {
                    return Err(TextError::Line(line));
                }
                shortage = pages;
            }
            CertificateLine::End => {
                if !after.is_empty() {
                    return Err(TextError::Line(line + 1));
                }
                let plan = Plan { rounds, places };
                return Ok(Certificate { plan, shortage });
            }
            CertificateLine::Other => return Err(TextError::Line(line)),
        }
        rest = after;
        line += 1;
    }
    Err(TextError::Line(line))
}

/// The number of rounds in the first line.
fn rounds_of(line: &[u8]) -> Option<u64>
    ensures { MatchOption result ((rounds : ℕ) → rounds ≤ 2000000 → words_of line.now ≢ rounds_line rounds)
        (λ rounds. (rounds ≤ 2000000) × (words_of line.now ≡ rounds_line rounds)) }
{
    let (word, rest) = cut_word(line);
    if !is_word(word, b"rounds") {
        return None;
    }
    let (rounds, rest) = next_number(rest, MAX_CERTIFICATE_ROUND)?;
    match rest {
        Some(_) => None,
        None => Some(rounds),
    }
}

/// What a line says.
fn line_of<A: Allocator + Copy>(alloc: A, line: &[u8]) -> Result<CertificateLine<A>, AllocError>
    ensures { IfOk result (SaysOfCertificate (words_of line.now)) }
{
    let (word, rest) = cut_word(line);
    if is_word(word, b"place") {
        return Ok(match place_of(rest) {
            Some(place) => CertificateLine::Place(place),
            None => CertificateLine::Other,
        });
    }
    if is_word(word, b"short") {
        return short_line(alloc, rest);
    }
    if is_only_word(line, b"end") {
        return Ok(CertificateLine::End);
    }
    Ok(CertificateLine::Other)
}

/// What stands behind `short`: the numbers of the pages, rising.
fn short_line<A: Allocator + Copy>(
    alloc: A,
    rest: Option<&[u8]>,
) -> Result<CertificateLine<A>, AllocError>
    ensures { IfOk result (SaysOfCertificate (codes "short" ∷ words_left rest.entry)) }
{
    if rest.is_none() {
        return Ok(CertificateLine::Other);
    }
    match rising_numbers(alloc, rest, MAX_PAGE)? {
        Some(numbers) => Ok(CertificateLine::Short(shortage_of(alloc, numbers.as_slice())?)),
        None => Ok(CertificateLine::Other),
    }
}

/// What stands behind `place`: a page, a die and a round.
fn place_of(rest: Option<&[u8]>) -> Option<Place>
    ensures { MatchOption result ((x : Place) → HasPlaceLine x → codes "place" ∷ words_left rest.entry ≢ place_line x)
        (λ x. (codes "place" ∷ words_left rest.entry ≡ place_line x) × HasPlaceLine x) }
{
    let (page, die, round) = three_numbers(rest, (MAX_PAGE, MAX_DIE, MAX_CERTIFICATE_ROUND))?;
    Some(Place {
        page: Page(page),
        die: Die(die as u8),
        round: Round(round),
    })
}

/// The pages of these numbers.
fn shortage_of<A: Allocator>(alloc: A, numbers: &[u64]) -> Result<Shortage<A>, AllocError>
    ensures { IfOk result (λ pages. map (λ p. p.0) pages ≡ numbers.now) }
{
    let mut shortage = Shortage::new(alloc);
    for n in numbers {
        shortage.push(Page(*n))?;
    }
    Ok(shortage)
}
