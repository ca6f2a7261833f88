//! The words of a line.
ghost use Rattle.std.specs.Prelude.{◌≡◌, ◌≢◌, ◌↔◌, ℕ, ◌-◌, ◌<◌, ◌≤◌, ◌^◌, [], ◌∷◌, List, length, map, IfSome, IfOk, IsTrue};
ghost use Rattle.std.specs.Prelude.{MatchOption, slice_index};
ghost use Rattle.std.specs.Fmt.{decimal};
ghost use Rattle.fa_texts.specs.Text.{words_of, words_left};
ghost use Rattle.fa_texts.specs.Numbers.{AreWithin, IsRisingUpTo, three_words};

use fa_io::first_index;
use std::alloc::{AllocError, Allocator};

/// The highest number of a page in a text.
pub(crate) const MAX_PAGE: u64 = 1_048_575;

/// The highest number of a die in a text.
pub(crate) const MAX_DIE: u64 = 63;

/// The first word of a line and what follows the space behind it, where there is one.
pub(crate) fn cut_word(line: &[u8]) -> (&[u8], Option<&[u8]>)
    ensures words { words_of line.now ≡ result.0.now ∷ words_left result.1 }
    ensures less { IfSome result.1 (λ r. length r.now < length line.now) }
{
    match first_index(line, b' ') {
        Some(end) => (&line[..end], Some(&line[end + 1..])),
        None => (line, None),
    }
}

/// Whether a word is this one.
pub(crate) fn is_word(word: &[u8], name: &[u8]) -> bool
    ensures { IsTrue result ↔ (word.now ≡ name.now) }
{
    word == name
}

/// Whether a line is this one word.
pub(crate) fn is_only_word(line: &[u8], name: &[u8]) -> bool
    ensures { IsTrue result ↔ (words_of line.now ≡ name.now ∷ []) }
{
    let (word, rest) = cut_word(line);
    rest.is_none() && is_word(word, name)
}

/// The number that a word writes, where it is at most `max`.
pub(crate) fn number(word: &[u8], max: u64) -> Option<u64>
    requires { max < 2 ^ 32 }
    ensures { MatchOption result ((n : ℕ) → n ≤ max → word.now ≡ decimal n → ⊥) (λ n. (n ≤ max) × (word.now ≡ decimal n)) }
{
    if word.is_empty() {
        return None;
    }
    if word[0] == b'0' && word.len() > 1 {
        return None;
    }
    let mut value = 0u64;
    for byte in word {
        if *byte < b'0' || b'9' < *byte {
            return None;
        }
        value = 10 * value + u64::from(*byte - b'0');
        if max < value {
            return None;
        }
    }
    Some(value)
}

/// The number that is the next word of what is left of a line, at most `max`, and what is left then.
pub(crate) fn next_number(line: Option<&[u8]>, max: u64) -> Option<(u64, Option<&[u8]>)>
    requires { max < 2 ^ 32 }
    ensures { MatchOption result ((n : ℕ) (more : List (List ℕ)) → n ≤ max → words_left line.entry ≢ decimal n ∷ more)
        (λ r. (r.0 ≤ max) × (words_left line.entry ≡ decimal r.0 ∷ words_left r.1)) }
{
    let (word, rest) = cut_word(line?);
    Some((number(word, max)?, rest))
}

/// The three numbers, each at most its `max`, that are all the words of what is left of a line.
pub(crate) fn three_numbers(line: Option<&[u8]>, max: (u64, u64, u64)) -> Option<(u64, u64, u64)>
    requires first { max.0 < 2 ^ 32 }
    requires second { max.1 < 2 ^ 32 }
    requires third { max.2 < 2 ^ 32 }
    ensures { MatchOption result ((n : ℕ × ℕ × ℕ) → AreWithin max n → words_left line.entry ≢ three_words n)
        (λ n. AreWithin max n × (words_left line.entry ≡ three_words n)) }
{
    let (first, rest) = next_number(line, max.0)?;
    let (second, rest) = next_number(rest, max.1)?;
    let (third, rest) = next_number(rest, max.2)?;
    match rest {
        Some(_) => None,
        None => Some((first, second, third)),
    }
}

/// The rising numbers, each at most `max`, that are all the words of what is left of a line.
pub(crate) fn rising_numbers<A: Allocator>(
    alloc: A,
    line: Option<&[u8]>,
    max: u64,
) -> Result<Option<Vec<u64, A>>, AllocError>
    requires { max < 2 ^ 32 }
    ensures { IfOk result (λ r. MatchOption r ((ns : List ℕ) → IsRisingUpTo max ns → words_left line.entry ≢ map decimal ns)
        (λ ns. IsRisingUpTo max ns.items × (words_left line.entry ≡ map decimal ns.items))) }
{
    let mut numbers = Vec::new(alloc);
    let mut rest = line;
    while let Some(text) = rest {
        let (word, after) = cut_word(text);
        let Some(n) = number(word, max) else {
            return Ok(None);
        };
        if !is_above(n, numbers.as_slice()) {
            return Ok(None);
        }
        numbers.push(n)?;
        rest = after;
    }
    Ok(Some(numbers))
}

/// Whether a number is above the last of these.
fn is_above(n: u64, numbers: &[u64]) -> bool
    ensures { IsTrue result ↔ (0 < length numbers.now → slice_index numbers.now (length numbers.now - 1) < n) }
{
    match numbers.last() {
        Some(last) => *last < n,
        None => true,
    }
}
