//! Numbers as bits of words, 64 to a word.
ghost use Rattle.std.specs.Prelude.{◌≡◌, ◌≢◌, ℕ, ◌+◌, ◌*◌, ◌/◌, ◌<◌, ◌≤◌, ◌==◌, ◌&&◌, ◌||◌, Bool, true, false, not, length, None, Some};
ghost use Rattle.std.specs.Int.{bit_at};
ghost use Rattle.fa_set.specs.Words.{has, IsEmptied, IsLeft, IsLowestInWord};

use std::alloc::Allocator;

/// The word with a bit set.
fn with_bit(word: u64, bit: u32) -> u64
    requires { bit < 64 }
    ensures set { bit_at result bit ≡ 1 }
    ensures others { (i : ℕ) → i ≢ bit → bit_at result i ≡ bit_at word i }
{
    word | (1 << bit)
}

/// The word with a bit cleared.
fn without_bit(word: u64, bit: u32) -> u64
    requires { bit < 64 }
    ensures cleared { bit_at result bit ≡ 0 }
    ensures others { (i : ℕ) → i < 64 → i ≢ bit → bit_at result i ≡ bit_at word i }
{
    word & !(1 << bit)
}

/// Whether a bit of the word is set.
fn has_bit(word: u64, bit: u32) -> bool
    requires { bit < 64 }
    ensures { result ≡ (bit_at word bit == 1) }
{
    (word >> bit) & 1 == 1
}

/// The lowest bit of the word that is set, from one on.
fn lowest_bit(word: u64, from: u32) -> Option<u32>
    requires { from < 64 }
    ensures some { (bit : ℕ) → result ≡ Some bit → (from ≤ bit) × (bit < 64) × (bit_at word bit ≡ 1)
        × ((i : ℕ) → from ≤ i → i < bit → bit_at word i ≡ 0) }
    ensures none { result ≡ None → (i : ℕ) → from ≤ i → bit_at word i ≡ 0 }
{
    let rest = word >> from;
    if rest == 0 {
        None
    } else {
        Some(from + rest.trailing_zeros())
    }
}

/// Whether the number is one of the words' numbers.
pub fn is_member(words: &[u64], number: usize) -> bool
    requires { number / 64 < length words.now }
    ensures { result ≡ has words.now number }
{
    has_bit(words[number / 64], (number % 64) as u32)
}

/// The number comes in.
pub fn put<A: Allocator>(words: &mut Vec<u64, A>, number: usize)
    requires { number / 64 < length words.old.items }
    ensures long { length words.new.items ≡ length words.old.items }
    ensures has { (k : ℕ) → has words.new.items k ≡ (k == number || has words.old.items k) }
{
    words[number / 64] = with_bit(words[number / 64], (number % 64) as u32);
}

/// The number goes, where that is wanted. Whether no number of its word is left then.
pub fn take_out<A: Allocator>(words: &mut Vec<u64, A>, number: usize, wanted: bool) -> bool
    requires { number / 64 < length words.old.items }
    ensures long { length words.new.items ≡ length words.old.items }
    ensures has { (k : ℕ) → has words.new.items k ≡ (has words.old.items k && not (wanted && k == number)) }
    ensures emptied { result ≡ true → IsEmptied words.new.items (number / 64) }
    ensures left { result ≡ false → wanted ≡ true → IsLeft words.new.items (number / 64) }
{
    if !wanted {
        return false;
    }
    let word = without_bit(words[number / 64], (number % 64) as u32);
    words[number / 64] = word;
    word == 0
}

/// The least number of a word from one of its numbers on.
pub fn lowest_in_word(words: &[u64], from: usize) -> Option<usize>
    requires { from / 64 < length words.now }
    ensures { IsLowestInWord words.now from result }
{
    match lowest_bit(words[from / 64], (from % 64) as u32) {
        Some(bit) => Some(from / 64 * 64 + bit as usize),
        None => None,
    }
}
