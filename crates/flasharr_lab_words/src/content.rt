//! Bytes, and what stands in a page.
use crate::output::Output;
use byteorder::{ByteOrder, LittleEndian};
use std::alloc::{AllocError, Allocator, Global};

/// The bytes of a number.
const WORD_BYTES: usize = 8;

/// Below this each byte of a page is its number, and from it on the page is the number's bytes.
const FIRST_LONG: u64 = 256;

/// The bytes that hexadecimal digits spell. None where they spell none, or there is no memory.
pub fn bytes_of(alloc: Global, digits: &str) -> Option<Vec<u8>> {
    hex::decode(alloc, digits.as_bytes()).ok()
}

/// How many bytes the first of these lists has, and 0 where there is no list.
pub fn first_length(lists: &[Vec<u8>]) -> usize {
    match lists.first() {
        Some(first) => first.len(),
        None => 0,
    }
}

/// A page of a number. The error is out of memory.
pub fn full_page<A: Allocator>(
    alloc: A,
    number: u64,
    page_bytes: u32,
) -> Result<Vec<u8, A>, AllocError> {
    let mut page = vec![in alloc; 0u8; page_bytes as usize]?;
    fill(page.as_mut_slice(), number);
    Ok(page)
}

/// Makes bytes those of pages of a number.
pub fn fill(bytes: &mut [u8], number: u64) {
    let word = word_of(number);
    for (index, byte) in bytes.iter_mut().enumerate() {
        *byte = word[index % WORD_BYTES];
    }
}

/// The bytes that stand in a page of a number, over and over.
fn word_of(number: u64) -> [u8; WORD_BYTES] {
    if number < FIRST_LONG {
        return [(number & 0xff) as u8; WORD_BYTES];
    }
    let mut word = [0; WORD_BYTES];
    LittleEndian::write_u64(&mut word, number);
    word
}

/// The number that a page is of. None where it is of none.
fn number_in(page: &[u8]) -> Option<u64> {
    let first = page.get(..WORD_BYTES)?;
    let number = short_or(first, LittleEndian::read_u64(first));
    if is_full(page, number) {
        Some(number)
    } else {
        None
    }
}

/// The byte that all of these are, or else a number.
fn short_or(bytes: &[u8], long: u64) -> u64 {
    let first = bytes.first().copied().unwrap_or(0);
    for byte in bytes {
        if *byte != first {
            return long;
        }
    }
    u64::from(first)
}

/// Whether a page is of a number.
fn is_full(page: &[u8], number: u64) -> bool {
    let word = word_of(number);
    for (index, byte) in page.iter().enumerate() {
        if *byte != word[index % WORD_BYTES] {
            return false;
        }
    }
    true
}

/// Tells a page's bytes behind a word.
pub fn show_content(word: &str, page: &[u8], output: &mut Output) {
    output.word(word);
    match number_in(page) {
        Some(number) => output.number(number),
        None => output.word("mixed"),
    }
}
