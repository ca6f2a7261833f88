//! Bytes written as words of hexadecimal digits. A word `11x512` is 512 bytes `11`.
use std::alloc::{AllocError, Global};
use std::test::Fail;

/// Puts the bytes that a word spells behind others.
fn spell(alloc: Global, word: &str, bytes: &mut Vec<u8>) -> Result<(), Fail> {
    let (digits, count) = word.split_once('x').unwrap_or((word, "1"));
    let count = count.parse::<u32>()?;
    let part = hex::decode(alloc, digits)?;
    Ok(append(&part, count, bytes)?)
}

/// Puts bytes behind others, so many times.
fn append(part: &[u8], count: u32, bytes: &mut Vec<u8>) -> Result<(), AllocError> {
    for _ in 0..count {
        bytes.extend_from_slice(part)?;
    }
    Ok(())
}

/// Puts the bytes that the words of a text spell behind others.
pub fn spell_all(alloc: Global, text: &str, bytes: &mut Vec<u8>) -> Result<(), Fail> {
    for word in text.split_whitespace() {
        spell(alloc, word, bytes)?;
    }
    Ok(())
}

/// The bytes that the words spell.
pub fn spelled(alloc: Global, text: &str) -> Result<Vec<u8>, Fail> {
    let mut bytes = Vec::new(alloc);
    spell_all(alloc, text, &mut bytes)?;
    Ok(bytes)
}

/// Texts, one behind the other.
pub fn joined(alloc: Global, texts: &[&str]) -> Result<Vec<u8>, Fail> {
    let mut bytes = Vec::new(alloc);
    for text in texts {
        spell_all(alloc, text, &mut bytes)?;
    }
    Ok(bytes)
}
