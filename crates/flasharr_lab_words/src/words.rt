//! The words of a line.
use fa_types::Die;
use std::alloc::{AllocError, Global};

/// A line taken apart: its numbers in their order, and its name, which is all other words.
#[derive(Drop)]
pub(crate) struct Words {
    pub name: String,
    pub numbers: Vec<u64>,
}

impl Words {
    /// The words of a line, one space between two of them. The error is out of memory.
    pub fn of(alloc: Global, line: &str) -> Result<Words, AllocError> {
        let mut words = Words {
            name: String::new(alloc),
            numbers: Vec::new(alloc),
        };
        for word in line.split(' ') {
            words.add(word)?;
        }
        Ok(words)
    }

    fn add(&mut self, word: &str) -> Result<(), AllocError> {
        match word.parse::<u64>() {
            Ok(number) => self.numbers.push(number)?,
            Err(_) => self.add_to_name(word)?,
        }
        Ok(())
    }

    fn add_to_name(&mut self, word: &str) -> Result<(), AllocError> {
        let space = if self.name.is_empty() { "" } else { " " };
        self.name.push_str(space)?;
        self.name.push_str(word)
    }
}

/// The number at an index, and 0 where there is none.
pub fn number_at(numbers: &[u64], index: usize) -> u64 {
    numbers.get(index).copied().unwrap_or(0)
}

/// The number at an index, or the greatest of its type where the number is greater.
pub fn small_at(numbers: &[u64], index: usize) -> u32 {
    u32::try_from(number_at(numbers, index)).unwrap_or(u32::MAX)
}

/// A number as an index of a list.
pub fn index_of(number: u64) -> usize {
    usize::try_from(number).unwrap_or(usize::MAX)
}

/// What stands behind a name and a space, and nothing where the line is the name alone. None where the line has another name.
pub(crate) fn behind<'a>(line: &'a str, name: &str) -> Option<&'a str> {
    match line.strip_prefix(name) {
        Some("") => Some(""),
        Some(rest) => rest.strip_prefix(' '),
        None => None,
    }
}

/// The die of a number. One that is too great for a die gives a die that no array has.
pub fn die_of(number: u64) -> Die {
    Die(u8::try_from(number).unwrap_or(u8::MAX))
}
