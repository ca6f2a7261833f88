//! Why a text was not read.
use std::alloc::{AllocError, AllocFailed};
use thiserror::Error;

/// Why a text was not read.
#[derive(Clone, Copy, Debug, Error)]
pub enum TextError {
    /// This line is the first that is wrong, counted from 1 at the start of the input. Where the
    /// input ends too soon it is the line after its last.
    #[error("line {0}")]
    Line(u64),
    /// Out of memory for what is read.
    #[error("no memory")]
    NoMemory,
}

impl From<AllocError> for TextError {
    ghost use Rattle.std.specs.Prelude.{◌≡◌};
    ghost use Rattle.fa_texts.specs.declared.text_error.TextError.TheVariants.{NoMemory};

    ghost from_gives = { λ _ e. e ≡ NoMemory };

    fn from(_error: AllocError) -> TextError {
        TextError::NoMemory
    }
}

impl<T: Drop> From<AllocFailed<T>> for TextError {
    ghost use Rattle.std.specs.Prelude.{◌≡◌};
    ghost use Rattle.fa_texts.specs.declared.text_error.TextError.TheVariants.{NoMemory};

    ghost from_gives = { λ _ e. e ≡ NoMemory };

    fn from(_error: AllocFailed<T>) -> TextError {
        TextError::NoMemory
    }
}
