//! The words of lines as they are printed.
ghost use Rattle.std.specs.Prelude.{◌≡◌, [], ◌∷◌, ◌++◌, OnOk, string_bytes};
ghost use Rattle.std.specs.Fmt.{decimal};
ghost use Rattle.fa_texts.specs.Text.{IsWord, PrintsLines};

use itoa::Buffer;
use std::alloc::{AllocError, Allocator};

/// Adds a space, and a number behind it.
pub(crate) fn push_number<A: Allocator>(out: &mut String<A>, number: u64) -> Result<(), AllocError>
    ensures { OnOk result (string_bytes out.new ≡ string_bytes out.old ++ 32 ∷ decimal number) }
{
    let mut digits = Buffer::new();
    out.push_str(" ")?;
    out.push_str(digits.format(number))
}

/// Adds a line of a word and three numbers.
pub(crate) fn print_three<A: Allocator>(
    out: &mut String<A>,
    word: &str,
    first: u64,
    second: u64,
    third: u64,
) -> Result<(), AllocError>
    requires { IsWord word.now }
    ensures { OnOk result (PrintsLines (string_bytes out.old) (string_bytes out.new)
        ((word.now ∷ decimal first ∷ decimal second ∷ decimal third ∷ []) ∷ [])) }
{
    out.push_str(word)?;
    push_number(out, first)?;
    push_number(out, second)?;
    push_number(out, third)?;
    out.push_str("\n")?;
    Ok(())
}
