//! The lines of an input.
ghost use Rattle.std.specs.Prelude.{◌≡◌, ◌<◌, [], ◌∷◌, length, IfSome, MatchOption, ◌==◌, position};
ghost use Rattle.fa_io.specs.Lines.{lines_of};

/// The first line of an input and what follows its line feed; nothing where the input is at its end.
pub fn cut_line(input: &[u8]) -> Option<(&[u8], &[u8])>
    ensures lines { MatchOption result (lines_of input.now ≡ []) (λ r. lines_of input.now ≡ r.0.now ∷ lines_of r.1.now) }
    ensures less { IfSome result (λ r. length r.1.now < length input.now) }
{
    if input.is_empty() {
        return None;
    }
    match first_index(input, b'\n') {
        Some(end) => Some((&input[..end], &input[end + 1..])),
        None => Some((input, &[])),
    }
}

/// The first index of a byte.
pub fn first_index(bytes: &[u8], byte: u8) -> Option<usize>
    ensures { result ≡ position (λ b. b == byte) bytes.now }
{
    bytes.iter().position(|b| *b == byte)
}
