//! Texts that grow part by part.
ghost use Rattle.std.specs.Prelude.{◌≡◌, ◌++◌, ◌∷◌, [], OnOk, string_bytes};
ghost use Rattle.std.specs.Fmt.{decimal};
ghost use Rattle.std.specs.List.{flat_map};

use fa_prog_host::printing::push_number;
use std::alloc::AllocError;

/// Adds parts, one behind the other.
pub(crate) fn push_parts(out: &mut String, parts: &[&str]) -> Result<(), AllocError>
    ensures { OnOk result (string_bytes out.new ≡ string_bytes out.old ++ flat_map (λ part. part.now) parts.now) }
{
    for part in parts {
        out.push_str(part)?;
    }
    Ok(())
}

/// Adds parts, and a number that ends the line.
pub(crate) fn push_line(out: &mut String, parts: &[&str], number: u64) -> Result<(), AllocError>
    ensures { OnOk result (string_bytes out.new
        ≡ string_bytes out.old ++ flat_map (λ part. part.now) parts.now ++ decimal number ++ 10 ∷ []) }
{
    push_parts(out, parts)?;
    push_number(out, number)?;
    out.push('\n')
}
