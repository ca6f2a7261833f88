//! The lines of `check`.
ghost use Rattle.std.specs.Prelude.{◌≡◌, ◌++◌, IfOk, OnOk, string_bytes};
ghost use Rattle.fa_prog_images.specs.Lines.{check_text as text_of, dies_line, epoch_line, pages_line};

use fa_mount_scan::Report;
use fa_prog_host::printing::push_number;
use std::alloc::{AllocError, Allocator};

/// What `check` prints of an array.
pub(crate) fn check_text<A: Allocator>(alloc: A, report: &Report) -> Result<String<A>, AllocError>
    ensures { IfOk result (λ out. string_bytes out ≡ text_of report.now) }
{
    let mut out = String::new(alloc);
    push_dies(&mut out, report)?;
    push_epoch(&mut out, report)?;
    push_pages(&mut out, report)?;
    Ok(out)
}

/// Adds how many dies there are, are live and are spare.
fn push_dies<A: Allocator>(out: &mut String<A>, report: &Report) -> Result<(), AllocError>
    ensures { OnOk result (string_bytes out.new ≡ string_bytes out.old ++ dies_line report.now) }
{
    out.push_str("dies ")?;
    push_number(out, u64::from(report.dies))?;
    out.push_str(" live ")?;
    push_number(out, u64::from(report.live))?;
    out.push_str(" spare ")?;
    push_number(out, report.spares as u64)?;
    out.push('\n')
}

/// Adds the epoch, and whether the array was closed clean in it.
fn push_epoch<A: Allocator>(out: &mut String<A>, report: &Report) -> Result<(), AllocError>
    ensures { OnOk result (string_bytes out.new ≡ string_bytes out.old ++ epoch_line report.now) }
{
    out.push_str("epoch ")?;
    push_number(out, report.epoch)?;
    if report.clean {
        out.push_str(" clean\n")
    } else {
        out.push_str(" unclean\n")
    }
}

/// Adds how many pages were written, and how many have fewer copies than there could be.
fn push_pages<A: Allocator>(out: &mut String<A>, report: &Report) -> Result<(), AllocError>
    ensures { OnOk result (string_bytes out.new ≡ string_bytes out.old ++ pages_line report.now) }
{
    out.push_str("written ")?;
    push_number(out, report.written)?;
    out.push_str(" thin ")?;
    push_number(out, report.thin)?;
    out.push('\n')
}
