//! The end of an array's use: it is closed, and it is told how.
ghost use Rattle.std.specs.Prelude.{◌≡◌, ◌++◌, IfOk, OnOk, map, string_bytes};
ghost use Rattle.fa_core.specs.Array.{IsWhole, number_of, state_of};
ghost use Rattle.fa_prog_array.specs.Ending.{ClosesOver, closed_line, closed_status, fault_line, fault_lines};
ghost use Rattle.std.specs.Fmt.{decimal};

use fa_faults::Fault;
use fa_image::Image;
use fa_map_calls::Map;
use fa_mount::{CloseFault, MountedArray, close_clean};
use fa_prog_host::printing::{DONE, REFUSED, push_number};
use std::alloc::{AllocError, Global};

/// Closes the array over its images. Where a live die has none, nothing is closed, and the fault is that the array is busy.
pub fn close<M: Map + Drop, I: Image>(
    mounted: &MountedArray<M>,
    images: &mut [I],
) -> Result<u64, CloseFault>
    requires { IsWhole M.view mounted.now.array }
    ensures closes { ClosesOver I.made (state_of M.view mounted.now.array) (number_of mounted.now.array) mounted.now.dies.items
        images.old images.new result }
    ensures slots { map (λ image. (I.view image).slots) images.new ≡ map (λ image. (I.view image).slots) images.old }
    ensures honest { map I.honest images.new ≡ map I.honest images.old }
{
    if mounted.has_images(images.len()) {
        close_clean(mounted, images)
    } else {
        Err(CloseFault::Busy)
    }
}

/// The status of a command that closed its array so.
pub fn status_of(closed: Result<u64, CloseFault>) -> u8
    ensures { result ≡ closed_status closed }
{
    match closed {
        Ok(_) => DONE,
        Err(_) => REFUSED,
    }
}

/// The lines of the faults that were kept, the oldest first, and of the closing. The error is out of memory.
pub fn end_text(
    global: Global,
    faults: Vec<Fault>,
    closed: Result<u64, CloseFault>,
) -> Result<String, AllocError>
    ensures { IfOk result (λ text. string_bytes text ≡ fault_lines faults.items ++ closed_line closed) }
{
    let mut out = String::new(global);
    push_faults(&mut out, faults)?;
    push_closed(&mut out, closed)?;
    Ok(out)
}

/// Adds the lines of faults.
fn push_faults(out: &mut String, faults: Vec<Fault>) -> Result<(), AllocError>
    ensures { OnOk result (string_bytes out.new ≡ string_bytes out.old ++ fault_lines faults.items) }
{
    for fault in faults {
        push_fault(out, fault)?;
    }
    Ok(())
}

/// Adds the line of a fault.
fn push_fault(out: &mut String, fault: Fault) -> Result<(), AllocError>
    ensures { OnOk result (string_bytes out.new ≡ string_bytes out.old ++ fault_line fault) }
{
    out.push_str("fault die ")?;
    push_number(out, u64::from(fault.die.0))?;
    out.push_str(" cause ")?;
    push_number(out, u64::from(fault.cause.number()))?;
    out.push_str(" round ")?;
    push_number(out, fault.round.0)?;
    out.push('\n')
}

/// Adds the line of the closing.
fn push_closed(out: &mut String, closed: Result<u64, CloseFault>) -> Result<(), AllocError>
    ensures { OnOk result (string_bytes out.new ≡ string_bytes out.old ++ closed_line closed) }
{
    match closed {
        Ok(_) => out.push_str("closed clean\n"),
        Err(fault) => {
            out.push_str("closed unclean: ")?;
            push_number(out, u64::from(fault.number()))?;
            out.push('\n')
        }
    }
}
