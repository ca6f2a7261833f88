//! Calls of a store, and a client that is served over it.
ghost use Rattle.std.specs.Prelude.{◌≡◌, ◌+◌, ◌≤◌, true};

use fa_session::serve_stream;
use fa_types::{BlockFault, Blocks};
use flasharr_lab_parts::{Heap, Meter, Tools};
use flasharr_lab_words::{Ask, Order, Output, bytes_of, full_page, number_at};

/// The name of the export that clients find.
pub(crate) const EXPORT: &str = "disk";

/// Makes a call of a store, and tells its answer.
pub fn ask<B: Blocks>(
    order: &Order,
    wish: Ask,
    tools: &mut Tools<'_>,
    said: &mut Vec<u8>,
    store: &mut B,
) {
    let numbers = order.numbers.as_slice();
    match wish {
        Ask::Read { is_told } => read(numbers, tools, store, is_told),
        Ask::Write { fua } => write_spelled(order, tools, store, fua),
        Ask::Fill => write_filled(numbers, tools, store),
        Ask::Serve => serve(tools, said, store),
        _ => {
            let answer = call_without_bytes(numbers, wish, &mut tools.meter, store);
            show_done(answer, &mut tools.output);
        }
    }
}

/// Tells whether a call was made.
fn show_done(answer: Option<Result<(), BlockFault>>, output: &mut Output) {
    match answer {
        Some(Ok(())) => output.word("done"),
        Some(Err(fault)) => output.refusal(&fault),
        None => output.word("refused: outside"),
    }
}

/// Whether a range lies within a store of this size.
fn is_inside(size: u64, offset: u64, len: u64) -> bool
    ensures { result ≡ true → offset + len ≤ size }
{
    len <= size && offset <= size - len
}

/// Reads, and tells the bytes or how many they are.
fn read<B: Blocks>(numbers: &[u64], tools: &mut Tools<'_>, store: &mut B, is_told: bool) {
    let heap = tools.heap();
    let answer = read_bytes(numbers, heap, &mut tools.meter, store);
    show_read(&answer, tools, is_told);
}

/// Tells the bytes that were read or how many they are.
fn show_read(
    answer: &Option<Result<Vec<u8, &Heap>, BlockFault>>,
    tools: &mut Tools<'_>,
    is_told: bool,
) {
    match answer {
        Some(Ok(bytes)) => show_bytes(bytes.as_slice(), tools, is_told),
        Some(Err(fault)) => tools.output.refusal(fault),
        None => tools.output.word("refused: outside"),
    }
}

fn show_bytes(bytes: &[u8], tools: &mut Tools<'_>, is_told: bool) {
    tools.output.word("read");
    if is_told {
        tools.output.bytes(tools.alloc, bytes);
    } else {
        tools.output.number(bytes.len() as u64);
    }
}

/// Reads bytes from an offset. None where they are not all in the store.
fn read_bytes<'a, B: Blocks>(
    numbers: &[u64],
    heap: &'a Heap,
    meter: &mut Meter<'_>,
    store: &mut B,
) -> Option<Result<Vec<u8, &'a Heap>, BlockFault>> {
    let offset = number_at(numbers, 0);
    let len = number_at(numbers, 1);
    if !is_inside(store.size(), offset, len) {
        return None;
    }
    let start = meter.start();
    let answer = store.read(heap, offset, len);
    meter.stop(start);
    Some(answer)
}

/// Writes the bytes that digits spell.
fn write_spelled<B: Blocks>(order: &Order, tools: &mut Tools<'_>, store: &mut B, fua: bool) {
    match bytes_of(tools.alloc, order.text.as_str()) {
        Some(bytes) => {
            let offset = number_at(order.numbers.as_slice(), 0);
            write(offset, bytes.as_slice(), fua, tools, store);
        }
        None => tools.output.word("no bytes"),
    }
}

/// Writes pages of a number.
fn write_filled<B: Blocks>(numbers: &[u64], tools: &mut Tools<'_>, store: &mut B) {
    let len = u32::try_from(number_at(numbers, 1)).unwrap_or(0);
    match full_page(tools.alloc, number_at(numbers, 2), len) {
        Ok(bytes) => write(number_at(numbers, 0), bytes.as_slice(), false, tools, store),
        Err(_) => tools.output.fail(),
    }
}

/// Writes bytes, and tells whether that was done.
fn write<B: Blocks>(offset: u64, bytes: &[u8], fua: bool, tools: &mut Tools<'_>, store: &mut B) {
    let answer = write_inside(offset, bytes, fua, &mut tools.meter, store);
    show_done(answer, &mut tools.output);
}

/// Writes bytes. None where they do not lie within the store.
fn write_inside<B: Blocks>(
    offset: u64,
    bytes: &[u8],
    fua: bool,
    meter: &mut Meter<'_>,
    store: &mut B,
) -> Option<Result<(), BlockFault>> {
    if !is_inside(store.size(), offset, bytes.len() as u64) {
        return None;
    }
    let start = meter.start();
    let answer = store.write(offset, bytes, fua);
    meter.stop(start);
    Some(answer)
}

/// Makes a call that has no bytes. None where its range does not lie within the store.
fn call_without_bytes<B: Blocks>(
    numbers: &[u64],
    wish: Ask,
    meter: &mut Meter<'_>,
    store: &mut B,
) -> Option<Result<(), BlockFault>> {
    let offset = number_at(numbers, 0);
    let len = number_at(numbers, 1);
    if !is_inside(store.size(), offset, len) {
        return None;
    }
    let start = meter.start();
    let answer = match wish {
        Ask::Zero { fua, hole } => store.zero(offset, len, fua, hole),
        Ask::Trim { fua } => store.trim(offset, len, fua),
        _ => store.flush(),
    };
    meter.stop(start);
    Some(answer)
}

/// Serves the client that said something, and tells how the connection ended and what the server said.
fn serve<B: Blocks>(tools: &mut Tools<'_>, said: &mut Vec<u8>, store: &mut B) {
    let mut written = Vec::new(tools.alloc);
    let heap = tools.heap();
    let start = tools.meter.start();
    let mut rest = said.as_slice();
    let end = serve_stream(heap, &mut rest, &mut written, store, EXPORT);
    tools.meter.stop(start);
    said.clear();
    tools.output.pair("end", u64::from(end.number()));
    tools.output.bytes(tools.alloc, written.as_slice());
}
