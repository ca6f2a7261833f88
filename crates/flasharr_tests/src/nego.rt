//! What a negotiation keeps where memory is refused, and how far it hears a piece that goes on behind an item. The export is `disk`, of
//! 32,768 bytes.
use crate::spelling::spelled;
use fa_nego::{Fed, Nego};
use linked_list_allocator::LocalHeap;
use std::alloc::Global;
use std::test::Fail;

/// Feeds a piece with a small heap, and again with a large one where the small one refuses, which it
/// tells.
fn feed_again<'a>(
    nego: &mut Nego<&'a LocalHeap>,
    small: &'a LocalHeap,
    large: &'a LocalHeap,
    piece: &[u8],
) -> Result<(Fed<&'a LocalHeap>, bool), Fail> {
    let wanted = nego.wanted();
    if let Ok(fed) = nego.feed(small, piece) {
        return Ok((fed, false));
    }
    ensure!(nego.wanted() == wanted);
    Ok((nego.feed(large, piece)?, true))
}

/// Feeds all that is left of the input, of which the next item is used, and tells how many bytes are used, how many are said, which are
/// the first of those that are wanted, and whether the small heap refused the answer.
fn hears_next<'a>(
    nego: &mut Nego<&'a LocalHeap>,
    small: &'a LocalHeap,
    large: &'a LocalHeap,
    rest: &[u8],
    unsaid: &[u8],
) -> Result<(usize, usize, bool), Fail> {
    let wanted = nego.wanted();
    let (fed, is_refused) = feed_again(nego, small, large, rest)?;
    ensure!(fed.used == wanted && unsaid.starts_with(fed.out.as_slice()), at rest.len());
    Ok((fed.used, fed.out.len(), is_refused))
}

/// Feeds the flags and the options, each answered in the small heap if it can be, and tells how many
/// answers that heap refused. What stands behind them is left.
fn refused_of<'a>(
    nego: &mut Nego<&'a LocalHeap>,
    small: &'a LocalHeap,
    large: &'a LocalHeap,
    input: &[u8],
    output: &[u8],
) -> Result<u32, Fail> {
    let mut rest = input;
    let mut unsaid = output;
    let mut refused = 0u32;
    for _ in 0..5 {
        let (used, said, is_refused) = hears_next(nego, small, large, rest, unsaid)?;
        rest = &rest[used.min(rest.len())..];
        unsaid = &unsaid[said.min(unsaid.len())..];
        refused = refused.saturating_add(u32::from(is_refused));
    }
    ensure!(
        unsaid.is_empty() && nego.wanted() == 0 && rest == b"next".as_slice(),
        at refused
    );
    Ok(refused)
}

/// How many answers of a negotiation a heap of this size refused.
fn refused_answers(
    alloc: Global,
    large: &LocalHeap,
    room: usize,
    input: &[u8],
    output: &[u8],
) -> Result<u32, Fail> {
    let small = LocalHeap::new(alloc, room)?;
    let mut nego = Nego::new(large, "disk", 32768);
    refused_of(&mut nego, &small, large, input, output)
}

/// In how many runs answers were refused, and how many of them in the last one. The small heap grows by little from run to run, so
/// that each growth is refused in some run.
fn refused_in_all(
    alloc: Global,
    large: &LocalHeap,
    input: &[u8],
    output: &[u8],
) -> Result<(u32, u32), Fail> {
    let mut refused = 0u32;
    let mut refused_last = 1u32;
    for room in 0..64usize {
        refused_last = refused_answers(alloc, large, room * 16, input, output)?;
        refused = refused.saturating_add(refused_last);
    }
    Ok((refused, refused_last))
}

#[test]
fn refused_answers_are_said_later(rt: HostRuntime) -> Result<(), Fail> {
    let input = spelled(
        rt.alloc(),
        "00000001 49484156454f5054 00000003 00000000
        49484156454f5054 00000006 0000000a 00000000 0002 0001 0003
        49484156454f5054 00000001 00000000 6e657874",
    )?;
    let output = spelled(
        rt.alloc(),
        "0003e889045565a9 00000003 00000002 00000008 00000004 6469736b
        0003e889045565a9 00000003 00000001 00000000
        0003e889045565a9 00000006 00000003 0000000c 0000 0000000000008000 016d
        0003e889045565a9 00000006 00000003 00000006 0001 6469736b
        0003e889045565a9 00000006 00000003 0000000e 0003 00000001 00001000 02000000
        0003e889045565a9 00000006 00000001 00000000
        0000000000008000 016d 00x124",
    )?;
    let large = LocalHeap::new(rt.alloc(), 16_384)?;
    let (refused, refused_last) = refused_in_all(rt.alloc(), &large, &input, &output)?;
    ensure!(refused > 20 && refused_last == 0);
    Ok(())
}
