//! How the dies stand once their slots were read.
ghost use Rattle.std.specs.Prelude.{◌≡◌, ◌<◌, ◌≤◌, [], ◌∷◌, ◌++◌, List, length, position, IfOk, IfSome, OnOk};
ghost use Rattle.std.specs.List.{list_all};
ghost use Rattle.fa_mount_scan.specs.Scanned.{AreSettled, Outcome, any_live as any_live_of, is_erased, is_refused, settled};
ghost use Rattle.fa_mount_scan.specs.Scanned.{fault_at as refusal_at, image_refusal as refusal_of_images};

use crate::slots::content::{DieContents, SlotContent};
use crate::slots::dies::{DieRead, index_read};
use fa_mount_headers::{MountFault, MountRefused, Standing};
use fa_mount_standing::found_on_live;
use fa_types::Die;
use std::alloc::{AllocError, Allocator};

/// How each die stands, and what is mounted of it.
#[derive(Drop)]
pub(crate) struct Settled<A: Allocator> {
    pub dies: Vec<Standing, A>,
    pub contents: Vec<Option<DieContents<A>>, A>,
}

/// Settles each die by what came of reading it.
pub(crate) fn settle<A: Allocator + Copy>(
    alloc: A,
    standings: &[Standing],
    outcomes: Vec<Option<DieRead<A>>, A>,
) -> Result<Settled<A>, AllocError>
    requires { length outcomes.items ≡ length standings.now }
    ensures { IfOk result (λ s. AreSettled standings.now outcomes.items s.dies.items s.contents.items) }
{
    let mut settled = Settled {
        dies: Vec::with_capacity(alloc, standings.len())?,
        contents: Vec::with_capacity(alloc, standings.len())?,
    };
    for outcome in outcomes {
        settle_next(standings, outcome, &mut settled)?;
    }
    Ok(settled)
}

/// Settles one die more.
fn settle_next<A: Allocator>(
    standings: &[Standing],
    outcome: Option<DieRead<A>>,
    settled: &mut Settled<A>,
) -> Result<(), AllocError>
    requires { length settled.old.dies.items < length standings.now }
    ensures { OnOk result ((outcomes : List Outcome) → AreSettled standings.now outcomes settled.old.dies.items settled.old.contents.items
        → AreSettled standings.now (outcomes ++ outcome ∷ []) settled.new.dies.items settled.new.contents.items) }
{
    let standing = standings[settled.dies.len()];
    settled.dies.push(settled_by(standing, &outcome))?;
    settled.contents.push(found_on_live(standing, outcome))?;
    Ok(())
}

/// How a die stands once its slots were read.
fn settled_by<A: Allocator>(standing: Standing, outcome: &Option<DieRead<A>>) -> Standing
    ensures { result ≡ settled standing outcome.now }
{
    match (standing, outcome) {
        (Standing::Live(index), Some(Ok(_))) => Standing::Live(index),
        (Standing::Live(index), _) => Standing::Out(index),
        (Standing::Spare(index), Some(Ok(found))) => {
            if is_blank(found.slots()) {
                Standing::Spare(index)
            } else {
                Standing::Out(index)
            }
        }
        (Standing::Spare(index), _) => Standing::Out(index),
        (other, _) => other,
    }
}

/// Whether all slots are erased.
pub(crate) fn is_blank(slots: &[SlotContent]) -> bool
    ensures { result ≡ list_all is_erased slots.now }
{
    slots
        .iter()
        .all(|content| matches!(content, SlotContent::Erased))
}

/// The refusal for the first die whose image refused a read, unless the array may be mounted unclean.
pub(crate) fn image_refusal<A: Allocator>(
    unclean: bool,
    standings: &[Standing],
    outcomes: &[Option<DieRead<A>>],
) -> Option<MountRefused>
    requires few { length standings.now ≤ 64 }
    requires each { length outcomes.now ≡ length standings.now }
    ensures { result ≡ refusal_of_images unclean standings.now outcomes.now }
{
    if unclean {
        return None;
    }
    match first_refused(outcomes) {
        None => None,
        Some(die) => Some(fault_at(standings, die)),
    }
}

/// The first die whose image refused a read.
fn first_refused<A: Allocator>(outcomes: &[Option<DieRead<A>>]) -> Option<usize>
    ensures first { result ≡ position is_refused outcomes.now }
    ensures within { IfSome result (λ die. die < length outcomes.now) }
{
    outcomes
        .iter()
        .position(|outcome| matches!(outcome, Some(Err(_))))
}

/// The refusal for a die whose image refused a read.
pub(crate) fn fault_at(standings: &[Standing], die: usize) -> MountRefused
    requires die { die < length standings.now }
    requires few { length standings.now ≤ 64 }
    ensures { result ≡ refusal_at standings.now die }
{
    MountRefused {
        fault: MountFault::ImageFault,
        image: index_read(standings[die]),
        die: Some(Die(die as u8)),
    }
}

/// Whether any die is live.
pub(crate) fn any_live<A: Allocator>(contents: &[Option<DieContents<A>>]) -> bool
    ensures { result ≡ any_live_of contents.now }
{
    contents.iter().any(|found| found.is_some())
}
