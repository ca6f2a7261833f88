//! Whether a write may get room if it waits.
ghost use Rattle.std.specs.Prelude.{◌≡◌, ◌<◌, false};
ghost use Rattle.fa_shared_lock.specs.Founded.{may_collect, may_free as rule_free};

use fa_core_calls::Looks;
use fa_machine::JobKind;
use fa_types::Die;
use std::alloc::Allocator;

/// Whether slots may become free, or what is reserved may be given back: a copy is under way, a die programs, or a live die without room
/// has a victim or is at a step of its collector. Where none may, no die has a block to collect; which other write waits is in no clause.
pub(crate) fn may_get_room<E: Looks>(array: &E) -> bool
    ensures { result ≡ false → may_collect (E.core array.now).page_map ≡ false }
{
    if array.copy_open() {
        return true;
    }
    for die in 0..array.geometry().dies {
        if may_free(array, Die(die as u8)) {
            return true;
        }
    }
    false
}

/// Whether this die may.
fn may_free<E: Looks>(array: &E, die: Die) -> bool
    requires { die.0 < (E.core array.now).page_map.geometry.dies }
    ensures { result ≡ false → rule_free (E.core array.now).page_map die.0 ≡ false }
{
    if !array.is_live(die) {
        return false;
    }
    match array.job_kind(die) {
        Some(JobKind::Program) => true,
        Some(JobKind::Move | JobKind::Erase) => array.room(die) == 0,
        _ => array.room(die) == 0 && array.victim(die).is_some(),
    }
}
