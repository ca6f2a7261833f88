//! Dies that are collected: windows are given, and the rounds pass in which the steps are made.
ghost use Rattle.std.specs.Prelude.{◌≡◌, ◌⊎◌, ◌-◌, ◌^◌, ◌≤◌, true, false};
ghost use Rattle.fa_machine.specs.Looks.{wants_window};
ghost use Rattle.fa_machine.specs.Step.{is_die};
ghost use Rattle.fa_solo.specs.Collecting.{Collects, Gives, Steps, WantNone, WantsNone, both_of, of_window};
ghost use Rattle.fa_solo_job.specs.Deeds.{IsForDies};
ghost use Rattle.fa_solo_job.specs.Inner.{Does, Halts, TidiesBy};
ghost use Rattle.fa_solo_job.specs.Orders.{WantsNoWindow};

use crate::jobs::work_off;
use fa_core_calls::Events;
use fa_image::Image;
use fa_machine::WindowRefused;
use fa_shared::window;
use fa_solo_job::Inner;
use fa_types::{Die, Round};
use std::alloc::Allocator;
use std::sync::ledger::Ledger;

/// What came of giving windows.
#[derive(Clone, Copy)]
pub(crate) enum Windows {
    /// No die wanted one.
    Unwanted,
    /// Dies have windows.
    Given,
    /// A die that wants one was refused it.
    Refused(WindowRefused),
}

/// Gives windows and makes their steps until no live die wants a window. False where a die that wants one was refused it.
pub(crate) fn collect<L: Ledger, E: Events<A>, I: Image, A: Allocator + Copy>(
    inner: &mut Inner<L, E, I, A>,
) -> bool
    ensures does { Does I.made IsForDies inner.old inner.new }
    ensures unwanted { result ≡ true → WantsNoWindow inner.new.locked.core }
    ensures halted { result ≡ false → Halts I.made inner.old inner.new ⊎ TidiesBy I.made (2 ^ 64 - 1) inner.old inner.new }
{
    for turns in 0..u64::MAX {
        match collect_once(inner) {
            Windows::Unwanted => return true,
            Windows::Given => {}
            Windows::Refused(_) => return false,
        }
    }
    false
}

/// Gives windows and makes their steps. Once more, where none was wanted before, and the jobs left a die that wants one.
fn collect_once<L: Ledger, E: Events<A>, I: Image, A: Allocator + Copy>(
    inner: &mut Inner<L, E, I, A>,
) -> Windows
    ensures does { Does I.made IsForDies inner.old inner.new }
    ensures collects { Collects I.made result inner.old inner.new }
{
    let windows = step_windows(inner);
    if !matches!(windows, Windows::Unwanted) {
        return windows;
    }
    if is_unwanted(inner) {
        return Windows::Unwanted;
    }
    step_windows(inner)
}

/// Gives windows, and makes what there is to be done then.
fn step_windows<L: Ledger, E: Events<A>, I: Image, A: Allocator + Copy>(
    inner: &mut Inner<L, E, I, A>,
) -> Windows
    ensures does { Does I.made IsForDies inner.old inner.new }
    ensures steps { Steps I.made result inner.old inner.new }
{
    let windows = give_windows(inner, false);
    work_off(inner);
    windows
}

/// Whether no die wants a window.
fn is_unwanted<L: Ledger, E: Events<A>, I: Image, A: Allocator + Copy>(
    inner: &Inner<L, E, I, A>,
) -> bool
    ensures yes { result ≡ true → WantsNoWindow inner.now.locked.core }
    ensures no { result ≡ false → WantsNoWindow inner.now.locked.core → ⊥ }
{
    for die in 0..inner.locked.array().geometry().dies {
        if is_wanted(inner, Die(die as u8), false) {
            return false;
        }
    }
    true
}

/// Gives a window to each die that wants one and has none. Where a write waits for room those are asked alone that have none.
pub(crate) fn give_windows<L: Ledger, E: Events<A>, I: Image, A: Allocator + Copy>(
    inner: &mut Inner<L, E, I, A>,
    for_room: bool,
) -> Windows
    ensures does { Does I.made IsForDies inner.old inner.new }
    ensures gives { Gives I.made (WantNone for_room) result inner.old inner.new }
{
    let mut windows = Windows::Unwanted;
    for die in 0..inner.locked.array().geometry().dies {
        windows = both(windows, give_window(inner, Die(die as u8), for_room));
    }
    windows
}

/// What came of two dies: a refusal is told, and else whether one has a window.
fn both(one: Windows, other: Windows) -> Windows
    ensures { result ≡ both_of one other }
{
    match one {
        Windows::Unwanted => other,
        Windows::Given => match other {
            Windows::Refused(refused) => Windows::Refused(refused),
            _ => Windows::Given,
        },
        Windows::Refused(refused) => Windows::Refused(refused),
    }
}

/// Gives a window to a die, if it wants one and has none.
fn give_window<L: Ledger, E: Events<A>, I: Image, A: Allocator + Copy>(
    inner: &mut Inner<L, E, I, A>,
    die: Die,
    for_room: bool,
) -> Windows
    ensures does { Does I.made IsForDies inner.old inner.new }
    ensures gives { Gives I.made (WantsNone for_room die.0) result inner.old inner.new }
{
    if !is_wanted(inner, die, for_room) {
        return Windows::Unwanted;
    }
    ask_window(inner, die)
}

/// Asks for a window for a die that wants one.
fn ask_window<L: Ledger, E: Events<A>, I: Image, A: Allocator + Copy>(
    inner: &mut Inner<L, E, I, A>,
    die: Die,
) -> Windows
    requires die { is_die inner.old.locked.core die.0 ≡ true }
    requires wanted { wants_window inner.old.locked.core.page_map die.0 ≡ true }
    ensures does { Does I.made IsForDies inner.old inner.new }
    ensures gives { Gives I.made (λ core. ⊥) result inner.old inner.new }
{
    let rounds = rounds_of(inner.window_rounds);
    match window(inner.alloc, &mut inner.locked, &mut inner.seat, die, rounds) {
        Some(answer) => windows_of(answer),
        None => unreachable!(),
    }
}

/// As many rounds as a window may have, 1 to 64.
fn rounds_of(wanted: u64) -> u64
    ensures some { 1 ≤ result }
    ensures most { result ≤ 64 }
{
    if wanted < 1 {
        return 1;
    }
    if 64 < wanted {
        return 64;
    }
    wanted
}

/// What came of a Window that a die wants.
fn windows_of(answer: Result<Round, WindowRefused>) -> Windows
    ensures { result ≡ of_window answer }
{
    match answer {
        Ok(_) | Err(WindowRefused::HasOne) => Windows::Given,
        Err(refused) => Windows::Refused(refused),
    }
}

/// Whether the die wants a window, and, where a write waits for room, has no room.
fn is_wanted<L: Ledger, E: Events<A>, I: Image, A: Allocator + Copy>(
    inner: &Inner<L, E, I, A>,
    die: Die,
    for_room: bool,
) -> bool
    ensures die { result ≡ true → is_die inner.now.locked.core die.0 ≡ true }
    ensures wanted { result ≡ true → wants_window inner.now.locked.core.page_map die.0 ≡ true }
    ensures unwanted { result ≡ false → WantsNone for_room die.0 inner.now.locked.core }
{
    let array = inner.locked.array();
    if !array.is_die(die) {
        return false;
    }
    if for_room && array.room(die) != 0 {
        return false;
    }
    array.wants_window(die)
}
