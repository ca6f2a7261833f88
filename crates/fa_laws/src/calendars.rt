//! What a calendar and the array's definitions say of windows.
ghost use Rattle.std.specs.Prelude.{◌≡◌, ◌↔◌, ℕ, true};
ghost use Rattle.fa_types.specs.Windows.{IsFirstWindow};
ghost use Rattle.fa_machine.specs.Rounds.{is_closed, is_taken};
ghost use Rattle.fa_machine.specs.State.{CalendarState, MapState, is_live};

/// The first window that a calendar finds for a die, which knows what is booked and what is in a window, is
/// the array's for that die, where it is live.
pub fn a_calendars_window_is_the_arrays()
    ensures { (m : MapState) (calendar : CalendarState) (die count first : ℕ) → is_live m die ≡ true
        → (IsFirstWindow calendar.round (is_taken calendar die) count first
        ↔ IsFirstWindow calendar.round (is_closed m calendar die) count first) }
{}
