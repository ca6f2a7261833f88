//! What is true of each job that is handed out.
ghost use Rattle.std.specs.Prelude.{◌≡◌, ℕ, List, Some, length};
ghost use Rattle.fa_machine.specs.State.{Core};
ghost use Rattle.fa_machine.specs.Taking.{Handed, Takes};
ghost use Rattle.fa_sound.specs.Ready.{AreReady};
ghost use Rattle.fa_sound.specs.Sound.{IsSound};
ghost use Rattle.fa_core_dispatch.specs.Limits.{HasLimits};
ghost use Rattle.fa_core_outcome.specs.Fits.{IsJobFor};

/// Whatever a Take hands out fits the die and its image: its slots and its block are the die's, and what it writes is a slot with a
/// page's bytes, or a header of the array with this number.
pub fn what_is_handed_out_fits()
    ensures { (core new : Core) (die seat : ℕ) (job : Handed) (array : List ℕ) → IsSound core → AreReady core → HasLimits core
        → length array ≡ 16 → Takes core die seat (Some job) new → IsJobFor core.page_map.geometry array die job }
{}
