//! Masks of dies: bit `d` stands for die `d`.
ghost use Rattle.std.specs.Prelude.{◌≡◌, ◌≤◌, ◌<◌, ◌==◌, ◌&&◌, ◌||◌, ℕ, not};
ghost use Rattle.fa_mount_headers.specs.Rules.{is_in as rule_in};

/// Whether the die is in the mask.
pub(crate) fn is_in(mask: u64, die: u32) -> bool
    requires { die < 64 }
    ensures { result ≡ rule_in mask die }
{
    (mask >> die) & 1 == 1
}

/// The mask with the die.
pub(crate) fn with(mask: u64, die: u32) -> u64
    requires { die < 64 }
    ensures { (other : ℕ) → rule_in result other ≡ (other == die || rule_in mask other) }
{
    mask | (1 << die)
}

/// The mask without the die.
pub(crate) fn without(mask: u64, die: u32) -> u64
    requires { die < 64 }
    ensures others { (other : ℕ) → rule_in result other ≡ (not (other == die) && rule_in mask other) }
    ensures less { result ≤ mask }
{
    mask & !(1 << die)
}
