//! Four words side by side, each twice: once in each half of a lane of 64 bits. So a rotation is one shift, which leaves the rotated word in the
//! low half. What is computed has its word there, and anything in the high half, until it is doubled (FIPS 180-4, 4.1.2).
ghost use Rattle.std.specs.Prelude.{◌≡◌, ◌<◌, ◌/◌, ◌^◌, ℕ, bit_and, bit_xor};
ghost use Rattle.std.specs.Int.{w32, rotate_right as rotated_right};
ghost use Rattle.sha2.specs.Sha256 as standard;
ghost use Rattle.fa_lanes.specs.Wide.{HasLow, IsTwice, low};

use std::simd::prelude::*;

/// The bits of the low half of a lane.
const LOW_HALF: u64 = 0xffff_ffff;

/// The sums of words, with the carry out of each word dropped.
#[inline(always)]
pub(crate) fn add(a: u64x4, b: u64x4) -> u64x4
    ensures { HasLow result (λ l. standard.add32 (low a l) (low b l)) }
{
    a + b
}

#[inline(always)]
fn and(a: u64x4, b: u64x4) -> u64x4
    ensures { HasLow result (λ l. bit_and (low a l) (low b l)) }
{
    a & b
}

#[inline(always)]
fn xor(a: u64x4, b: u64x4) -> u64x4
    ensures { HasLow result (λ l. bit_xor (low a l) (low b l)) }
{
    a ^ b
}

/// The words of the low halves, in both halves.
#[inline(always)]
pub(crate) fn double(a: u64x4) -> u64x4
    ensures low { HasLow result (low a) }
    ensures twice { IsTwice result }
{
    (a << 32) | (a & u64x4::splat(LOW_HALF))
}

#[inline(always)]
fn shift_right(a: u64x4, by: u64) -> u64x4
    requires { by < 32 }
    ensures { IsTwice a → HasLow result (λ l. low a l / 2 ^ by) }
{
    a >> (32 + by)
}

/// The words rotated by 1 to 31 places.
#[inline(always)]
fn rotate_right(a: u64x4, by: u64) -> u64x4
    requires some { 0 < by }
    requires few { by < 32 }
    ensures { IsTwice a → HasLow result (λ l. rotated_right w32 (low a l) by) }
{
    a >> by
}

/// One operation fewer than the standard's form.
#[inline(always)]
pub(crate) fn ch(x: u64x4, y: u64x4, z: u64x4) -> u64x4
    ensures { HasLow result (λ l. standard.ch (low x l) (low y l) (low z l)) }
{
    xor(z, and(x, xor(y, z)))
}

/// One round's `x ^ y` is the next round's `y ^ z`, so it is computed once.
#[inline(always)]
pub(crate) fn maj(x: u64x4, y: u64x4, z: u64x4) -> u64x4
    ensures { HasLow result (λ l. standard.maj (low x l) (low y l) (low z l)) }
{
    xor(y, and(xor(x, y), xor(y, z)))
}

#[inline(always)]
pub(crate) fn big_sigma0(x: u64x4) -> u64x4
    ensures { IsTwice x → HasLow result (λ l. standard.big_sigma0 (low x l)) }
{
    xor(
        xor(rotate_right(x, 2), rotate_right(x, 13)),
        rotate_right(x, 22),
    )
}

#[inline(always)]
pub(crate) fn big_sigma1(x: u64x4) -> u64x4
    ensures { IsTwice x → HasLow result (λ l. standard.big_sigma1 (low x l)) }
{
    xor(
        xor(rotate_right(x, 6), rotate_right(x, 11)),
        rotate_right(x, 25),
    )
}

#[inline(always)]
pub(crate) fn small_sigma0(x: u64x4) -> u64x4
    ensures { IsTwice x → HasLow result (λ l. standard.small_sigma0 (low x l)) }
{
    xor(
        xor(rotate_right(x, 7), rotate_right(x, 18)),
        shift_right(x, 3),
    )
}

#[inline(always)]
pub(crate) fn small_sigma1(x: u64x4) -> u64x4
    ensures { IsTwice x → HasLow result (λ l. standard.small_sigma1 (low x l)) }
{
    xor(
        xor(rotate_right(x, 17), rotate_right(x, 19)),
        shift_right(x, 10),
    )
}
