//! Eight words side by side, and the standard's functions of words in each lane (FIPS 180-4, 4.1.2).
ghost use Rattle.std.specs.Prelude.{◌≡◌, ◌<◌, ◌/◌, ◌^◌, ℕ, bit_and, bit_xor, slice_index};
ghost use Rattle.std.specs.Int.{w32, bit_not, rotate_right as rotated_right};
ghost use Rattle.sha2.specs.Sha256 as standard;
ghost use Rattle.fa_lanes.specs.Lanes.{HasLanes};

use std::simd::prelude::*;

/// The sums of words, with the carry out of each word dropped.
#[inline(always)]
pub(crate) fn add(a: u32x8, b: u32x8) -> u32x8
    ensures { HasLanes result (λ l. standard.add32 (slice_index a l) (slice_index b l)) }
{
    a + b
}

#[inline(always)]
fn and(a: u32x8, b: u32x8) -> u32x8
    ensures { HasLanes result (λ l. bit_and (slice_index a l) (slice_index b l)) }
{
    a & b
}

#[inline(always)]
fn xor(a: u32x8, b: u32x8) -> u32x8
    ensures { HasLanes result (λ l. bit_xor (slice_index a l) (slice_index b l)) }
{
    a ^ b
}

#[inline(always)]
fn not(a: u32x8) -> u32x8
    ensures { HasLanes result (λ l. bit_not w32 (slice_index a l)) }
{
    !a
}

#[inline(always)]
fn shift_right(a: u32x8, by: u32) -> u32x8
    requires { by < 32 }
    ensures { HasLanes result (λ l. slice_index a l / 2 ^ by) }
{
    a >> by
}

/// The words rotated by 1 to 31 places.
#[inline(always)]
fn rotate_right(a: u32x8, by: u32) -> u32x8
    requires some { 0 < by }
    requires few { by < 32 }
    ensures { HasLanes result (λ l. rotated_right w32 (slice_index a l) by) }
{
    (a >> by) | (a << (32 - by))
}

#[inline(always)]
pub(crate) fn ch(x: u32x8, y: u32x8, z: u32x8) -> u32x8
    ensures { HasLanes result (λ l. standard.ch (slice_index x l) (slice_index y l) (slice_index z l)) }
{
    xor(and(x, y), and(not(x), z))
}

/// One round's `x ^ y` is the next round's `y ^ z`, so it is computed once.
#[inline(always)]
pub(crate) fn maj(x: u32x8, y: u32x8, z: u32x8) -> u32x8
    ensures { HasLanes result (λ l. standard.maj (slice_index x l) (slice_index y l) (slice_index z l)) }
{
    xor(y, and(xor(x, y), xor(y, z)))
}

#[inline(always)]
pub(crate) fn big_sigma0(x: u32x8) -> u32x8
    ensures { HasLanes result (λ l. standard.big_sigma0 (slice_index x l)) }
{
    xor(
        xor(rotate_right(x, 2), rotate_right(x, 13)),
        rotate_right(x, 22),
    )
}

#[inline(always)]
pub(crate) fn big_sigma1(x: u32x8) -> u32x8
    ensures { HasLanes result (λ l. standard.big_sigma1 (slice_index x l)) }
{
    xor(
        xor(rotate_right(x, 6), rotate_right(x, 11)),
        rotate_right(x, 25),
    )
}

#[inline(always)]
pub(crate) fn small_sigma0(x: u32x8) -> u32x8
    ensures { HasLanes result (λ l. standard.small_sigma0 (slice_index x l)) }
{
    xor(
        xor(rotate_right(x, 7), rotate_right(x, 18)),
        shift_right(x, 3),
    )
}

#[inline(always)]
pub(crate) fn small_sigma1(x: u32x8) -> u32x8
    ensures { HasLanes result (λ l. standard.small_sigma1 (slice_index x l)) }
{
    xor(
        xor(rotate_right(x, 17), rotate_right(x, 19)),
        shift_right(x, 10),
    )
}
