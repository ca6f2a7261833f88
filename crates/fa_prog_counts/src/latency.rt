//! The buckets of how long requests took.
ghost use Rattle.std.specs.Prelude.{◌≡◌, ℕ, ◌≤◌, ◌<◌, ◌^◌, ◌+◌};

/// How many buckets there are: those of 2^10 to 2^34 nanoseconds, and one for what took longer.
pub const BUCKETS: usize = 26;

/// The exponent of the first bucket's bound.
const FIRST: u32 = 10;

/// The bucket of what took so many nanoseconds: the first one whose bound is not below, or the last one.
pub fn bucket_of(nanoseconds: u64) -> usize
    ensures few { result < 26 }
    ensures bound { result < 25 → nanoseconds ≤ 2 ^ (10 + result) }
    ensures first { (bucket : ℕ) → bucket < result → 2 ^ (10 + bucket) < nanoseconds }
{
    for bucket in 0..BUCKETS - 1 {
        if nanoseconds <= bound_of(bucket) {
            return bucket;
        }
    }
    BUCKETS - 1
}

/// The bound of a bucket, in nanoseconds. Past the last one that has a bound it is the greatest.
pub fn bound_of(bucket: usize) -> u64
    ensures { bucket < 25 → result ≡ 2 ^ (10 + bucket) }
{
    let exponent = FIRST + bucket.min(BUCKETS - 2) as u32;
    1u64 << exponent
}
