//! Pseudo-random numbers for the test programs.
#![tactic(auto)]

ghost use Rattle.std.specs.Prelude.{◌≤◌};

/// What a sequence starts from.
pub const SEED: u64 = 88172645463325252;

/// The number after x: Marsaglia's xorshift on 64 bits.
pub fn next(x: u64) -> u64 {
    let a = x ^ (x << 13);
    let b = a ^ (a >> 7);
    b ^ (b << 17)
}

/// A number for x, so that neighbours have little in common.
pub fn mixed(x: u64) -> u64 {
    next(next(next(x.wrapping_add(SEED))))
}

/// A number from 0 to `most` for a seed and a place.
pub fn up_to(seed: u64, place: u64, most: u32) -> u32
    ensures { result ≤ most }
{
    let x = mixed(seed.wrapping_add(place)) / 65536;
    (x % (u64::from(most) + 1)) as u32
}
