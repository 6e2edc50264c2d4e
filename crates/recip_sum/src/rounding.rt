//! Reciprocals in units of 2^-64, rounded down and up.
ghost use Rattle.std.specs.Prelude.{◌≡◌, ◌-◌, ◌/◌, ◌%◌, ◌<◌, ◌^◌};
ghost use Rattle.recip_sum.specs.Rounded.{ceiling_of, floor_of};

use crate::long_division::{Quotient, quotient_of};

/// `2^64 / ratio`, rounded down.
pub fn floor_of_reciprocal(ratio: u32) -> u128
    requires { 0 < ratio }
    ensures { result ≡ floor_of ratio }
{
    floor_from(quotient_of(u64::MAX, ratio), ratio)
}

/// `2^64 / ratio`, rounded up.
pub fn ceiling_of_reciprocal(ratio: u32) -> u128
    requires { 0 < ratio }
    ensures { result ≡ ceiling_of ratio }
{
    quotient_of(u64::MAX, ratio).digit as u128 + 1
}

/// `2^64 / ratio`, rounded down, from the division of `2^64 - 1` by the ratio.
pub(crate) fn floor_from(division: Quotient, ratio: u32) -> u128
    requires positive { 0 < ratio }
    requires digit { division.digit ≡ (2 ^ 64 - 1) / ratio }
    requires remainder { division.remainder ≡ (2 ^ 64 - 1) % ratio }
    ensures { result ≡ floor_of ratio }
{
    let floor = division.digit as u128;
    if division.remainder == ratio - 1 {
        return floor + 1;
    }
    floor
}
