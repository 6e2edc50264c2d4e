//! Numbers of the trade, which are kept within 32 bits.

/// The number, or the greatest of 32 bits where it is above.
pub(crate) fn within_32_bits(number: u64) -> u32 {
    number.min(4_294_967_295) as u32
}

/// The larger of two numbers.
pub(crate) fn larger(a: u32, b: u32) -> u32 {
    if a < b { b } else { a }
}
