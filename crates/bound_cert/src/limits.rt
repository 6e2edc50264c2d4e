//! How large the numbers of a certificate may be.

/// The largest weight of a group: 2^40.
pub const MAX_WEIGHT: u64 = 1_099_511_627_776;

/// The largest length of a wire: 2^48.
pub const MAX_LENGTH: u64 = 281_474_976_710_656;

/// The largest unit of a certificate by hops: 2^20.
pub const MAX_UNIT: u64 = 1_048_576;

/// The most potentials.
pub const MAX_POTENTIALS: u32 = 4_096;

/// The largest value of a potential: 2^60 - 1.
pub const MAX_POTENTIAL_VALUE: u64 = 1_152_921_504_606_846_975;

/// The weight of each group where all have the same: 2^20.
pub const UNIFORM_WEIGHT: u64 = 1_048_576;
