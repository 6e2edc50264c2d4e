//! How large a problem may be, and how much a wire takes.

/// The most FPGAs of a board.
pub const MAX_FPGAS: u32 = 4_096;

/// The most wires of a board.
pub const MAX_WIRES: u32 = 65_536;

/// The most nets of a board.
pub const MAX_NETS: u32 = 1_048_576;

/// The most groups of a board.
pub const MAX_GROUPS: u32 = 1_048_576;

/// The most FPGAs that all nets list together.
pub const MAX_LISTED_FPGAS: u64 = 16_777_216;

/// The most nets that all groups list together.
pub const MAX_LISTED_NETS: u64 = 16_777_216;

/// How many lanes each wire has. The reciprocals of the ratios on a wire sum to at most this.
pub const LANES: u64 = 1;
