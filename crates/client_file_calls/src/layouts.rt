//! Numbers of flexible-file layouts.

/// LAYOUT4_FLEX_FILES (RFC 8435, section 4).
pub const FLEX_FILES: u32 = 4;

/// LAYOUTIOMODE4_RW (RFC 8881, section 3.3.20).
pub const READS_AND_WRITES: u32 = 2;

/// The most bytes of a layout, and of an address, that are asked for.
pub const MAX_COUNT: u32 = 4_096;
