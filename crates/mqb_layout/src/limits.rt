/// The length of a store's header: where its first gate stands in version 1.
pub const HEADER: u64 = 24;

/// The shortest store: the header and a gate.
pub const MIN_STORE: u64 = 25;

/// The longest base, in bytes.
pub const MAX_BASE: usize = 1_073_741_824;

/// What the place of a head is a multiple of.
pub const PAGE: u64 = 4_096;

/// The length of a head: the selector, and the places of two areas.
pub const HEAD: u64 = 17;

/// What stands before the base in an area: the length and the count.
pub const AREA: u64 = 12;

/// Where a head can stand at most: its number of pages has three bytes.
pub const MOST_HEAD: u64 = 68_719_472_640;

/// The most records that a base may have before it.
pub const MOST_COUNT: u64 = 9_223_372_036_854_775_808;
