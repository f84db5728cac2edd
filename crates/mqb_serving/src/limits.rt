/// The window of a session over a connection: how many packets its peer may send that
/// are not acknowledged.
pub const WINDOW: u16 = 64;

/// The most bytes that are read of one connection.
pub const MAX_READ: u64 = 1_073_741_824;

/// The most pumps in a row: a session owes a set-up packet and an acknowledgement at most, and has
/// 65,535 numbers. The last pump sends nothing.
pub const MAX_PUMPS: u32 = 65_538;
