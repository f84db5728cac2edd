/// The longest record, in bytes.
pub const MAX_RECORD: usize = 8_388_608;

/// What a record of 128 bytes takes: its length, its bytes and a gate.
pub(crate) const FIRST_BLOCK: usize = 133;
