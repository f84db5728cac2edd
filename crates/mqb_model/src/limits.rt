/// The greatest number of a durable message. They begin at 1.
pub const MAX_NUMBER: u32 = 0x7FFF_FFFF;

/// The first number of an express message. Behind `MAX_EXPRESS` comes this one again.
pub const FIRST_EXPRESS: u32 = 0x8000_0000;

pub const MAX_EXPRESS: u32 = 0xFFFF_FFFF;

/// The greatest ordinal of a sequence. They begin at 1.
pub const MAX_ORDINAL: u32 = 0xFFFF_FFFE;

/// The greatest count of messages at which a sequence is full, and so the greatest number in one.
pub const MAX_ROLL: u32 = 65_535;

/// The most peers of a manager.
pub const MAX_PEERS: usize = 64;

/// The most queues of a manager.
pub const MAX_QUEUES: usize = 1_024;

/// The most ops of a transaction.
pub const MAX_OPS: usize = 64;

/// The most packets of one pump.
pub const MAX_PACKETS: usize = 64;

/// The most bytes of one pump's packets, where they are more than one.
pub const MAX_PUMP_BYTES: usize = 16_777_216;

/// The most bytes of a record.
pub const MAX_RECORD: usize = 8_388_608;

/// The most numbers that one record releases.
pub const MAX_RELEASED: usize = 65_535;
