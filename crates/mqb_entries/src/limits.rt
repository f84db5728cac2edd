/// The most ops of a commit, and the most marks of an offer.
pub const MAX_FEW: u8 = 64;

/// The most members of a list.
pub const MAX_LISTED: usize = 65_535;

/// The greatest count at which a sequence is full.
pub const MAX_ROLL: u32 = 65_535;
