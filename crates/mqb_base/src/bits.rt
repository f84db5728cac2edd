ghost use Rattle.std.specs.Prelude.{◌≡◌};
ghost use Rattle.mqb_base.specs.Bits.{has_bit};

/// The bits of `Message::ack`: of which classes a message's administration queue is told.
pub const POSITIVE_ARRIVAL: u8 = 1;

pub const POSITIVE_RECEIVE: u8 = 2;

pub const NEGATIVE_ARRIVAL: u8 = 4;

pub const NEGATIVE_RECEIVE: u8 = 8;

/// All bits of `Message::ack` together.
pub const MAX_ACK: u8 = 15;

/// The bits of `Message::journal`: what could not be delivered is kept in a dead-letter queue, and
/// what is sent is kept in the computer's journal.
pub const DEAD_LETTER: u8 = 1;

pub const JOURNAL: u8 = 2;

/// All bits of `Message::journal` together.
pub const MAX_JOURNAL: u8 = 3;

/// Whether `bits` has one of the bits of `bit`.
pub fn has_bit(bits: u8, bit: u8) -> bool
    ensures { result ≡ has_bit bits bit }
{
    bits & bit != 0
}
