ghost use Rattle.std.specs.Prelude.{◌≡◌};
ghost use Rattle.mqb_base.specs.Classes.{is_class, is_negative, is_receive, is_arrival_refusal};

/// The class of a message: 0 for an ordinary one, otherwise what an acknowledgement says. Bit 15 is
/// set in negative ones, and bit 14 in those that speak of receiving rather than of arrival.
#[derive(Clone, Copy, Debug, PartialEq, Eq, Hash)]
pub struct Class(pub u16);

impl Class {
    pub const NORMAL: Class = Class(0x0000);

    pub const REACHED_QUEUE: Class = Class(0x0002);

    pub const ORDER_ACKNOWLEDGEMENT: Class = Class(0x00FF);

    pub const RECEIVED: Class = Class(0x4000);

    pub const BAD_DESTINATION: Class = Class(0x8000);

    /// Read and never made.
    pub const PURGED_AT_SOURCE: Class = Class(0x8001);

    pub const REACH_TIMEOUT: Class = Class(0x8002);

    pub const QUOTA_EXCEEDED: Class = Class(0x8003);

    pub const QUEUE_NOT_TRANSACTIONAL: Class = Class(0x8009);

    pub const MESSAGE_NOT_TRANSACTIONAL: Class = Class(0x800A);

    /// Read and never made.
    pub const QUEUE_DELETED: Class = Class(0xC000);

    pub const QUEUE_PURGED: Class = Class(0xC001);

    pub const RECEIVE_TIMEOUT: Class = Class(0xC002);

    /// Whether it is one of those above.
    pub fn is_known(self) -> bool
        ensures { result ≡ is_class self.0 }
    {
        matches!(
            self.0,
            0x0000 | 0x0002 | 0x00FF | 0x4000 | 0x8000..=0x8003 | 0x8009..=0x800A | 0xC000..=0xC002
        )
    }

    /// Whether bit 15 is set.
    pub fn is_negative(self) -> bool
        ensures { result ≡ is_negative self.0 }
    {
        self.0 >= 0x8000
    }

    /// Whether bit 14 is set.
    pub fn is_receive(self) -> bool
        ensures { result ≡ is_receive self.0 }
    {
        self.0 % 0x8000 >= 0x4000
    }

    /// Whether it says that a message was refused when it arrived.
    pub fn is_arrival_refusal(self) -> bool
        ensures { result ≡ is_arrival_refusal self.0 }
    {
        self.is_negative() && !self.is_receive()
    }
}
