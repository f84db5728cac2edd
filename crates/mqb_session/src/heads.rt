use mqb_base::Cause;

/// What a packet that is sent with a session header carries.
#[derive(Clone, Copy, Debug, PartialEq, Eq)]
pub enum Kind {
    /// A user packet without a number of its own among the recoverable ones: an express or
    /// transactional message.
    Plain,
    /// A user packet of a recoverable message.
    Recoverable,
    /// No message.
    Ack,
}

/// What a session header that was heard says.
#[derive(Clone, Copy, Debug, PartialEq, Eq)]
pub enum HeadHeard {
    /// The session is closed, by this header or before.
    Closed(Cause),
    /// Its user packet is the next one.
    InOrder,
    OutOfOrder,
    /// It has no user packet.
    AckOnly,
}
