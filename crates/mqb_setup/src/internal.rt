use mqb_base::{Guid, SessionHead};

/// Asks for a session, or answers one that asked: then it repeats the GUIDs and the stamp.
#[derive(Clone, Copy, Debug, PartialEq, Eq)]
pub struct Establish {
    /// The manager that asked.
    pub client: Guid,
    /// The manager that was asked.
    pub server: Guid,
    /// The moment at which the client asked.
    pub stamp: u32,
    pub refused: bool,
}

/// How a manager will acknowledge.
#[derive(Clone, Copy, Debug, PartialEq, Eq)]
pub struct Parameters {
    /// In milliseconds.
    pub storage_time: u32,
    /// In milliseconds.
    pub ack_time: u32,
    /// How many user packets may be sent to it that it did not acknowledge.
    pub window: u16,
}

/// What an internal packet carries.
#[derive(Clone, Copy, Debug, PartialEq, Eq)]
pub enum Internal {
    Ack(SessionHead),
    Establish(Establish),
    Parameters(Parameters),
}
