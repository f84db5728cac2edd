use mqb_script::Which;

/// A connection that stands: its number, from 1, and who asked for it.
#[derive(Clone, Copy, Debug, PartialEq, Eq)]
pub struct Link {
    pub number: u32,
    pub initiator: Which,
}

/// A packet that was sent to the other manager: by whom, in which connection, at which moment in
/// seconds, and whether it was dropped.
#[derive(Clone, Copy, Debug, PartialEq, Eq)]
pub struct Note {
    pub sender: Which,
    pub connection: u32,
    pub moment: u32,
    pub dropped: bool,
}
