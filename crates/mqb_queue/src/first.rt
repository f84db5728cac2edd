use mqb_base::Lane;

/// Where a message of a place stands: the list that it is in, and its index there.
#[derive(Clone, Copy, Debug, PartialEq, Eq)]
pub struct Position {
    pub lane: Lane,
    pub index: u32,
}
