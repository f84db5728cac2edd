use mqb_base::{Guid, QueueName};

/// What the sequences of one destination name at one peer have in common.
#[derive(Clone, Debug, PartialEq, Eq, Hash, Drop)]
pub struct OutKey {
    pub peer: u32,
    pub destination: QueueName,
}

/// What distinguishes incoming rows.
#[derive(Clone, Debug, PartialEq, Eq, Hash, Drop)]
pub struct InKey {
    pub source: Guid,
    pub destination: QueueName,
}
