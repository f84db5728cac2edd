use crate::ids::Guid;
use crate::names::Name;

/// What a queue is to be. `public` is the GUID under which it is registered, `quota` its greatest
/// length, and with `journal` it keeps copies of what is taken.
#[derive(Clone, Debug, PartialEq, Eq, Drop)]
pub struct QueuePlan {
    pub name: Name,
    pub public: Option<Guid>,
    pub transactional: bool,
    pub quota: u32,
    pub journal: bool,
}

/// A list of messages of one manager: a queue, its journal, the dead-letter queue, the
/// transactional one, or the computer's journal.
#[derive(Clone, Debug, PartialEq, Eq, Drop)]
pub enum Place {
    Queue(Name),
    JournalOf(Name),
    Dead,
    DeadXact,
    Journal,
}

/// A list of messages of one manager as its store names it: a queue by its number, which is its
/// place among the queues, from 1.
#[derive(Clone, Copy, Debug, PartialEq, Eq)]
pub enum EntryPlace {
    Queue(u32),
    JournalOf(u32),
    Dead,
    DeadXact,
    Journal,
}
