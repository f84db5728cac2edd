use mqb_base::{Class, EntryPlace, Message};

/// What a call does to express messages, beside its record or without one.
#[derive(Debug, Drop)]
pub enum ExpressWork {
    Nothing,
    /// A message takes the next express number, which it has, and is sent.
    Sends {
        now: u32,
        message: Message,
    },
    /// The message of a place at an index is taken.
    Takes {
        now: u32,
        at: EntryPlace,
        index: u32,
    },
    Purges {
        now: u32,
        at: EntryPlace,
    },
    /// What is due leaves.
    Ticks {
        now: u32,
    },
    /// What was sent to a peer with a number up to this one leaves.
    Drops {
        peer: u32,
        number: u16,
    },
    /// The same, and then a message arrives, or is refused.
    Hears {
        peer: u32,
        number: u16,
        now: u32,
        message: Message,
        refusal: Option<Class>,
    },
}
