//! The queues of a manager: messages in them, in their journals and in the lists of every manager.
//!
//! A place has a durable list, which survives a restart, and an express list, which does not. Contracts see `Queues` as the record `Places` of plain
//! lists, and beside it the room of each list; each change is one place changed. A place is named by its queue's name, or by its queue's number as
//! the store has it. The rules stand beside it: why an arrival is refused, and which message of a place is first.
#![tactic(auto)]

mod arrival;
mod choice;
mod counts;
mod first;
mod laws;
mod lists;
mod messages;
mod name_keys;
mod named;
mod new_queue;
mod passes;
mod places;
mod queue;
mod queues;
mod search;

pub use arrival::{arrival_refusal, queue_refusal};
pub use first::Position;
pub use laws::{
    at_most_one_first, found_by_its_name, oldest_is_first, one_named_place_changes,
    one_place_changes, plans_stay,
};
pub use new_queue::NewQueue;
pub use queues::Queues;
