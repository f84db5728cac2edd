//! The values of a queue manager.
//!
//! Every other crate stands on this one. The values are plain data: a contract sees a `Name`,
//! `Bytes` or `Units` as the list of its members, so that equal values are equal in every field.
//! `Roomed` is the list with room that the lists of a manager are made of.
#![tactic(auto)]

mod answers;
mod bits;
mod bytes;
mod class;
mod draft;
mod heads;
mod heard;
mod ids;
mod ledger;
mod message;
mod names;
mod queue_names;
mod queues;
mod roomed;
mod same;
mod times;
mod units;

pub use answers::{Failed, Memory};
pub use bits::{
    DEAD_LETTER, JOURNAL, MAX_ACK, MAX_JOURNAL, NEGATIVE_ARRIVAL, NEGATIVE_RECEIVE,
    POSITIVE_ARRIVAL, POSITIVE_RECEIVE, has_bit,
};
pub use bytes::Bytes;
pub use class::Class;
pub use draft::{Draft, DraftFault, Op, Parts};
pub use heads::{SessionHead, TxHead};
pub use heard::{Cause, Heard};
pub use ids::{Guid, Identity, MessageId, SequenceId};
pub use ledger::{Line, Stream};
pub use message::{Delivery, Lane, MAX_LABEL, MAX_PRIORITY, Message};
pub use names::{MAX_NAME, Name, NameError, is_name_byte};
pub use queue_names::{Host, MachineQueue, QueueName};
pub use queues::{EntryPlace, Place, QueuePlan};
pub use roomed::{MAX_MEMBERS, Roomed};
pub use same::{earlier, same_name, same_sequence};
pub use times::{UNLIMITED, is_due, remaining};
pub use units::Units;
