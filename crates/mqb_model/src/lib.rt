//! What one manager keeps, what a record does to it, and what each call answers: definitions, the
//! types of answers, and laws of them.
//!
//! Each function stands for a law: its contract is the law, and its body is empty. Laws of records
//! say besides what an entry is read as: it tells of names that are names, and of messages that can
//! be carried. So a state stays valid by it where it fits.
#![tactic(auto)]

mod answers;
mod faults;
mod laws;
mod limits;
mod record_laws;
mod runs;
mod target;

pub use answers::{Committed, Done, Role, Ticked};
pub use faults::{
    AddPeerFault, CommitFault, CreateFault, HearFault, LinkFault, OpFault, PumpFault, PurgeFault,
    SendFault, StoreFault, TakeFault,
};
pub use laws::{
    applied_is_valid, calls_keep_valid, calls_leave_store, durable_is_applied, durable_is_fitted,
    durable_is_valid, failed_is_valid, kept_is_valid, leaving_is_durable, linked_is_valid,
    lost_is_valid, meets_durably, new_is_valid, pumped_is_readable, records_are_read,
    records_are_spelled, records_fit, records_keep_identities, refusals_change_nothing,
    refused_is_same, resent_is_valid, restarted_is_valid, steps_are_durable, stepwise_is_effect,
    unlinked_is_valid, unread_is_valid,
};
pub use limits::{
    FIRST_EXPRESS, MAX_EXPRESS, MAX_NUMBER, MAX_OPS, MAX_ORDINAL, MAX_PACKETS, MAX_PEERS,
    MAX_PUMP_BYTES, MAX_QUEUES, MAX_RECORD, MAX_RELEASED, MAX_ROLL,
};
pub use record_laws::{entries_are_read, packets_are_read, told_is_read};
pub use runs::{
    one_expires, one_is_committed, one_is_dropped, one_is_express, one_is_in_doubt, one_is_put,
    one_is_refused, one_is_released, one_is_taken, one_is_unseen, one_rolls,
};
pub use target::Target;
