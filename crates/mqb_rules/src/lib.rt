//! The rules of one manager, tried in a draft: where names lead, why messages are refused, what
//! follows when a message meets a class, and how messages arrive, are sent, taken and purged.
//!
//! Each function does to a draft what its definition says of the state. What fails for want of
//! memory leaves the draft half changed: `Draft::take_back` takes all of it back.
#![tactic(auto)]

mod arrivals;
mod messages;
mod notices;
mod placing;
mod purges;
mod reaching;
mod resolving;
mod sends;
mod takes;

pub use arrivals::{
    arrive, is_recoverable, is_transactional, refusal_of, storing_refusal, target_refusal,
};
pub use messages::message_of;
pub use mqb_drafts::Draft;
pub use notices::meets;
pub use purges::purged;
pub use resolving::{guid_at, is_for_order_layer, is_registered, queue_named, resolved};
pub use sends::{message_sent, plain_sent};
pub use takes::{copy_at, taken, taken_at};
