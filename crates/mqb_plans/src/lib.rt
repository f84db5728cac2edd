//! What the calls `take`, `purge`, `tick` and `send` of a manager come to, as plans over what it
//! keeps: nothing changes.
//!
//! Each function answers the plan of its call, or why the call is refused: the answer, the entry
//! that is to be written, where there is one, and what is to be done to express messages beside it.
#![tactic(auto)]

mod due;
mod messages;
mod purging;
mod recording;
mod refusals;
mod sending;
mod taking;
mod ticking;
mod values;

pub use purging::{Purging, plan_purge};
pub use recording::SentRecord;
pub use sending::{Sending, plan_send};
pub use taking::{Taking, plan_take};
pub use ticking::{Ticking, plan_tick};
