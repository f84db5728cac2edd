//! What follows where a message meets a class: an administration message, a final acknowledgement
//! to its source, a dead letter. Each of the three is a function of the message, the class and the
//! own manager. Putting and sending is left to the caller.
//!
//! Beside them stand the order layer's queue and what an order acknowledgement is: the messages by
//! which the order layers of two managers talk.
#![tactic(auto)]

mod asking;
mod notices;
mod orders;

pub use asking::goes_dead;
pub use notices::{NOTICE_PRIORITY, admin_for, final_for};
pub use orders::{
    OrderAck, is_final_class, is_order_name, names_order_layer, order_acknowledgement, order_layer,
};
