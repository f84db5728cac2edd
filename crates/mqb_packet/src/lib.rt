//! Whole packets: a user packet, which carries a message, and the internal packets of a session.
//!
//! `view` reads a packet without memory, and lends its parts as slices of the bytes that it was
//! given. What it answers is `packet_of` of `specs/`, the grammar of packets. `put_packet` writes
//! the one plain spelling of a packet, and what is written is read again as the same packet.
//! `put_message` is for a caller who keeps the message.
//!
//! The grammar is also said as a relation that names each field in turn: `Forms` says which
//! bytes spell a field, and `Grammar` puts fields, headers and packets together. `packet_of`
//! answers a packet exactly where the relation holds. What was read of a user packet can be
//! written again, and no longer.
#![tactic(auto)]

mod faults;
mod grammar_laws;
mod laws;
mod lent;
mod owned;
mod packet;
mod writing;

pub use faults::{PutFault, TooLarge};
pub use grammar_laws::{direct_name_is_read, packet_is_read, read_is_written};
pub use laws::{each_view_spells_a_packet, one_packet_is_spelled, plain_is_read, plain_size};
pub use lent::{PacketView, UserView, view};
pub use mqb_fields::{HeadFault, HeadKind};
pub use mqb_heads::{BaseHead, MAX_PACKET, PropsHead, UserHead};
pub use mqb_setup::{Establish, Parameters};
pub use owned::to_owned;
pub use packet::{Carriage, Headers, Packet, UserPacket};
pub use writing::{message_size, put_message, put_packet, size_of};
