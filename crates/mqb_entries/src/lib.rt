//! The entries of a store: each record is one entry, which says how the durable state changes.
#![tactic(auto)]

mod entry;
mod faults;
mod fields;
mod kinds;
mod laws;
mod limits;
mod lists;
mod members;
mod packets;
mod puts;
mod reading;
mod slices;
mod writing;

pub use entry::{ArrivedPart, Entry, IdentityView, QueueView};
pub use faults::EntryFault;
pub use laws::{read_is_spelled, spelled_is_read};
pub use limits::{MAX_FEW, MAX_LISTED, MAX_ROLL};
pub use lists::{Marks, MemberList, Numbers, Ops};
pub use members::{Mark, OpView};
pub use mqb_base::EntryPlace;
pub use packets::{PacketForm, PacketSlice};
pub use reading::entry_view;
pub use slices::NameSlice;
pub use writing::put_entry;
