//! The headers of packets. Numbers are little-endian.
//!
//! A reader takes its header from a cursor, field by field, and lends names, label, extension and
//! body as slices. Its clause says that it gives what a function of `specs/` gives, and that
//! function is the header's table. A writer puts a header at the start of a buffer, in the one form
//! that is called plain: reserved bytes, padding and unused bits are 0.
#![tactic(auto)]

mod base;
mod fields;
mod flags;
mod laws;
mod properties;
mod transaction;
mod user;
mod values;
mod writing;

pub use base::{BaseHead, MAX_PACKET, MIN_PACKET, put_base, read_base};
pub use laws::{
    base_is_read, base_is_well_formed, props_are_well_formed, props_is_read, sizes, tx_is_read,
    user_is_read, user_is_well_formed,
};
pub use mqb_fields::{HeadFault, HeadKind};
pub use mqb_names::NameView;
pub use properties::{PropsHead, props_len, put_props, read_props};
pub use transaction::{put_tx, read_tx};
pub use user::{UserHead, put_user, read_user, user_len};
pub use values::{id_fits, message_fits};
