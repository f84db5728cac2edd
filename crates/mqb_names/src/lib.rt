//! The names of queues, as texts and in their wire form.
//!
//! `Printed` is the one form in which a name is printed, `Grammar` says which texts spell a name,
//! and `Reading` says what a text is read as, part by part from the left: a fault is that of the
//! first part that fails. `Wire` is the form in packets and stores.
#![tactic(auto)]

mod direct;
mod faults;
mod laws;
mod parts;
mod printed_lengths;
mod printing;
mod reading;
mod texts;
mod values;
mod wire;
mod wire_reading;
mod wire_writing;

pub use faults::{NameFault, NameKind};
pub use laws::{one_printed_form, printed_is_read, spelling_is_read, wire_is_read};
pub use printing::{write_guid, write_name};
pub use reading::read_name;
pub use values::{
    bytes_fit, guid_fits, host_fits, name_fits, queue_fits, queue_fits_if, units_fit, word_fits,
};
pub use wire::{MAX_DIRECT_UNITS, NameView, WireFault};
pub use wire_reading::read_wire_name;
pub use wire_writing::{put_wire_name, wire_len};
