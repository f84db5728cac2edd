//! The headers with which two managers set up a session and acknowledge: the session header, and
//! the internal header with its part.
//!
//! Each reader gives what a chain of the functions of its fields gives, and each writer puts the
//! plain spelling. What is put is read again, whatever follows it.
#![tactic(auto)]

mod internal;
mod laws;
mod reading;
mod writing;

pub use internal::{Establish, Internal, Parameters};
pub use laws::{internal_is_read, lengths_of_parts, session_is_read};
pub use mqb_fields::{HeadFault, HeadKind};
pub use reading::{read_internal, read_session};
pub use writing::{put_internal, put_session};
