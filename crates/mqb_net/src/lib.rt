//! What a program takes from the operating system for its connections: TCP, and a clock.
//!
//! Each meets its trait of `mqb_outside`, and tells nothing of what comes or is sent. Contracts
//! speak of its counts of faults alone.
#![tactic(auto)]

mod ahead;
mod patient_net;
mod quiet;
mod socket;
mod system_clock;
mod tcp_conn;
mod tcp_net;
mod two_way;

pub use ahead::MAX_AHEAD;
pub use patient_net::PatientNet;
pub use quiet::MIN_BYTES;
pub use socket::{SHORT_WAIT, Socket, Stop, TcpSocket};
pub use system_clock::SystemClock;
pub use tcp_conn::TcpConn;
pub use tcp_net::{MAX_WAIT, PORT, TcpNet};
pub use two_way::TwoWay;
