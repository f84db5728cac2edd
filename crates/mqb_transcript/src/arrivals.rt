use crate::lists::Listed;
use mqb_base::{Heard, Line};

/// What became of a packet that was delivered in its turn.
#[derive(Debug, Drop)]
pub enum Outcome {
    /// what its receiver made of it, and the lines of its record
    Heard { heard: Heard, lines: Listed<Line> },
    /// `gone`: its connection had ended
    Gone,
    /// `stopped`: its receiver's disk stopped
    Stopped,
    /// `failed`: its receiver's disk failed
    Failed,
}

/// A packet that was delivered in its turn.
#[derive(Debug, Drop)]
pub struct Arrival {
    pub packet: u32,
    pub outcome: Outcome,
}
