use crate::arrivals::Arrival;
use crate::lists::Listed;
use mqb_base::{Heard, Line, MessageId};

/// What the managers answer to a line of a script. `lines` are the ledger lines of the record that
/// the line wrote or found kept. Where the refusal of a `commit` is that of one of its ops, `op` is
/// the op's place, from 0.
#[derive(Debug, Drop)]
pub enum Reply {
    /// `ok`
    Done,
    /// `down`: an earlier call failed, and the store was not started again since
    Down,
    /// `stopped`: the disk stopped in this call
    Stopped,
    /// `failed`: the disk failed in this call
    Failed,
    /// `queuethere`
    QueueThere,
    /// `toomanyqueues`
    TooManyQueues,
    /// `committed`
    Committed { lines: Listed<Line> },
    /// `toomanyops`: a transaction has more steps than it may have
    TooManyOps,
    /// `toolarge`: a packet, a record or a base would be longer than it may be
    TooLarge,
    /// `toofar`: the store is too far on for another base
    TooFar,
    /// `numbersspent`: no message number is left
    NumbersSpent,
    /// `noqueue`
    NoQueue { op: Option<u32> },
    /// `nottransactional`
    NotTransactional { op: u32 },
    /// `queueempty`
    QueueEmpty { op: Option<u32> },
    /// `unknownpeer`
    UnknownPeer { op: Option<u32> },
    /// `queuefull`
    QueueFull { op: Option<u32> },
    /// `sequencespent`
    SequenceSpent { op: u32 },
    /// `sent` and the message's identifier
    Sent { id: MessageId, lines: Listed<Line> },
    /// `transactional`: the queue takes messages of transactions alone
    Transactional,
    /// `took` and the message's identifier
    Took { id: MessageId, lines: Listed<Line> },
    /// `purged` and how many messages left, durable and express ones
    Purged { count: u32, lines: Listed<Line> },
    /// `ticked` and how many express messages left
    Ticked { express: u64, lines: Listed<Line> },
    /// `connected` and the numbers of the four set-up packets
    Connected { packets: [u32; 4] },
    /// `linked`
    Linked,
    /// `disconnected`
    Disconnected,
    /// `unlinked`
    Unlinked,
    /// `pumped` and the numbers of the packets
    Pumped { packets: Listed<u32> },
    /// `spent`: the connection has no number left for what waits
    Spent,
    /// `none`: there is no such packet
    NoPacket,
    /// `gone`: the packet was dropped, or its connection has ended
    Gone,
    /// what a manager made of a packet
    Heard { heard: Heard, lines: Listed<Line> },
    /// `dropped`
    Dropped,
    /// `flowed` and what became of each packet
    Flowed { arrivals: Listed<Arrival> },
    /// `armed`
    Armed,
    /// `opened`: the manager was up before
    Opened,
    /// `opened kept`: the record of the call that failed is in the store
    OpenedKept { lines: Listed<Line> },
    /// `opened lost`: it is not
    OpenedLost,
}
