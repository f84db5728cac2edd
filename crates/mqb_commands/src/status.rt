ghost use Rattle.std.specs.Prelude.{◌≡◌};
ghost use Rattle.mqb_commands.specs.Exits.{exit_of};

use mqb_forms::LineKind;
use mqb_serving::PeerFault;

/// How the program ended.
#[derive(Clone, Copy, Debug, PartialEq, Eq)]
pub enum Status {
    /// The command did its work to the end.
    Done,
    /// The words of the command line are no command.
    Usage,
    /// The first line of the script that fails, counted from 1.
    Script { line: u32, kind: LineKind },
    /// The script is over 16,777,216 bytes.
    TooLong,
    /// The script has over 200,000 lines.
    TooManyLines,
    /// The input failed.
    ReadFault,
    /// The output failed.
    WriteFault,
    /// The disk failed; in a replay, one of its two disks while the stores were made.
    DiskFault,
    /// The net gave no connection, or one that was pushed over had a fault.
    NetFault,
    /// The disk is no store of a manager: the first place where it is none.
    BadStore { at: u64 },
    /// A disk on which a store was to be made is not empty.
    NotEmpty,
    /// The bytes that came ended badly.
    Peer(PeerFault),
    /// A packet does not fit the medium of a replay, which has room for 268,435,456 bytes.
    NetFull,
    /// Memory ran out.
    Memory,
    /// The manager refused the call, or does not know the host.
    Refused,
}

impl Status {
    /// The exit status of the program.
    pub fn exit(self) -> u8
        ensures { result ≡ exit_of self }
    {
        match self {
            Status::Done => 0,
            Status::Usage => 2,
            Status::Script { .. } | Status::TooLong | Status::TooManyLines => 3,
            Status::ReadFault => 4,
            Status::WriteFault => 5,
            Status::DiskFault => 6,
            Status::NetFault => 7,
            Status::BadStore { .. } | Status::NotEmpty => 8,
            Status::Peer(_) | Status::NetFull => 9,
            Status::Memory => 10,
            Status::Refused => 11,
        }
    }
}
