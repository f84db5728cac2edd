ghost use Rattle.std.specs.Prelude.{◌≡◌};
ghost use Rattle.mqb_work.specs.Exits.{exit_of, unopened};

use mqb_commands::Status;

/// How the program ended.
#[derive(Clone, Copy, Debug, PartialEq, Eq)]
pub enum WorkStatus {
    /// Nothing waited any more, or so many steps were made as were asked for.
    Done,
    /// The words of the command line ask for nothing.
    Usage,
    /// The output failed.
    WriteFault,
    /// The disk failed.
    DiskFault,
    /// The disk is no store of a manager: the first place where it is none.
    BadStore { at: u64 },
    /// Memory ran out.
    Memory,
    /// The manager refused a step.
    Refused,
}

impl WorkStatus {
    /// The exit status of the program.
    pub fn exit(self) -> u8
        ensures { result ≡ exit_of self }
    {
        match self {
            WorkStatus::Done => 0,
            WorkStatus::Usage => 2,
            WorkStatus::WriteFault => 5,
            WorkStatus::DiskFault => 6,
            WorkStatus::BadStore { .. } => 8,
            WorkStatus::Memory => 10,
            WorkStatus::Refused => 11,
        }
    }
}

/// How the program ends whose store is not opened.
pub(crate) fn unopened(status: Status) -> WorkStatus
    ensures { result ≡ unopened status }
{
    match status {
        Status::BadStore { at } => WorkStatus::BadStore { at },
        Status::DiskFault => WorkStatus::DiskFault,
        _ => WorkStatus::Memory,
    }
}
