//! What lines ask, and how their answers end.
ghost use Rattle.std.specs.Prelude.{◌≡◌, IfOk, true};
ghost use Rattle.mqb_shell.specs.Lines.{asked_in, end_line};
ghost use Rattle.mqb_shell.specs.Reading.{Asks};
ghost use Rattle.mqb_words.specs.Formed.{IsFormed};
ghost use Rattle.mqb_words.specs.Lines.{is_open_command};

use mqb_commands::Status;
use mqb_words::{Command, WordsFault, command_in};
use std::alloc::Global;

/// The most bytes of a line, its line feed left aside.
pub const MAX_LINE: usize = 16_777_216;

/// What a line asks of a manager that is open.
pub(crate) fn asked_in(alloc: Global, line: &[u8]) -> Result<Command, Status>
    ensures asked { Asks (asked_in line.now) result }
    ensures formed { IfOk result IsFormed }
    ensures open { IfOk result (λ command. is_open_command command ≡ true) }
{
    if line.len() > MAX_LINE {
        return Err(Status::TooLong);
    }
    match command_in(alloc, line) {
        Ok(command) => Ok(command),
        Err(WordsFault::Usage) => Err(Status::Usage),
        Err(WordsFault::Memory) => Err(Status::Memory),
    }
}

/// The line that ends an answer.
pub(crate) fn end_line(end: Status) -> &'static [u8]
    ensures { result.now ≡ end_line end }
{
    match end {
        Status::Done => b"end 0\n",
        Status::Usage => b"end 2\n",
        Status::Script { .. } | Status::TooLong | Status::TooManyLines => b"end 3\n",
        Status::ReadFault => b"end 4\n",
        Status::WriteFault => b"end 5\n",
        Status::DiskFault => b"end 6\n",
        Status::NetFault => b"end 7\n",
        Status::BadStore { .. } | Status::NotEmpty => b"end 8\n",
        Status::Peer(_) | Status::NetFull => b"end 9\n",
        Status::Memory => b"end 10\n",
        Status::Refused => b"end 11\n",
    }
}
