ghost use Rattle.std.specs.Prelude.{◌≡◌};
ghost use Rattle.mqb_seats.specs.Called.{how_by};

use mqb_outside::Power;
use mqb_transcript::Reply;

/// How a disk failed in a call.
#[derive(Clone, Copy, Debug, PartialEq, Eq)]
pub enum Failure {
    /// It stopped, and answers nothing any more until a restart.
    Stopped,
    /// It failed in this call.
    Failed,
}

/// What became of a request.
#[derive(Debug, Drop)]
pub enum Called {
    /// It was answered. Where it was recorded, the manager's lines are those of its record.
    Told { reply: Reply, recorded: bool },
    /// The disk failed in it, and the manager is down.
    Broke(Failure),
}

/// How a disk failed that has just failed.
pub(crate) fn how<P: Power>(disk: &P) -> Failure
    ensures { result ≡ how_by (P.is_stopped disk.now) }
{
    if disk.stopped() {
        Failure::Stopped
    } else {
        Failure::Failed
    }
}
