use mqb_base::Memory;
use thiserror::Error;

/// Why a call of a manager has no reply.
#[derive(Clone, Copy, Debug, PartialEq, Eq, Error)]
pub enum AnswerFault {
    #[error("out of memory")]
    Memory,
    #[error("a call of the disk failed")]
    DiskFault,
}

impl From<Memory> for AnswerFault {
    ghost use Rattle.std.specs.Prelude.{◌≡◌};
    ghost use Rattle.mqb_replies.specs.declared.faults.AnswerFault.TheVariants as answer_fault;

    ghost from_gives = { λ _ fault. fault ≡ answer_fault.Memory };

    fn from(_: Memory) -> AnswerFault {
        AnswerFault::Memory
    }
}
