use mqb_base::Memory;
use thiserror::Error;

/// Why packets were not added to a medium.
#[derive(Clone, Copy, Debug, PartialEq, Eq, Error)]
pub enum PostFault {
    #[error("the medium is full")]
    NetFull,
    #[error("out of memory")]
    Memory,
}

impl From<Memory> for PostFault {
    ghost use Rattle.std.specs.Prelude.{◌≡◌};
    ghost use Rattle.mqb_posts.specs.declared.faults.PostFault.TheVariants as fault;

    ghost from_gives = { λ _ given. given ≡ fault.Memory };

    fn from(_memory: Memory) -> PostFault {
        PostFault::Memory
    }
}
