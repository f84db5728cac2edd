use std::alloc::AllocError;
use thiserror::Error;

/// A packet has more than `MAX_PACKET` bytes.
#[derive(Clone, Copy, Debug, PartialEq, Eq, Error)]
#[error("the packet is too large")]
pub struct TooLarge;

/// Why a packet is not written.
#[derive(Clone, Copy, Debug, PartialEq, Eq, Error)]
pub enum PutFault {
    #[error("the packet is too large")]
    TooLarge,
    #[error("out of memory")]
    Memory,
}

impl From<TooLarge> for PutFault {
    ghost use Rattle.std.specs.Prelude.{◌≡◌};
    ghost use Rattle.mqb_packet.specs.declared.faults.PutFault.TheVariants as fault;

    ghost from_gives = { λ _ given. given ≡ fault.TooLarge };

    fn from(_too_large: TooLarge) -> PutFault {
        PutFault::TooLarge
    }
}

impl From<AllocError> for PutFault {
    ghost use Rattle.std.specs.Prelude.{◌≡◌};
    ghost use Rattle.mqb_packet.specs.declared.faults.PutFault.TheVariants as fault;

    ghost from_gives = { λ _ given. given ≡ fault.Memory };

    fn from(_error: AllocError) -> PutFault {
        PutFault::Memory
    }
}
