use mqb_base::Memory;
use mqb_serving::PeerFault;

/// Why the packets of an input were not all shown.
#[derive(Clone, Copy, Debug, PartialEq, Eq)]
pub(crate) enum ShowFault {
    /// The bytes are not all packets, or too many.
    Peer(PeerFault),
    ReadFault,
    WriteFault,
    Memory,
}

impl From<Memory> for ShowFault {
    ghost use Rattle.std.specs.Prelude.{◌≡◌};
    ghost use Rattle.mqb_commands.specs.declared.shown_faults.ShowFault.TheVariants as fault;

    ghost from_gives = { λ _ e. e ≡ fault.Memory };

    fn from(_error: Memory) -> ShowFault {
        ShowFault::Memory
    }
}
