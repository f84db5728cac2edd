use mqb_fields::Short;
use thiserror::Error;

/// Bytes that are no entry, and the start of the first field that is none. Where bytes follow an entry, it is the place of the first of them.
#[derive(Clone, Copy, Debug, PartialEq, Eq, Error)]
#[error("no entry's field stands at {at}")]
pub struct EntryFault {
    pub at: usize,
}

/// A field that passes the end.
impl From<Short> for EntryFault {
    ghost use Rattle.std.specs.Prelude.{◌≡◌};

    ghost from_gives = { λ short fault. fault ≡ record { at = short.at } };

    fn from(short: Short) -> EntryFault {
        EntryFault { at: short.at }
    }
}
