use crate::lists::{Marks, Numbers, Ops};
use crate::packets::PacketSlice;
use crate::slices::NameSlice;
use mqb_base::{EntryPlace, Guid, MessageId};

/// A manager: its host, its GUID and its IPv4 address.
#[derive(Debug, Drop)]
pub struct IdentityView<'a> {
    pub host: NameSlice<'a>,
    pub guid: Guid,
    pub address: [u8; 4],
}

/// A queue that is made, and its number.
#[derive(Debug, Drop)]
pub struct QueueView<'a> {
    pub name: NameSlice<'a>,
    pub number: u32,
    pub public: Option<Guid>,
    pub transactional: bool,
    pub quota: u32,
    pub journal: bool,
}

/// What arrived, beside the released numbers. A packet is kept as it was heard.
#[derive(Debug, Drop)]
pub enum ArrivedPart<'a> {
    Nothing,
    Decided(PacketSlice<'a>),
    Stored(PacketSlice<'a>),
    OrderAcknowledged { ordinal: u32, number: u32 },
    Final(PacketSlice<'a>),
}

/// One record of a store: how the durable state of a manager changes.
#[derive(Debug, Drop)]
pub enum Entry<'a> {
    Identity(IdentityView<'a>),
    Peer(IdentityView<'a>),
    CreateQueue(QueueView<'a>),
    Commit {
        now: u32,
        ops: Ops<'a>,
    },
    Plain {
        now: u32,
        packet: PacketSlice<'a>,
    },
    Offered(Marks<'a>),
    Arrived {
        now: u32,
        released: Numbers<'a>,
        part: ArrivedPart<'a>,
    },
    Taken {
        now: u32,
        place: EntryPlace,
        id: MessageId,
    },
    Purged {
        now: u32,
        place: EntryPlace,
    },
    Ticked {
        now: u32,
    },
    Roll {
        count: u32,
    },
}
