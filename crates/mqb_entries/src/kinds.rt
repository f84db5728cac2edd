ghost use Rattle.std.specs.Prelude.{◌≡◌, ◌==◌, find};
ghost use Rattle.mqb_entries.specs.Kinds.{code_of, kinds};

/// What an entry is, by its first byte.
#[derive(Clone, Copy)]
pub(crate) enum EntryKind {
    Identity,
    Peer,
    CreateQueue,
    Commit,
    Plain,
    Offered,
    Arrived,
    Taken,
    Purged,
    Ticked,
    Roll,
}

const KINDS: [EntryKind; 11] = [
    EntryKind::Identity,
    EntryKind::Peer,
    EntryKind::CreateQueue,
    EntryKind::Commit,
    EntryKind::Plain,
    EntryKind::Offered,
    EntryKind::Arrived,
    EntryKind::Taken,
    EntryKind::Purged,
    EntryKind::Ticked,
    EntryKind::Roll,
];

impl EntryKind {
    pub(crate) fn code(self) -> u8
        ensures { result ≡ code_of self }
    {
        match self {
            EntryKind::Identity => 1,
            EntryKind::Peer => 2,
            EntryKind::CreateQueue => 3,
            EntryKind::Commit => 4,
            EntryKind::Plain => 5,
            EntryKind::Offered => 6,
            EntryKind::Arrived => 7,
            EntryKind::Taken => 8,
            EntryKind::Purged => 9,
            EntryKind::Ticked => 10,
            EntryKind::Roll => 11,
        }
    }

    pub(crate) fn of_code(code: u8) -> Option<EntryKind>
        ensures { result ≡ find (λ kind. code_of kind == code) kinds }
    {
        KINDS.iter().copied().find(|kind| kind.code() == code)
    }
}
