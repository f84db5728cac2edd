ghost use Rattle.std.specs.Prelude.{◌≡◌};
ghost use Rattle.std.specs.Option.{option_copied};
ghost use Rattle.mqb_words.specs.Lines.{is_open_command};
ghost use Rattle.mqb_words.specs.Stores.{has_store, store_of};

use mqb_base::{Draft, Identity, Name, Place, QueuePlan};
use mqb_forms::Ops;

/// What the words of a command line ask for. STORE is the second word, and no part of a command:
/// `store_of` finds it.
#[derive(Debug, Drop)]
pub enum Command {
    /// `replay`
    Replay,
    /// `make N`, from 1 to 10000
    Make {
        orders: u32,
    },
    /// `trial N`, from 1 to 10000
    Trial {
        orders: u32,
    },
    /// `show`
    Show,
    /// `init STORE HOST GUID ADDRESS`
    Init {
        identity: Identity,
    },
    Call(Call),
    /// `checkpoint STORE`
    Checkpoint,
    /// `list STORE`
    List,
    /// `peek STORE PLACE [COUNT]`, 1 where there is no count
    Peek {
        place: Place,
        count: u32,
    },
    /// `probe STORE`
    Probe,
    /// `shell STORE`, whose lines are commands of its manager
    Shell,
    /// `serve STORE COUNT`, from 1 to 1000000
    Serve {
        count: u32,
    },
    /// `attend STORE SECONDS`, from 1 to 3600
    Attend {
        seconds: u32,
    },
    /// `push STORE HOST [ADDRESS]`
    Push {
        host: Name,
        address: Option<[u8; 4]>,
    },
    /// `fetch STORE HOST [ADDRESS] [SECONDS]`, from 1 to 3600, and 5 where there are none
    Fetch {
        host: Name,
        address: Option<[u8; 4]>,
        seconds: u32,
    },
    /// `--help`
    Help,
    /// `--version`
    Version,
}

/// One call of the manager of a store.
#[derive(Debug, Drop)]
pub enum Call {
    /// `peer STORE HOST GUID ADDRESS`
    AddPeer(Identity),
    /// `create STORE NAME tx|plain QUOTA journal|none [GUID]`
    CreateQueue(QueuePlan),
    /// `send STORE express|recoverable PRIORITY SEND`, the priority in the draft
    Send { recoverable: bool, draft: Draft },
    /// `commit STORE OP ..`, one op or more
    Commit(Ops),
    /// `take STORE PLACE`
    Take(Place),
    /// `purge STORE PLACE`
    Purge(Place),
    /// `tick STORE`
    Tick,
    /// `roll STORE COUNT`, from 1 to 65535
    SetRoll { count: u32 },
}

impl Command {
    /// Whether the second word of such a command line is a store.
    pub fn has_store(&self) -> bool
        ensures { result ≡ has_store self.now }
    {
        match self {
            Command::Init { .. }
            | Command::Call(_)
            | Command::Checkpoint
            | Command::List
            | Command::Peek { .. }
            | Command::Probe
            | Command::Shell
            | Command::Serve { .. }
            | Command::Attend { .. }
            | Command::Push { .. }
            | Command::Fetch { .. } => true,
            Command::Replay
            | Command::Make { .. }
            | Command::Trial { .. }
            | Command::Show
            | Command::Help
            | Command::Version => false,
        }
    }

    /// Whether a manager that is open does it, its store being no matter.
    pub fn is_open_command(&self) -> bool
        ensures { result ≡ is_open_command self.now }
    {
        match self {
            Command::Call(_)
            | Command::Checkpoint
            | Command::List
            | Command::Peek { .. }
            | Command::Serve { .. }
            | Command::Attend { .. }
            | Command::Push { .. }
            | Command::Fetch { .. } => true,
            Command::Replay
            | Command::Make { .. }
            | Command::Trial { .. }
            | Command::Show
            | Command::Init { .. }
            | Command::Probe
            | Command::Shell
            | Command::Help
            | Command::Version => false,
        }
    }

    /// The word of the store among the words of a command line, where this command has a store.
    pub fn store_of<'w>(&self, words: &'w [String]) -> Option<&'w String>
        ensures { option_copied result ≡ store_of self.now words.now }
    {
        if self.has_store() { words.get(1) } else { None }
    }
}
