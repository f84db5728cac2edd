use mqb_base::{Draft, Place, QueuePlan};
use mqb_forms::Ops;
use mqb_outside::{Mode, Pick};

/// A line of a script. Managers are told by their index, from 0; moments are seconds since 1970,
/// packets are numbered from 1.
#[derive(Debug, Drop)]
pub enum Event {
    /// `queue M NAME tx|plain QUOTA journal|none [GUID]`
    Queue {
        manager: u32,
        plan: QueuePlan,
    },
    /// `commit M NOW OP ..`, one op or more
    Commit {
        manager: u32,
        now: u32,
        ops: Ops,
    },
    /// `send M NOW express|recoverable PRIORITY SEND`, the priority in the draft
    Send {
        manager: u32,
        now: u32,
        recoverable: bool,
        draft: Draft,
    },
    /// `take M NOW PLACE`
    Take {
        manager: u32,
        now: u32,
        place: Place,
    },
    /// `purge M NOW PLACE`
    Purge {
        manager: u32,
        now: u32,
        place: Place,
    },
    /// `tick M NOW`
    Tick {
        manager: u32,
        now: u32,
    },
    /// `connect M NOW WALPHA WBETA` of a pair, `connect M M NOW W W` of a ring; each
    /// window from 1 to 65535
    Connect {
        initiator: u32,
        acceptor: u32,
        now: u32,
        initiator_window: u16,
        acceptor_window: u16,
    },
    /// `disconnect` of a pair, `disconnect M` of a ring
    Disconnect {
        manager: u32,
    },
    /// `pump M NOW`
    Pump {
        manager: u32,
        now: u32,
    },
    /// `deliver K NOW`
    Deliver {
        packet: u32,
        now: u32,
    },
    /// `drop K`
    Drop {
        packet: u32,
    },
    /// `flow M NOW`
    Flow {
        manager: u32,
        now: u32,
    },
    /// `resend M`
    Resend {
        manager: u32,
    },
    /// `arm M CALL stop|fail`, the call from 1 to 1000
    Arm {
        manager: u32,
        call: u32,
        mode: Mode,
    },
    /// `restart M old|new|half|ones`
    Restart {
        manager: u32,
        pick: Pick,
    },
    /// `roll M COUNT`, the count from 1 to 65535
    Roll {
        manager: u32,
        count: u32,
    },
    /// `checkpoint M`
    Checkpoint {
        manager: u32,
    },
}
