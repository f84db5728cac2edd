ghost use Rattle.std.specs.Prelude.{◌≡◌, ◌<◌, IsTrue, IsFalse};
ghost use Rattle.mqb_session.specs.State.{IsKept, new_acceptor, new_initiator, new_session};
ghost use Rattle.mqb_session.specs.Phases.{owed_by, own_parameters};
ghost use Rattle.mqb_session.specs.Hearing.{after_owed, heard_head, is_wanted, on_close};
ghost use Rattle.mqb_session.specs.Hearing.{on_establish, on_parameters};
ghost use Rattle.mqb_session.specs.Hearing.{acknowledged, closing, counted, is_bad_ack, order_of};
ghost use Rattle.mqb_session.specs.Sending.{is_spent, may_go, may_send, noted_stored, stamped};

use crate::heads::{HeadHeard, Kind};
use crate::phase::{Phase, Role};
use mqb_base::{Cause, Guid, SessionHead};
use mqb_setup::{Establish, Internal, Parameters};
use std::marker::Model;

/// The GUID that names no manager.
const NO_GUID: Guid = Guid([0; 16]);

/// The greatest number of a user packet.
const LAST_NUMBER: u16 = 65_535;

/// An Establish with this answer.
fn answer(establish: &Establish, refused: bool) -> Establish
    ensures { result ≡ record establish.now { refused = refused } }
{
    Establish {
        refused,
        ..*establish
    }
}

fn own_parameters(window: u16) -> Parameters
    ensures { result ≡ own_parameters window }
{
    Parameters {
        storage_time: 10_000,
        ack_time: 20_000,
        window,
    }
}

/// One end of a session. It numbers the packets that are sent, and counts what is got,
/// stored and acknowledged.
#[derive(Clone, Copy, Debug)]
pub struct Session {
    phase: Phase,
    role: Role,
    own: Guid,
    peer: Option<Guid>,
    establish: Establish,
    window: u16,
    peer_window: u16,
    sent: u16,
    acked: u16,
    recoverable_sent: u16,
    recoverable_acked: u16,
    got: u16,
    stored: u16,
    owes: bool,
}

impl Model for Session {
    ghost use Rattle.mqb_session.specs.State.{State};

    ghost Value = { State };

    ghost use Rattle.mqb_session.specs.State.{IsKept};
    ghost use Rattle.mqb_session.specs.Inside.{fields_of, state_of};

    ghost view = { state_of };

    ghost invariant = { λ s. IsKept (state_of s) };

    ghost inverse = { fields_of };
}

impl Session {
    fn new(
        phase: Phase,
        role: Role,
        own: Guid,
        peer: Option<Guid>,
        establish: Establish,
        window: u16,
    ) -> Session
        ensures { result ≡ new_session phase role own peer establish window }
    {
        Session {
            phase,
            role,
            own,
            peer,
            establish,
            window,
            peer_window: 0,
            sent: 0,
            acked: 0,
            recoverable_sent: 0,
            recoverable_acked: 0,
            got: 0,
            stored: 0,
            owes: false,
        }
    }

    /// The end that asks `peer` for a session. `window` is how many user packets may come to it
    /// that it did not acknowledge.
    pub fn initiator(own: Guid, peer: Guid, window: u16) -> Session
        ensures { result ≡ new_initiator own peer window }
    {
        let establish = Establish {
            client: own,
            server: peer,
            stamp: 0,
            refused: false,
        };
        Session::new(
            Phase::Start,
            Role::Initiator,
            own,
            Some(peer),
            establish,
            window,
        )
    }

    /// The end that is asked. `window` is how many user packets may come to it that it
    /// did not acknowledge.
    pub fn acceptor(own: Guid, window: u16) -> Session
        ensures { result ≡ new_acceptor own window }
    {
        let establish = Establish {
            client: NO_GUID,
            server: NO_GUID,
            stamp: 0,
            refused: false,
        };
        Session::new(
            Phase::WaitEstablish,
            Role::Acceptor,
            own,
            None,
            establish,
            window,
        )
    }

    pub fn phase(&self) -> Phase
        ensures phase { result ≡ self.now.phase }
        ensures kept { IsKept self.now }
    {
        self.phase
    }

    /// The manager at the other end. An acceptor knows it once it heard an Establish that it wants.
    pub fn peer(&self) -> Option<Guid>
        ensures { result ≡ self.now.peer }
    {
        self.peer
    }

    /// How many user packets the peer acknowledged.
    pub fn acked(&self) -> u16
        ensures { result ≡ self.now.acked }
    {
        self.acked
    }

    /// How many recoverable ones it acknowledged, as it stored them.
    pub fn recoverable_acked(&self) -> u16
        ensures { result ≡ self.now.recoverable_acked }
    {
        self.recoverable_acked
    }

    fn is_wanted(&self, e: &Establish, known: bool) -> bool
        ensures { result ≡ is_wanted self.now.role e.now known self.now }
    {
        match self.role {
            Role::Initiator => {
                !e.refused && e.client == self.establish.client && e.server == self.establish.server
            }
            Role::Acceptor => known && (e.server == self.own || e.server == NO_GUID),
        }
    }

    /// Hears an Establish. `known` says that its client is a peer.
    pub fn hear_establish(&mut self, e: &Establish, known: bool)
        ensures { self.new ≡ on_establish e.now known self.old }
    {
        let wanted = self.is_wanted(e, known);
        if self.role == Role::Acceptor && self.phase == Phase::WaitEstablish {
            self.establish = *e;
            if wanted {
                self.peer = Some(e.client);
            }
        }
        self.phase = self.phase.after_establish(self.role, wanted);
    }

    /// Hears Parameters.
    pub fn hear_parameters(&mut self, p: &Parameters)
        ensures { self.new ≡ on_parameters p.now self.old }
    {
        if self.phase == Phase::WaitParameters {
            self.peer_window = p.window;
        }
        self.phase = self.phase.after_parameters(self.role);
    }

    fn is_bad_ack(&self, h: &SessionHead) -> bool
        ensures { result ≡ is_bad_ack h.now self.now }
    {
        h.ack > self.sent || h.stored > self.recoverable_sent
    }

    fn order_of(&self, h: &SessionHead) -> HeadHeard
        ensures { result ≡ order_of h.now self.now }
    {
        if h.user == 0 {
            HeadHeard::AckOnly
        } else if h.user - 1 == self.got {
            HeadHeard::InOrder
        } else {
            HeadHeard::OutOfOrder
        }
    }

    /// Hears a header that acknowledges no more than was sent.
    fn hear_good_head(&mut self, h: &SessionHead) -> HeadHeard
        requires { IsFalse (is_bad_ack h.now self.old) }
        ensures heard { result ≡ order_of h.now self.old }
        ensures left { self.new ≡ counted (order_of h.now self.old) (acknowledged h.now self.old) }
    {
        let order = self.order_of(h);
        self.acked = self.acked.max(h.ack);
        self.recoverable_acked = self.recoverable_acked.max(h.stored);
        if order == HeadHeard::InOrder {
            self.got += 1;
            self.owes = true;
        }
        order
    }

    fn closing(&mut self, cause: Cause) -> HeadHeard
        ensures heard { result ≡ (closing cause self.old).0 }
        ensures left { self.new ≡ (closing cause self.old).1 }
    {
        self.phase = Phase::Closed(cause);
        HeadHeard::Closed(cause)
    }

    /// Hears the session header of a packet. That of a session acknowledgement is to be given with
    /// the user number 0, since it repeats the last one that its sender used.
    pub fn hear_head(&mut self, h: &SessionHead) -> HeadHeard
        ensures heard { result ≡ (heard_head h.now self.old).0 }
        ensures left { self.new ≡ (heard_head h.now self.old).1 }
    {
        match self.phase {
            Phase::Closed(cause) => HeadHeard::Closed(cause),
            Phase::Ready if self.is_bad_ack(h) => self.closing(Cause::BadAck),
            Phase::Ready => self.hear_good_head(h),
            _ => self.closing(Cause::Early),
        }
    }

    /// The set-up packet that the phase owes. It counts as sent then, at the moment `now`.
    pub fn owed(&mut self, now: u32) -> Option<Internal>
        ensures owed { result ≡ owed_by self.old.phase now self.old }
        ensures left { self.new ≡ after_owed now self.old }
    {
        let owed = match self.phase {
            Phase::Start => {
                self.establish.stamp = now;
                Internal::Establish(answer(&self.establish, false))
            }
            Phase::OweEstablish => Internal::Establish(answer(&self.establish, false)),
            Phase::OweRefusal => Internal::Establish(answer(&self.establish, true)),
            Phase::OweParameters => Internal::Parameters(own_parameters(self.window)),
            _ => return None,
        };
        self.phase = self.phase.after_owed(self.role);
        Some(owed)
    }

    /// Whether a user packet may be sent.
    pub fn may_send(&self) -> bool
        ensures { result ≡ may_send self.now }
    {
        self.phase == Phase::Ready
            && self.sent != LAST_NUMBER
            && self.sent - self.acked < self.peer_window
    }

    /// Whether a ready session has used all numbers of user packets.
    pub fn is_spent(&self) -> bool
        ensures { result ≡ is_spent self.now }
    {
        self.phase == Phase::Ready && self.sent == LAST_NUMBER
    }

    /// The header of the next packet of this kind, which counts as sent then.
    pub fn stamp(&mut self, kind: Kind) -> SessionHead
        requires may_go { IsTrue (may_go kind self.old) }
        ensures head { result ≡ (stamped kind self.old).0 }
        ensures left { self.new ≡ (stamped kind self.old).1 }
    {
        match kind {
            Kind::Plain => self.sent += 1,
            Kind::Recoverable => {
                self.sent += 1;
                self.recoverable_sent += 1;
            }
            Kind::Ack => {}
        }
        self.owes = false;
        SessionHead {
            ack: self.got,
            stored: self.stored,
            stored_flags: 0,
            user: self.sent,
            recoverable: self.recoverable_sent,
            window: self.window,
        }
    }

    /// A recoverable packet that was got is stored.
    pub fn note_stored(&mut self)
        requires got { self.old.stored < self.old.got }
        ensures { self.new ≡ noted_stored self.old }
    {
        self.stored += 1;
        self.owes = true;
    }

    /// Whether something was got or stored that no header told yet.
    pub fn owes_ack(&self) -> bool
        ensures { result ≡ self.now.owes }
    {
        self.owes
    }

    /// Closes the session. One that is closed keeps its cause.
    pub fn close(&mut self, cause: Cause)
        ensures { self.new ≡ on_close cause self.old }
    {
        self.phase = self.phase.closed_by(cause);
    }
}
