ghost use Rattle.std.specs.Prelude.{◌≡◌};
ghost use Rattle.mqb_session.specs.Phases.{phase_after_establish, phase_after_owed};
ghost use Rattle.mqb_session.specs.Phases.{phase_after_parameters};
ghost use Rattle.mqb_session.specs.Hearing.{closed_by};

use mqb_base::Cause;

/// How far the set-up of a session is.
#[derive(Clone, Copy, Debug, PartialEq, Eq)]
pub enum Phase {
    /// The initiator owes the Establish with which it asks.
    Start,
    WaitEstablish,
    /// The acceptor owes its answer.
    OweEstablish,
    /// The acceptor owes its answer, which refuses.
    OweRefusal,
    OweParameters,
    WaitParameters,
    Ready,
    Closed(Cause),
}

/// Which end of a session it is.
#[derive(Clone, Copy, Debug, PartialEq, Eq)]
pub enum Role {
    /// It asks for the session.
    Initiator,
    /// It is asked.
    Acceptor,
}

impl Phase {
    /// After the packet that this phase owes.
    pub(crate) fn after_owed(self, role: Role) -> Phase
        ensures { result ≡ phase_after_owed self role }
    {
        match (self, role) {
            (Phase::Start, _) => Phase::WaitEstablish,
            (Phase::OweEstablish, _) | (Phase::OweParameters, Role::Initiator) => {
                Phase::WaitParameters
            }
            (Phase::OweRefusal, _) => Phase::Closed(Cause::Refused),
            (Phase::OweParameters, Role::Acceptor) => Phase::Ready,
            _ => self,
        }
    }

    pub(crate) fn after_establish(self, role: Role, wanted: bool) -> Phase
        ensures { result ≡ phase_after_establish self role wanted }
    {
        match (self, role) {
            (Phase::Closed(_), _) => self,
            (Phase::WaitEstablish, Role::Initiator) if wanted => Phase::OweParameters,
            (Phase::WaitEstablish, Role::Initiator) => Phase::Closed(Cause::Refused),
            (Phase::WaitEstablish, Role::Acceptor) if wanted => Phase::OweEstablish,
            (Phase::WaitEstablish, Role::Acceptor) => Phase::OweRefusal,
            _ => Phase::Closed(Cause::Repeated),
        }
    }

    pub(crate) fn after_parameters(self, role: Role) -> Phase
        ensures { result ≡ phase_after_parameters self role }
    {
        match (self, role) {
            (Phase::Closed(_), _) => self,
            (Phase::WaitParameters, Role::Initiator) => Phase::Ready,
            (Phase::WaitParameters, Role::Acceptor) => Phase::OweParameters,
            (Phase::OweParameters, Role::Acceptor) | (Phase::Ready, _) => {
                Phase::Closed(Cause::Repeated)
            }
            _ => Phase::Closed(Cause::Early),
        }
    }

    pub(crate) fn closed_by(self, cause: Cause) -> Phase
        ensures { result ≡ closed_by cause self }
    {
        match self {
            Phase::Closed(_) => self,
            _ => Phase::Closed(cause),
        }
    }
}
