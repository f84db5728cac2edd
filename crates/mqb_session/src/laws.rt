ghost use Rattle.std.specs.Prelude.{◌≡◌, ℕ, ◌+◌, List, length, map, false, Option, None};
ghost use Rattle.mqb_base.specs.declared.heads.SessionHead.{SessionHead};
ghost use Rattle.mqb_base.specs.declared.heard.Cause.{Cause};
ghost use Rattle.mqb_base.specs.declared.ids.Guid.{Guid};
ghost use Rattle.mqb_session.specs.declared.heads.HeadHeard.TheVariants as heard;
ghost use Rattle.mqb_session.specs.declared.phase.Phase.TheVariants.{Closed, Ready};
ghost use Rattle.mqb_session.specs.State.{State, new_acceptor, new_initiator};
ghost use Rattle.mqb_session.specs.Phases.{owed_by};
ghost use Rattle.mqb_session.specs.Hearing.{heard_head};
ghost use Rattle.mqb_session.specs.Sending.{may_send};
ghost use Rattle.mqb_session.specs.Calls.{Call, AreAllowed, IsWithinWindow, after, after_all, from};
ghost use Rattle.mqb_session.specs.Calls.{heads_of, recoverable_heads, user_heads};

/// A closed session stays closed by its cause, whatever is called. It hears each header with that
/// cause, owes no packet and sends no user packet.
pub fn closed_stays()
    ensures closed { (calls : List Call) (cause : Cause) (s : State) → s.phase ≡ Closed cause →
        (after_all calls s).phase ≡ Closed cause }
    ensures heard { (h : SessionHead) (cause : Cause) (s : State) → s.phase ≡ Closed cause →
        (heard_head h s).0 ≡ heard.Closed cause }
    ensures owes_none { (now : ℕ) (cause : Cause) (s : State) → s.phase ≡ Closed cause →
        owed_by s.phase now s ≡ None }
    ensures sends_none { (cause : Cause) (s : State) → s.phase ≡ Closed cause → may_send s ≡ false }
{}

/// Never are more user packets sent and not acknowledged than the peer's window, from a new session
/// on. Once the session is ready, that window stays.
pub fn window_is_kept()
    ensures initiator { (own peer : Guid) (window : ℕ) →
        IsWithinWindow (new_initiator own peer window) }
    ensures acceptor { (own : Guid) (window : ℕ) → IsWithinWindow (new_acceptor own window) }
    ensures kept { (calls : List Call) (s : State) → AreAllowed calls s → IsWithinWindow s →
        IsWithinWindow (after_all calls s) }
    ensures stays { (call : Call) (s : State) → s.phase ≡ Ready →
        (after call s).peer_window ≡ s.peer_window }
{}

/// Each user packet has the next number, and so has each recoverable one among its like. So
/// no number comes twice.
pub fn numbers_rise()
    ensures user { (calls : List Call) (s : State) →
        let heads = heads_of user_heads calls s in
        map (λ h. h.user) heads ≡ from (s.sent + 1) (length heads) }
    ensures recoverable { (calls : List Call) (s : State) →
        let heads = heads_of recoverable_heads calls s in
        map (λ h. h.recoverable) heads ≡ from (s.recoverable_sent + 1) (length heads) }
{}
