//! What a session sends and hears.
ghost use Rattle.std.specs.Prelude.{◌≡◌, IfNone, IfSome};
ghost use Rattle.mqb_capture.specs.Judged.{goes_between};
ghost use Rattle.mqb_capture.specs.Lawful.{cause_of, heard_by, kind_for};
ghost use Rattle.mqb_inspect.specs.Passing.{IsOwed, Sends, goes_from, heard_user};
ghost use Rattle.mqb_packet.specs.declared.packet.Packet.TheVariants as packet;
ghost use Rattle.mqb_session.specs.Hearing.{after_owed};
ghost use Rattle.mqb_session.specs.Sending.{is_ready};

use mqb_base::{Cause, Delivery, Guid, SessionHead};
use mqb_capture::BreakCause;
use mqb_packet::{Packet, UserPacket};
use mqb_session::{HeadHeard, Kind, Phase, Session};
use mqb_setup::{Establish, Internal, Parameters};

fn is_ready(session: &Session) -> bool
    ensures { result ≡ is_ready session.now.phase }
{
    matches!(session.phase(), Phase::Ready)
}

/// Why a session is closed, where it is.
fn cause_of(session: &Session) -> Option<Cause>
    ensures { result ≡ cause_of session.now.phase }
{
    match session.phase() {
        Phase::Closed(why) => Some(why),
        _ => None,
    }
}

/// The kind of packet that a message is in.
fn kind_for(delivery: Delivery) -> Kind
    ensures { result ≡ kind_for delivery }
{
    match delivery {
        Delivery::Recoverable => Kind::Recoverable,
        _ => Kind::Plain,
    }
}

/// Sends a session acknowledgement, or says why it may not go.
fn send_ack(session: &mut Session, head: &SessionHead) -> Option<BreakCause>
    ensures sends { Sends (packet.Ack head.now) session.old session.new result }
{
    if !is_ready(session) {
        return Some(BreakCause::Phase);
    }
    if session.stamp(Kind::Ack) != *head {
        return Some(BreakCause::Stamp);
    }
    None
}

/// Sends a user packet, or says why it may not go.
fn send_user(session: &mut Session, p: &UserPacket) -> Option<BreakCause>
    ensures sends { Sends (packet.User p.now) session.old session.new result }
{
    if !is_ready(session) {
        return Some(BreakCause::Phase);
    }
    if !session.may_send() {
        return Some(BreakCause::Window);
    }
    if p.session != Some(session.stamp(kind_for(p.message.delivery))) {
        return Some(BreakCause::Stamp);
    }
    None
}

/// Sends the set-up packet that is owed at a moment, or says that this is another one, or that
/// it ends the session.
fn send_set_up(session: &mut Session, part: Internal, moment: u32) -> Option<BreakCause>
    ensures owed { IfNone result (IsOwed part moment session.old) }
    ensures other { IfSome result (λ why. (why ≡ BreakCause.Phase)
        × (IsOwed part moment session.old → ⊥)) }
    ensures left { session.new ≡ after_owed moment session.old }
{
    if session.owed(moment) != Some(part) {
        return Some(BreakCause::Phase);
    }
    if cause_of(session).is_some() {
        return Some(BreakCause::Phase);
    }
    None
}

/// Sends a packet, or says why it may not go.
pub fn send(session: &mut Session, p: &Packet) -> Option<BreakCause>
    ensures sends { Sends p.now session.old session.new result }
{
    match p {
        Packet::Establish(e) => send_set_up(session, Internal::Establish(*e), e.stamp),
        Packet::Parameters(q) => send_set_up(session, Internal::Parameters(*q), 0),
        Packet::Ack(head) => send_ack(session, head),
        Packet::User(user) => send_user(session, user),
    }
}

/// Hears a user packet. A recoverable message in order is stored.
fn hear_user(session: &mut Session, p: &UserPacket)
    ensures { session.new ≡ heard_user p.now session.old }
{
    let Some(head) = &p.session else {
        return;
    };
    let _kept = session.phase();
    let heard = session.hear_head(head);
    if heard == HeadHeard::InOrder && p.message.delivery == Delivery::Recoverable {
        session.note_stored();
    }
}

/// Hears a packet, of which only this peer is a known client, and says why that closes the
/// session, where it does.
pub fn hear(session: &mut Session, peer: Guid, p: &Packet) -> Option<Cause>
    ensures left { session.new ≡ heard_by peer p.now session.old }
    ensures cause { result ≡ cause_of session.new.phase }
{
    match p {
        Packet::Establish(e) => session.hear_establish(e, e.client == peer),
        Packet::Parameters(q) => session.hear_parameters(q),
        Packet::Ack(head) => {
            session.hear_head(&SessionHead { user: 0, ..*head });
        }
        Packet::User(user) => hear_user(session, user),
    }
    cause_of(session)
}

fn goes_between(p: &UserPacket, from: Guid, to: Guid) -> bool
    ensures { result ≡ goes_between from to p.now }
{
    p.session.is_some() && p.message.id.qm == from && p.to == to
}

/// Whether a packet goes from one manager to another, as far as it says that.
pub fn goes_from(p: &Packet, from: Guid, to: Guid) -> bool
    ensures { result ≡ goes_from from to p.now }
{
    match p {
        Packet::User(user) => goes_between(user, from, to),
        _ => true,
    }
}
