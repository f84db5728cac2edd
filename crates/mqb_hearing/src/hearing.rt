ghost use Rattle.std.specs.Option.{option_map_or};
ghost use Rattle.std.specs.Prelude.{[], ◌<◌, ◌≡◌, IfOk, IfSome, Ok, OnOk, Some, false};
ghost use Rattle.std.specs.Prelude.{is_some, true};
ghost use Rattle.mqb_base.specs.Same.{same_guid};
ghost use Rattle.mqb_timeouts.specs.Work.{beside_of};
ghost use Rattle.mqb_model.specs.calls.hear.Hear.{hear_behind, hear_linked, hear_user};
ghost use Rattle.mqb_model.specs.calls.hear.Session.{by_session, hear_set_up, is_foreign};
ghost use Rattle.mqb_model.specs.calls.hear.Session.{set_up_answer, user_heard};
ghost use Rattle.mqb_model.specs.managers.Beside.{beside_done};
ghost use Rattle.mqb_model.specs.managers.Manager.{Manager};
ghost use Rattle.mqb_model.specs.managers.Outcomes.{recorded};
ghost use Rattle.mqb_model.specs.managers.Valid.{IsWritable};
ghost use Rattle.mqb_model.specs.state.Valid.{IsValidState};
ghost use Rattle.mqb_packet.specs.Parts.{seen_packet};
ghost use Rattle.mqb_packet.specs.Spelled.{IsLent, packet_in};
ghost use Rattle.mqb_packet.specs.declared.lent.PacketView.TheVariants as lent;
ghost use Rattle.mqb_packet.specs.declared.packet.Packet.{Packet};
ghost use Rattle.mqb_packet.specs.declared.packet.Packet.TheVariants as packet;
ghost use Rattle.mqb_session.specs.Sending.{is_ready};
ghost use Rattle.mqb_session.specs.State.{IsKept};
ghost use Rattle.mqb_session.specs.declared.heads.HeadHeard.TheVariants as head;
ghost use Rattle.mqb_hearing.specs.Plans.{Brings, Hears, Makes, OnHeard, ShowsReadable, WhereValid};
ghost use Rattle.mqb_hearing.specs.Plans.{outcome_of, rest_after, whole_of};

use crate::arrival::Arrival;
use crate::lent::LentPacket;
use crate::listener::Listener;
use mqb_base::{Cause, Guid, Heard, Memory, SessionHead};
use mqb_contents::Contents;
use mqb_model::{calls_keep_valid, records_are_read, records_fit};
use mqb_packet::{PacketView, UserView};
use mqb_session::{HeadHeard, Phase, Session};
use mqb_timeouts::ExpressWork;
use std::alloc::Global;

/// A packet without a session header acknowledges nothing, and is never in order.
const NO_HEAD: SessionHead = SessionHead {
    ack: 0,
    stored: 0,
    stored_flags: 0,
    user: 0,
    recoverable: 0,
    window: 0,
};

/// What a manager is to do that hears a packet.
#[derive(Debug, Drop)]
pub struct Hearing<'a> {
    /// What the packet was heard as.
    pub answer: Heard,
    pub session: Session,
    /// What is to be written.
    pub arrival: Arrival<'a>,
    /// What is to be done beside it.
    pub work: ExpressWork,
    /// The index of the incoming row that owes an acknowledgement, one behind the last
    /// where the row is new.
    pub owes: Option<u32>,
}

/// A packet changes the session alone.
fn by_session<'a>(alloc: Global, session: Session, answer: Heard, now: u32) -> Hearing<'a>
    ensures heard { (m : Manager) → by_session m session answer ≡ outcome_of m result }
    ensures brings { result.arrival.packet ≡ [] }
{
    Hearing {
        answer,
        session,
        arrival: Arrival::nothing(alloc, now),
        work: ExpressWork::Nothing,
        owes: None,
    }
}

/// What a set-up packet is heard as that left this phase.
fn set_up_answer(phase: Phase) -> Heard
    ensures { result ≡ set_up_answer phase }
{
    match phase {
        Phase::Closed(cause) => Heard::Closed(cause),
        _ => Heard::SetUp,
    }
}

fn is_ready(session: &Session) -> bool
    ensures ready { result ≡ is_ready session.now.phase }
    ensures kept { IsKept session.now }
{
    matches!(session.phase(), Phase::Ready)
}

fn is_from(session: &Session, source: Guid) -> bool
    ensures { result ≡ option_map_or (same_guid source) session.now.peer false }
{
    match session.peer() {
        Some(peer) => source == peer,
        None => false,
    }
}

/// Whether a packet is not from the session's peer, or not for this manager.
fn is_foreign(contents: &Contents, session: &Session, packet: &LentPacket<'_>) -> bool
    ensures { result ≡ is_foreign contents.now.lists session.now packet.now.said }
{
    !(is_from(session, packet.source()) && packet.target() == contents.identity().guid)
}

/// What a session makes of a user packet.
fn user_heard(contents: &Contents, session: &mut Session, packet: &LentPacket<'_>) -> HeadHeard
    ensures heard { result ≡ (user_heard contents.now.lists session.old packet.now.said).0 }
    ensures left { session.new ≡ (user_heard contents.now.lists session.old packet.now.said).1 }
    ensures got { result ≡ head.InOrder → session.new.stored < session.new.got }
{
    if is_ready(session) && is_foreign(contents, session, packet) {
        session.close(Cause::Foreign);
        return HeadHeard::Closed(Cause::Foreign);
    }
    let head = packet.session().unwrap_or(NO_HEAD);
    session.hear_head(&head)
}

impl Listener<'_> {
    /// What a user packet carries is heard.
    fn hear_user<'a>(&self, packet: &LentPacket<'a>, in_order: bool) -> Result<Hearing<'a>, Memory>
        requires valid { IsValidState self.now.state }
        requires got { in_order ≡ true → self.now.session.stored < self.now.session.got }
        ensures heard { Hears self.now result (λ l. hear_user l in_order packet.now.said) }
        ensures brings { Brings packet.now.whole result }
    {
        match packet.tx() {
            Some(tx) => self.hear_in_stream(packet, &tx),
            None => self.hear_plain(packet, in_order),
        }
    }
}

/// What a user packet carries is heard, once the session heard its header as this.
fn hear_behind<'a>(
    alloc: Global,
    contents: &Contents,
    session: Session,
    packet: &LentPacket<'a>,
    heard: HeadHeard,
    now: u32,
) -> Result<Hearing<'a>, Memory>
    requires valid { IsValidState contents.now.lists }
    requires got { heard ≡ head.InOrder → session.stored < session.got }
    ensures made { Makes contents.now.lists result
        (λ m. hear_behind m now packet.now.said heard session) }
    ensures brings { Brings packet.now.whole result }
{
    let listener = Listener::new(alloc, contents, session, now);
    match heard {
        HeadHeard::Closed(cause) => Ok(by_session(alloc, session, Heard::Closed(cause), now)),
        HeadHeard::InOrder => listener.hear_user(packet, true),
        HeadHeard::OutOfOrder | HeadHeard::AckOnly => listener.hear_user(packet, false),
    }
}

/// A user packet is heard.
fn hear_user_packet<'a>(
    alloc: Global,
    contents: &Contents,
    session: Session,
    view: &'a UserView<'a>,
    now: u32,
) -> Result<Hearing<'a>, Memory>
    requires valid { IsValidState contents.now.lists }
    requires lent { IsLent (lent.User view.now) }
    ensures made { (p : Packet) → packet_in (seen_packet (lent.User view.now)) ≡ Some p →
        Makes contents.now.lists result (λ m. hear_linked m now p session) }
    ensures readable { OnOk result (ShowsReadable (lent.User view.now)) }
    ensures brings { Brings view.now.whole.now result }
{
    let packet = LentPacket::new(alloc, view)?;
    let mut session = session;
    let heard = user_heard(contents, &mut session, &packet);
    hear_behind(alloc, contents, session, &packet, heard, now)
}

/// A session acknowledgement is heard. It repeats a user number, which is not its own.
fn hear_ack<'a>(
    alloc: Global,
    contents: &Contents,
    session: Session,
    head: &SessionHead,
    now: u32,
) -> Result<Hearing<'a>, Memory>
    ensures made { Makes contents.now.lists result
        (λ m. hear_linked m now (packet.Ack head.now) session) }
    ensures brings { Brings [] result }
{
    let mut session = session;
    let head = SessionHead { user: 0, ..*head };
    match session.hear_head(&head) {
        HeadHeard::Closed(cause) => Ok(by_session(alloc, session, Heard::Closed(cause), now)),
        HeadHeard::InOrder | HeadHeard::OutOfOrder | HeadHeard::AckOnly => {
            Listener::new(alloc, contents, session, now).heard_bare(Heard::Session)
        }
    }
}

/// A set-up packet left this session.
fn hear_set_up<'a>(alloc: Global, session: Session, now: u32) -> Hearing<'a>
    ensures heard { (m : Manager) → hear_set_up m session ≡ outcome_of m result }
    ensures brings { result.arrival.packet ≡ [] }
{
    let answer = set_up_answer(session.phase());
    by_session(alloc, session, answer, now)
}

/// The plan, as one outcome.
fn plan<'a>(
    alloc: Global,
    contents: &Contents,
    session: Session,
    packet: &'a PacketView<'a>,
    now: u32,
) -> Result<Hearing<'a>, Memory>
    requires valid { IsValidState contents.now.lists }
    requires lent { IsLent packet.now }
    ensures made { (p : Packet) → packet_in (seen_packet packet.now) ≡ Some p →
        Makes contents.now.lists result (λ m. hear_linked m now p session) }
    ensures readable { OnOk result (ShowsReadable packet.now) }
    ensures brings { Brings (whole_of packet.now) result }
{
    let mut session = session;
    match packet {
        PacketView::Establish(establish) => {
            let known = contents.peer_known(establish.client).is_some();
            session.hear_establish(establish, known);
            Ok(hear_set_up(alloc, session, now))
        }
        PacketView::Parameters(parameters) => {
            session.hear_parameters(parameters);
            Ok(hear_set_up(alloc, session, now))
        }
        PacketView::Ack(head) => hear_ack(alloc, contents, session, head, now),
        PacketView::User(view) => hear_user_packet(alloc, contents, session, view, now),
    }
}

/// What a manager with this session makes of a packet. It takes memory for the released numbers,
/// for the name of a destination, and for an express message that arrives.
pub fn hear<'a>(
    alloc: Global,
    contents: &Contents,
    session: Session,
    packet: &'a PacketView<'a>,
    now: u32,
) -> Result<Hearing<'a>, Memory>
    requires valid { IsValidState contents.now.lists }
    requires lent { IsLent packet.now }

    // For whatever linked manager that keeps this.
    ensures answer { IfOk result (λ h. OnHeard contents.now.lists session now packet.now
        (λ m o. o.answer ≡ Ok h.answer)) }
    ensures entry { IfOk result (λ h. OnHeard contents.now.lists session now packet.now
        (λ m o. o.entry ≡ h.arrival.written)) }
    ensures beside { IfOk result (λ h. OnHeard contents.now.lists session now packet.now
        (λ m o. o.beside ≡ beside_of h.work)) }
    ensures rest { IfOk result (λ h. OnHeard contents.now.lists session now packet.now
        (λ m o. o.rest ≡ rest_after h m.rest)) }
    ensures touches { IfOk result (λ h. OnHeard contents.now.lists session now packet.now
        (λ m o. o.touches ≡ is_some h.arrival.written)) }
    ensures packets { IfOk result (λ h. OnHeard contents.now.lists session now packet.now
        (λ m o. o.packets ≡ [])) }

    // A record's packet is the very bytes that were heard.
    ensures brings { Brings (whole_of packet.now) result }

    // Where that manager is valid.
    ensures writable { IfOk result (λ h. WhereValid contents.now.lists session
        (IfSome h.arrival.written (IsWritable contents.now.lists))) }
    ensures leaves_valid { IfOk result (λ h. WhereValid contents.now.lists session
        (IsValidState (beside_done (beside_of h.work)
        (recorded contents.now.lists h.arrival.written)))) }
{
    records_fit();
    records_are_read();
    calls_keep_valid();
    plan(alloc, contents, session, packet, now)
}
