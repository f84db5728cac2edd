//! What goes to a peer: it is planned, and its bytes are made.
ghost use Rattle.std.specs.Prelude.{[], ◌&&◌, ◌+◌, ◌++◌, ◌<◌, ◌≡◌, ◌≤◌, ◌==◌, All, IfOk, IsSomeAnd};
ghost use Rattle.std.specs.Prelude.{OnOk, false, flat_map, length, map, not, slice_get};
ghost use Rattle.std.specs.Vec.{vec_capacity};
ghost use Rattle.mqb_choosing.specs.Choices.{IsThere, bytes_in, shown_in};
ghost use Rattle.mqb_choosing.specs.Going.{any_waits, candidates_to, known};
ghost use Rattle.mqb_heads.specs.declared.base.TheConstants.{MAX_PACKET};
ghost use Rattle.mqb_model.specs.Lists.{grown};
ghost use Rattle.mqb_model.specs.calls.pump.Pump.{marks_for, packet_for, set_up_packet};
ghost use Rattle.mqb_model.specs.declared.limits.TheConstants.{MAX_PACKETS};
ghost use Rattle.mqb_model.specs.managers.Valid.{IsExpressValid};
ghost use Rattle.mqb_model.specs.state.Valid.{IsValidState};
ghost use Rattle.mqb_packet.specs.Plain.{IsWellFormedPacket, packet_size, plain_spelling};
ghost use Rattle.mqb_packet.specs.Values.{IsPacket};
ghost use Rattle.mqb_session.specs.Sending.{is_spent};
ghost use Rattle.mqb_choosing.specs.Plans.{IsPlanned, offered_form};

use crate::set_up_values::part_fits;
use crate::{Choices, choose, marks_for, put_choices, settle};
use mqb_base::{Guid, Memory};
use mqb_contents::Contents;
use mqb_entries::{Entry, Mark, Marks};
use mqb_packet::Packet;
use mqb_session::Session;
use mqb_setup::Internal;
use std::alloc::Global;

/// The packets that go to the peer at an index, and what is known of its connection once they went:
/// for each outgoing row the number that was sent last, and for each incoming row whether an
/// acknowledgement is owed.
#[derive(Drop)]
pub struct Sending {
    pub peer: u32,
    pub choices: Choices,
    pub cursors: Vec<u32>,
    pub owes: Vec<bool>,
}

impl Sending {
    /// Whether a session has used all its numbers, and something could go.
    pub fn is_stuck(&self, session: &Session) -> bool
        ensures { result ≡ (is_spent session.now && any_waits self.now.choices) }
    {
        session.is_spent() && self.choices.any_waits()
    }

    /// Whether nothing goes.
    pub fn is_idle(&self) -> bool
        ensures { result ≡ (length self.now.choices.choices == 0) }
    {
        self.choices.as_slice().is_empty()
    }
}

/// The entry of marks that rise, where one does.
pub fn offered_entry(marks: &[Mark]) -> Option<Entry<'_>>
    requires { length marks.now ≤ MAX_PACKETS }
    ensures { result ≡ offered_form marks.now }
{
    if marks.is_empty() {
        None
    } else {
        Some(Entry::Offered(Marks::of(marks)))
    }
}

/// The packet of a part of the set-up.
pub fn set_up_packet(part: Internal) -> Packet
    ensures packet { result ≡ set_up_packet part }
    ensures well_formed { IsWellFormedPacket result }
    ensures fits { IsPacket result }
    ensures size { packet_size result ≤ MAX_PACKET }
{
    part_fits(&part);
    match part {
        Internal::Establish(establish) => Packet::Establish(establish),
        Internal::Parameters(parameters) => Packet::Parameters(parameters),
        Internal::Ack(head) => Packet::Ack(head),
    }
}

/// A copy of so many members. Those that are missing are blank.
fn copied<T: Copy>(alloc: Global, list: &[T], blank: T, count: usize) -> Result<Vec<T>, Memory>
    requires { length list.now ≤ count }
    ensures { IfOk result (λ copy. copy.items ≡ grown blank count list.now) }
{
    let mut copy = Vec::with_capacity(alloc, count)?;
    copy.extend_from_slice(list)?;
    copy.resize(count, blank)?;
    Ok(copy)
}

/// What goes to the peer at an index. `cursors` has for each outgoing row the number that was sent
/// last, `owes` for each incoming row whether it owes an acknowledgement; rows behind the end of a
/// list have none and owe none.
pub fn plan_sending(
    alloc: Global,
    contents: &Contents,
    session: Session,
    cursors: &[u32],
    owes: &[bool],
    peer: u32,
    now: u32,
) -> Result<Sending, Memory>
    requires valid { IsValidState contents.now.lists }
    requires express { IsExpressValid contents.now.lists }
    requires cursors { length cursors.now ≤ length contents.now.lists.outs }
    requires owes { length owes.now ≤ length contents.now.lists.ins }
    requires peer { peer < length contents.now.lists.peers }
    ensures peer { IfOk result (λ s. s.peer ≡ peer) }
    ensures planned { IfOk result (λ s. IsPlanned contents.now.lists session
        (grown 0 (length contents.now.lists.outs) cursors.now)
        (grown false (length contents.now.lists.ins) owes.now)
        now s.peer s.choices s.cursors.items s.owes.items) }
    // Whether anything could go.
    ensures any { IfOk result (λ s. any_waits s.choices ≡ not (length
        (candidates_to contents.now.lists (known session
        (grown 0 (length contents.now.lists.outs) cursors.now)
        (grown false (length contents.now.lists.ins) owes.now)) now s.peer) == 0)) }
{
    let mut cursors = copied(alloc, cursors, 0, contents.outs().len())?;
    let mut owes = copied(alloc, owes, false, contents.ins().len())?;
    let choices = choose(alloc, contents, session, &cursors, &owes, peer, now)?;
    settle(&choices, &mut cursors, &mut owes);
    Ok(Sending {
        peer,
        choices,
        cursors,
        owes,
    })
}

/// The manager at an index.
fn guid_at(contents: &Contents, peer: u32) -> Guid
    requires { peer < length contents.now.lists.peers }
    ensures { IsSomeAnd (slice_get contents.now.lists.peers peer) (λ to. result ≡ to.guid) }
{
    match contents.peers().get(peer as usize) {
        Some(to) => to.guid,
        None => unreachable!(),
    }
}

/// The marks that rise where these packets go, once `out` has room for their bytes.
pub fn prepare_sending(
    alloc: Global,
    contents: &Contents,
    sending: &Sending,
    out: &mut Vec<u8>,
) -> Result<Vec<Mark>, Memory>
    requires { All (IsThere contents.now.lists) sending.now.choices.choices }
    ensures marks { IfOk result (λ marks. marks.items ≡ marks_for contents.now.lists
        (map (λ given. given.0) (shown_in contents.now.lists sending.now.choices.choices))) }
    ensures room { OnOk result
        (length out.new.items + sending.now.choices.bytes ≤ vec_capacity out.new) }
    ensures stays { out.new.items ≡ out.old.items }
{
    let marks = marks_for(alloc, contents, &sending.choices)?;
    out.reserve(sending.choices.bytes())?;
    Ok(marks)
}

/// Adds the bytes of the packets that go, where there is room for them. It takes no memory.
pub fn put_sending(contents: &Contents, sending: &Sending, now: u32, out: &mut Vec<u8>)
    requires peer { sending.now.peer < length contents.now.lists.peers }
    requires there { All (IsThere contents.now.lists) sending.now.choices.choices }
    requires room { length out.old.items
        + bytes_in contents.now.lists sending.now.choices.choices ≤ vec_capacity out.old }
    ensures put { IsSomeAnd (slice_get contents.now.lists.peers sending.now.peer)
        (λ to. out.new.items ≡ out.old.items ++
        flat_map (λ given. plain_spelling (packet_for to.guid now given))
        (shown_in contents.now.lists sending.now.choices.choices)) }
    ensures fits { IsSomeAnd (slice_get contents.now.lists.peers sending.now.peer)
        (λ to. All (λ given. IsPacket (packet_for to.guid now given))
        (shown_in contents.now.lists sending.now.choices.choices)) }
{
    let to = guid_at(contents, sending.peer);
    put_choices(contents, &sending.choices, to, now, out);
}
