ghost use Rattle.std.specs.Prelude.{[], ◌==◌, ◌≡◌, ◌<◌, ◌≤◌, ◌∷◌, All, IfOk, IsSomeAnd, OnOk};
ghost use Rattle.std.specs.Prelude.{length, map, not, sum_by};
ghost use Rattle.mqb_heads.specs.declared.base.TheConstants.{MAX_PACKET};
ghost use Rattle.mqb_model.specs.calls.pump.Choosing.{candidate_size, session_behind, with_heads};
ghost use Rattle.mqb_model.specs.managers.Valid.{IsExpressValid};
ghost use Rattle.mqb_model.specs.state.Valid.{IsCarried, IsValidState};
ghost use Rattle.mqb_packet.specs.Plain.{message_size};
ghost use Rattle.mqb_choosing.specs.Choices.{AreSendable, CanGo, IsThere, bytes_in, coming_from};
ghost use Rattle.mqb_choosing.specs.Choices.{message_at, shown_in};
ghost use Rattle.mqb_choosing.specs.Going.{Offers, any_waits, candidates_to, chosen_to, known};
ghost use Rattle.mqb_choosing.specs.Going.{nothing_chosen, offered, takes};

use crate::choice::{Choice, Origin};
use mqb_base::{Lane, Memory, Message};
use mqb_contents::Contents;
use mqb_model::{MAX_PACKETS, MAX_PUMP_BYTES};
use mqb_packet::{Headers, message_size};
use mqb_session::Session;
use std::alloc::Global;
use std::marker::Model;

/// The packets that go, in order, and the session behind them. Contracts see besides how many bytes
/// they have, and whether more may follow.
#[derive(Debug, Drop)]
pub struct Choices {
    choices: Vec<Choice>,
    session: Session,
    bytes: usize,
    more: bool,
}

impl Model for Choices {
    ghost use Rattle.mqb_choosing.specs.Going.{Going, IsCounted};

    ghost Value = { Going };

    ghost view = { λ c.
        record { choices = c.choices.items; session = c.session; bytes = c.bytes; more = c.more } };

    ghost invariant = { λ c. IsCounted c.choices.items c.bytes };
}

/// How many bytes the packet of a message has that can be carried with these headers.
fn size_of(message: &Message, headers: Headers) -> u32
    requires { IsCarried headers message.now }
    ensures size { result ≡ message_size headers message.now }
    ensures most { result ≤ MAX_PACKET }
{
    let Ok(size) = message_size(message, headers) else {
        unreachable!();
    };
    size
}

impl Choices {
    /// Nothing was chosen yet.
    fn new(alloc: Global, session: Session) -> Choices
        ensures { result ≡ nothing_chosen session }
    {
        Choices {
            choices: Vec::new(alloc),
            session,
            bytes: 0,
            more: true,
        }
    }

    /// Whether more may follow.
    pub(crate) fn may_go_on(&self) -> bool
        ensures { result ≡ self.now.more }
    {
        self.more
    }

    fn takes(&self, size: u32) -> bool
        ensures { result ≡ takes size self.now }
    {
        self.more
            && self.session.may_send()
            && self.choices.len() < MAX_PACKETS
            && (self.choices.is_empty() || self.bytes + size as usize <= MAX_PUMP_BYTES)
    }

    /// A packet of so many bytes goes if it may, and else none goes any more.
    fn offer_sized(&mut self, origin: Origin, size: u32) -> Result<(), Memory>
        requires { size ≤ MAX_PACKET }
        ensures { OnOk result (self.new ≡ offered origin size self.old) }
    {
        if !self.takes(size) {
            self.more = false;
            return Ok(());
        }
        let mut session = self.session;
        let head = session.stamp(origin.kind());
        self.choices.push(Choice { origin, head })?;
        self.session = session;
        self.bytes += size as usize;
        Ok(())
    }

    /// What comes from there goes if it may, and else nothing goes any more.
    pub(crate) fn offer(&mut self, contents: &Contents, origin: Origin) -> Result<(), Memory>
        requires { CanGo contents.now.lists origin }
        ensures { OnOk result (IsSomeAnd (message_at contents.now.lists origin)
            (λ m. Offers contents.now.lists self.old self.new (coming_from origin m ∷ []))) }
    {
        let size = size_of(origin.message(contents), origin.headers());
        self.offer_sized(origin, size)
    }

    /// Whatever could go to the peer at an index is offered, in the order in which it goes.
    fn offer_all(
        &mut self,
        alloc: Global,
        contents: &Contents,
        cursors: &[u32],
        owes: &[bool],
        peer: u32,
        now: u32,
    ) -> Result<(), Memory>
        requires cursors { length cursors.now ≡ length contents.now.lists.outs }
        requires owes { length owes.now ≡ length contents.now.lists.ins }
        requires peer { peer < length contents.now.lists.peers }
        requires sendable { AreSendable contents.now.lists }
        ensures { OnOk result (Offers contents.now.lists self.old self.new
            (candidates_to contents.now.lists
            (known self.old.session cursors.now owes.now) now peer)) }
    {
        let identity = &contents.peers()[peer as usize];
        self.offer_acks(alloc, contents, owes, identity, now)?;
        self.offer_plain(contents, peer, Lane::Durable)?;
        self.offer_plain(contents, peer, Lane::Express)?;
        self.offer_rows(contents, cursors, peer)
    }

    /// Whether anything could go.
    pub fn any_waits(&self) -> bool
        ensures { result ≡ any_waits self.now }
    {
        !self.more || !self.choices.is_empty()
    }

    /// The packets that go, in order.
    pub fn as_slice(&self) -> &[Choice]
        ensures { result.now ≡ self.now.choices }
    {
        self.choices.as_slice()
    }

    /// The session once they all went.
    pub fn session(&self) -> Session
        ensures { result ≡ self.now.session }
    {
        self.session
    }

    /// How many bytes their packets have.
    pub fn bytes(&self) -> usize
        ensures { result ≡ self.now.bytes }
    {
        self.bytes
    }
}

/// The packets that go to the peer at an index: the first ones that could go, as many as may.
/// `cursors` has for each outgoing row the number that was sent last, `owes` for each incoming row
/// whether it owes an acknowledgement.
pub fn choose(
    alloc: Global,
    contents: &Contents,
    session: Session,
    cursors: &[u32],
    owes: &[bool],
    peer: u32,
    now: u32,
) -> Result<Choices, Memory>
    requires valid { IsValidState contents.now.lists }
    requires express { IsExpressValid contents.now.lists }
    requires cursors { length cursors.now ≡ length contents.now.lists.outs }
    requires owes { length owes.now ≡ length contents.now.lists.ins }
    requires peer { peer < length contents.now.lists.peers }
    ensures packets { IfOk result (λ c. shown_in contents.now.lists c.choices ≡
        with_heads session (chosen_to contents.now.lists session cursors.now owes.now now peer)) }
    ensures there { IfOk result (λ c. All (IsThere contents.now.lists) c.choices) }
    ensures candidates { IfOk result (λ c. map (λ given. given.0)
        (shown_in contents.now.lists c.choices) ≡
        chosen_to contents.now.lists session cursors.now owes.now now peer) }
    ensures count { IfOk result (λ c. length c.choices ≡ length
        (chosen_to contents.now.lists session cursors.now owes.now now peer)) }
    ensures session { IfOk result (λ c. c.session ≡ session_behind session
        (chosen_to contents.now.lists session cursors.now owes.now now peer)) }
    ensures bytes { IfOk result (λ c. c.bytes ≡ sum_by candidate_size
        (chosen_to contents.now.lists session cursors.now owes.now now peer)) }
    ensures room { IfOk result (λ c. c.bytes ≡ bytes_in contents.now.lists c.choices) }

    // Whether anything could go.
    ensures any { IfOk result (λ c. any_waits c ≡ not (length
        (candidates_to contents.now.lists (known session cursors.now owes.now) now peer) == 0)) }
{
    let mut choices = Choices::new(alloc, session);
    choices.offer_all(alloc, contents, cursors, owes, peer, now)?;
    Ok(choices)
}
