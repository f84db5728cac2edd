//! A capture is inspected, packet by packet.
ghost use Rattle.std.specs.Prelude.{◌≡◌, ◌+◌, ◌<◌, ◌≤◌, ◌^◌, IfOk, None, OnOk, length};
ghost use Rattle.mqb_capture.specs.Events.{Watch, byte_came, no_events, piece_came};
ghost use Rattle.mqb_capture.specs.Grammar.{Head};
ghost use Rattle.mqb_inspect.specs.Grammar.{seen_head};
ghost use Rattle.mqb_inspect.specs.Standing.{Goes, IsWanting, Stands, holds_rest};
ghost use Rattle.mqb_inspect.specs.Taking.{JoinsOf, TakesHeard, TakesSent};

use crate::cutting::{Came, take_byte};
use crate::fitting::link_of;
use crate::grammar::{CaptureHead, first_session};
use crate::links::Links;
use crate::session::{goes_from, hear, send};
use crate::standing::Inspection;
use mqb_base::Memory;
use mqb_capture::{BreakCause, Way};
use mqb_heads::MAX_PACKET;
use mqb_packet::Packet;
use mqb_stream::Framer;
use std::alloc::Global;

/// Adds a packet's message to those of its way, and says whether it fits them.
fn add_link(links: &mut Links, packet: Packet) -> Result<bool, Memory>
    ensures { IfOk result (λ added. JoinsOf packet links.old links.new added) }
{
    match link_of(packet) {
        Some(link) => links.add(link),
        None => Ok(true),
    }
}

impl Inspection {
    /// Before anything was sent or heard.
    #[tactic(auto, unfolding(mqb_stream::specs::Framing::next))]
    pub fn new(alloc: Global, head: &CaptureHead) -> Result<Inspection, Memory>
        ensures stands { IfOk result (Stands (seen_head head.now) no_events) }
        ensures wants { IfOk result IsWanting }
        ensures seen { IfOk result (λ inspection. inspection.seen ≡ 0) }
    {
        Ok(Inspection {
            own: head.own,
            peer: head.peer,
            session: first_session(head),
            sent: Framer::new(alloc, MAX_PACKET)?,
            heard: Framer::new(alloc, MAX_PACKET)?,
            sent_links: Links::new(alloc),
            heard_links: Links::new(alloc),
            sent_count: 0,
            heard_count: 0,
            seen: 0,
        })
    }

    /// How many packets came.
    pub fn count(&self) -> u32
        ensures { result ≡ self.now.sent_count + self.now.heard_count }
    {
        self.sent_count + self.heard_count
    }

    /// Whether bytes are held that are no packet.
    pub fn holds_rest(&self) -> bool
        ensures { result ≡ holds_rest self.now }
    {
        self.sent.held() != 0 || self.heard.held() != 0
    }

    /// A packet was sent: says why it may not come, or takes it.
    fn take_sent(&mut self, packet: Packet) -> Result<Option<BreakCause>, Memory>
        requires { self.old.sent_count + self.old.heard_count < self.old.seen }
        ensures takes { IfOk result (TakesSent packet self.old self.new) }
        ensures seen { OnOk result (self.new.seen ≡ self.old.seen) }
    {
        if !goes_from(&packet, self.own, self.peer) {
            return Ok(Some(BreakCause::Origin));
        }
        if let Some(why) = send(&mut self.session, &packet) {
            return Ok(Some(why));
        }
        if !add_link(&mut self.sent_links, packet)? {
            return Ok(Some(BreakCause::Link));
        }
        self.sent_count += 1;
        Ok(None)
    }

    /// A packet was heard: says why it may not come, or takes it.
    fn take_heard(&mut self, packet: Packet) -> Result<Option<BreakCause>, Memory>
        requires { self.old.sent_count + self.old.heard_count < self.old.seen }
        ensures takes { IfOk result (TakesHeard packet self.old self.new) }
        ensures seen { OnOk result (self.new.seen ≡ self.old.seen) }
    {
        if !goes_from(&packet, self.peer, self.own) {
            return Ok(Some(BreakCause::Origin));
        }
        if let Some(why) = hear(&mut self.session, self.peer, &packet) {
            return Ok(Some(BreakCause::Closed(why)));
        }
        if !add_link(&mut self.heard_links, packet)? {
            return Ok(Some(BreakCause::Link));
        }
        self.heard_count += 1;
        Ok(None)
    }

    /// A byte was sent.
    fn sent_byte(&mut self, alloc: Global, byte: u8) -> Result<Option<BreakCause>, Memory>
        requires few { self.old.seen < 2 ^ 31 }
        requires wants { IsWanting self.old }
        ensures goes { (h : Head) (w : Watch) → Stands h w self.old →
            IfOk result (Goes h (byte_came Way.Sent w byte) self.new) }
        ensures wants { IfOk result (λ found. found ≡ None → IsWanting self.new) }
        ensures seen { OnOk result (self.new.seen ≡ self.old.seen + 1) }
    {
        self.seen += 1;
        match take_byte(alloc, &mut self.sent, byte)? {
            Came::Nothing => Ok(None),
            Came::Bad { fault } => Ok(Some(BreakCause::Bad { fault })),
            Came::Packet(packet) => self.take_sent(packet),
        }
    }

    /// A byte was heard.
    fn heard_byte(&mut self, alloc: Global, byte: u8) -> Result<Option<BreakCause>, Memory>
        requires few { self.old.seen < 2 ^ 31 }
        requires wants { IsWanting self.old }
        ensures goes { (h : Head) (w : Watch) → Stands h w self.old →
            IfOk result (Goes h (byte_came Way.Heard w byte) self.new) }
        ensures wants { IfOk result (λ found. found ≡ None → IsWanting self.new) }
        ensures seen { OnOk result (self.new.seen ≡ self.old.seen + 1) }
    {
        self.seen += 1;
        match take_byte(alloc, &mut self.heard, byte)? {
            Came::Nothing => Ok(None),
            Came::Bad { fault } => Ok(Some(BreakCause::Bad { fault })),
            Came::Packet(packet) => self.take_heard(packet),
        }
    }

    fn byte(&mut self, alloc: Global, way: Way, byte: u8) -> Result<Option<BreakCause>, Memory>
        requires few { self.old.seen < 2 ^ 31 }
        requires wants { IsWanting self.old }
        ensures goes { (h : Head) (w : Watch) → Stands h w self.old →
            IfOk result (Goes h (byte_came way w byte) self.new) }
        ensures wants { IfOk result (λ found. found ≡ None → IsWanting self.new) }
        ensures seen { OnOk result (self.new.seen ≡ self.old.seen + 1) }
    {
        match way {
            Way::Sent => self.sent_byte(alloc, byte),
            Way::Heard => self.heard_byte(alloc, byte),
        }
    }

    /// A piece comes: says why its first packet that may not come does not, or takes all of it.
    pub fn take_piece(
        &mut self,
        alloc: Global,
        way: Way,
        bytes: &[u8],
    ) -> Result<Option<BreakCause>, Memory>
        requires few { self.old.seen + length bytes.now < 2 ^ 31 }
        requires wants { IsWanting self.old }
        ensures goes { (h : Head) (w : Watch) → Stands h w self.old →
            IfOk result (Goes h (piece_came w (record { way = way; bytes = bytes.now })) self.new) }
        ensures wants { IfOk result (λ found. found ≡ None → IsWanting self.new) }
        ensures seen { OnOk result (self.new.seen ≤ self.old.seen + length bytes.now) }
    {
        let mut rest = bytes;
        while let [byte, after @ ..] = rest {
            if let Some(why) = self.byte(alloc, way, *byte)? {
                return Ok(Some(why));
            }
            rest = after;
        }
        Ok(None)
    }
}
