ghost use Rattle.std.specs.Prelude.{◌≡◌, ◌≤◌, ◌+◌, ◌++◌, length, map, codes, Ok, Err, IfOk};
ghost use Rattle.std.specs.Prelude.{OnOk, IfErr};
ghost use Rattle.std.specs.Fmt.{decimal};
ghost use Rattle.mqb_picture.specs.Faults.{Reads, IsFaultOf};
ghost use Rattle.mqb_picture.specs.Fates.{packet_at};
ghost use Rattle.mqb_picture.specs.Elements.{add};
ghost use Rattle.mqb_picture.specs.Reading.{blank};
ghost use Rattle.mqb_picture.specs.Picture.{note, between, arrived, heard, sent, said_in};
ghost use Rattle.mqb_picture.specs.Picture.{heard_next, flowed, flow, answered, said_to, drawn};

use crate::asked::{Asked, asked_of};
use crate::faults::Fault;
use crate::marks::mark_of;
use crate::packets::{Packet, Packets};
use crate::texts::{clipped, first_word, request_of, told};
use crate::words::{around, behind, in_front_of, is_word, parts};
use mqb_base::Memory;
use mqb_svg::{Element, Side};
use std::alloc::Global;
use std::marker::Model;

/// A picture that is being made. Contracts see the packets that were sent and the elements so far.
/// After a refusal it is of no more use.
#[derive(Drop)]
pub struct Picture {
    alloc: Global,
    packets: Packets,
    elements: Vec<Element>,
}

impl Model for Picture {
    ghost use Rattle.mqb_picture.specs.Elements.{Progress};

    ghost Value = { Progress };

    ghost view = { λ p. record { packets = p.packets; elements = p.elements.items } };
}

/// What stands behind the number of a reply, which is that of its line.
#[tactic(auto, unfolding(crate::specs::Picture::said_to))]
fn said_to(alloc: Global, line: usize, reply: &[u8]) -> Result<&[u8], Fault>
    ensures ok { IfOk result (λ said. said_to line reply.now ≡ Ok said.now) }
    ensures err { IfErr result (IsFaultOf (said_to line reply.now)) }
{
    let front = around(alloc, b"", line, b" ")?;
    behind(&front, reply).ok_or(Fault::line(line))
}

/// What a part of a flow's reply says: each but the last ends with the number of the packet that
/// the next one is about.
#[tactic(auto, unfolding(crate::specs::Picture::said_in))]
fn said_in<'t>(
    alloc: Global,
    line: usize,
    next: usize,
    part: &'t [u8],
    parts: &[&[u8]],
) -> Result<&'t [u8], Fault>
    ensures ok { IfOk result (λ said. said_in line next part.now
        (map (λ part. part.now) parts.now) ≡ Ok said.now) }
    ensures err { IfErr result (IsFaultOf (said_in line next part.now
        (map (λ part. part.now) parts.now))) }
{
    if parts.is_empty() {
        return Ok(part);
    }
    let back = around(alloc, b" ", next, b"")?;
    in_front_of(&back, part).ok_or(Fault::line(line))
}

impl Picture {
    pub fn new(alloc: Global) -> Picture
        ensures { result ≡ blank }
    {
        Picture {
            alloc,
            packets: Packets::new(alloc),
            elements: Vec::new(alloc),
        }
    }

    pub fn elements(&self) -> &[Element]
        ensures { result.now ≡ self.now.elements }
    {
        self.elements.as_slice()
    }

    pub fn add(&mut self, element: Element) -> Result<(), Memory>
        ensures { OnOk result (self.new ≡ add element self.old) }
    {
        self.elements.push(element)?;
        Ok(())
    }

    #[tactic(auto, unfolding(crate::specs::Picture::note))]
    fn note(&mut self, line: usize, side: Side, request: &[u8], said: &[u8]) -> Result<(), Memory>
        ensures { OnOk result (self.new ≡ note line side request.now said.now self.old) }
    {
        let mark = mark_of(first_word(said));
        let text = told(self.alloc, request, said)?;
        self.add(Element::Note {
            line,
            side,
            mark,
            text,
        })
    }

    #[tactic(auto, unfolding(crate::specs::Picture::between))]
    fn between(&mut self, line: usize, request: &[u8], said: &[u8]) -> Result<(), Memory>
        ensures { OnOk result (self.new ≡ between line request.now said.now self.old) }
    {
        let text = told(self.alloc, request, said)?;
        self.add(Element::Bar { line, text })
    }

    /// A packet that was sent came or was lost.
    #[tactic(auto, unfolding(crate::specs::Picture::arrived))]
    fn arrived(
        &mut self,
        line: usize,
        number: usize,
        packet: Packet,
        said: &[u8],
    ) -> Result<(), Memory>
        requires first { 1 ≤ number }
        requires last { number ≤ length self.old.packets }
        ensures { OnOk result (self.new ≡ arrived line number packet said.now self.old) }
    {
        let word = first_word(said);
        let fate = self.packets.fate(number, packet, word);
        let text = clipped(self.alloc, said)?;
        self.packets.settle(fate, number, packet);
        self.add(Element::Arrow {
            line,
            from: packet.from,
            number,
            fate,
            mark: mark_of(word),
            text,
        })
    }

    /// This was said of a packet.
    #[tactic(auto, unfolding(crate::specs::Picture::heard))]
    fn heard(&mut self, line: usize, number: usize, said: &[u8]) -> Result<(), Memory>
        ensures { OnOk result (self.new ≡ heard line number said.now self.old) }
    {
        match self.packets.get(number) {
            Some(packet) => self.arrived(line, number, packet, said),
            None => {
                let request = around(self.alloc, b"packet ", number, b"")?;
                self.between(line, &request, said)
            }
        }
    }

    /// The packets are sent that a reply of this first word tells.
    #[tactic(auto, unfolding(crate::specs::Picture::sent))]
    fn sent(
        &mut self,
        line: usize,
        set_up: bool,
        from: Side,
        told: &[u8],
        said: &[u8],
    ) -> Result<(), Fault>
        ensures ok { OnOk result (sent line set_up from told.now said.now self.old
            ≡ Ok self.new) }
        ensures err { IfErr result (IsFaultOf (sent line set_up from told.now said.now self.old)) }
    {
        let words = parts(self.alloc, said, b' ')?;
        let [word, numbers @ ..] = words.as_slice() else {
            return Ok(());
        };
        if !is_word(word, told) {
            return Ok(());
        }
        self.packets
            .post_all(self.alloc, line, set_up, from, numbers)
    }

    /// The next packet is sent, and this was heard of it.
    #[tactic(auto, unfolding(crate::specs::Picture::heard_next))]
    fn heard_next(&mut self, line: usize, side: Side, said: &[u8]) -> Result<(), Memory>
        ensures { OnOk result (self.new ≡ heard_next line side said.now self.old) }
    {
        let number = self.packets.count() + 1;
        self.packets.post(side, false)?;
        self.heard(line, number, behind(b" ", said).unwrap_or(said))
    }

    /// The packets of a flow.
    fn flowed(&mut self, line: usize, side: Side, parts: &[&[u8]]) -> Result<(), Fault>
        ensures ok { OnOk result (flowed line side self.old (map (λ part. part.now) parts.now)
            ≡ Ok self.new) }
        ensures err { IfErr result (IsFaultOf (flowed line side self.old
            (map (λ part. part.now) parts.now))) }
    {
        let mut rest = parts;
        while let [part, more @ ..] = rest {
            let said = said_in(self.alloc, line, self.packets.count() + 2, part, more)?;
            self.heard_next(line, side, said)?;
            rest = more;
        }
        Ok(())
    }

    #[tactic(auto, unfolding(crate::specs::Picture::flow))]
    fn flow(&mut self, line: usize, side: Side, request: &[u8], said: &[u8]) -> Result<(), Fault>
        ensures ok { OnOk result (flow line side request.now said.now self.old ≡ Ok self.new) }
        ensures err { IfErr result (IsFaultOf (flow line side request.now said.now self.old)) }
    {
        let parts = parts(self.alloc, said, b':')?;
        let [part, more @ ..] = parts.as_slice() else {
            return Err(Fault::line(line));
        };
        let first = said_in(self.alloc, line, self.packets.count() + 1, part, more)?;
        self.note(line, side, request, first)?;
        self.flowed(line, side, more)
    }

    /// This was said to a line.
    #[tactic(auto, unfolding(crate::specs::Picture::answered))]
    fn answered(
        &mut self,
        line: usize,
        asked: Asked,
        request: &[u8],
        said: &[u8],
    ) -> Result<(), Fault>
        ensures ok { OnOk result (answered line asked request.now said.now self.old
            ≡ Ok self.new) }
        ensures err { IfErr result
            (IsFaultOf (answered line asked request.now said.now self.old)) }
    {
        match asked {
            Asked::Connect(side) => {
                self.sent(line, true, side, b"connected", said)?;
                self.between(line, request, said)?;
            }
            Asked::Disconnect => self.between(line, request, said)?,
            Asked::Pump(side) => {
                self.sent(line, false, side, b"pumped", said)?;
                self.note(line, side, request, said)?;
            }
            Asked::Flow(side) => self.flow(line, side, request, said)?,
            Asked::Packet(number) => self.heard(line, number, said)?,
            Asked::At(side) => self.note(line, side, request, said)?,
        }
        Ok(())
    }

    /// Draws a line of a script and its reply.
    #[tactic(auto, unfolding(crate::specs::Picture::drawn))]
    pub fn draw(&mut self, number: usize, line: &[u8], reply: &[u8]) -> Result<(), Fault>
        ensures ok { OnOk result (drawn number line.now reply.now self.old ≡ Ok self.new) }
        ensures err { IfErr result (IsFaultOf (drawn number line.now reply.now self.old)) }
    {
        let said = said_to(self.alloc, number, reply)?;
        let words = parts(self.alloc, line, b' ')?;
        let Some(asked) = asked_of(&words) else {
            return Err(Fault::line(number));
        };
        let request = request_of(self.alloc, &words)?;
        self.answered(number, asked, &request, said)
    }
}
