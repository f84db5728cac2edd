ghost use Rattle.std.specs.Prelude.{◌≡◌, ◌+◌, ◌-◌, ◌≤◌, ◌<◌, ◌^◌, [], length, map, slice_set, Ok};
ghost use Rattle.std.specs.Prelude.{IfSome, OnOk, OnErr, IfErr};
ghost use Rattle.mqb_picture.specs.Faults.{IsFaultOf};
ghost use Rattle.mqb_picture.specs.Fates.{post, posted_one, next_sender, posted, packet_at};
ghost use Rattle.mqb_picture.specs.Fates.{any_heard, is_unheard, fate_of, after};

use crate::faults::Fault;
use crate::words::{around, is_word};
use mqb_base::Memory;
use mqb_svg::{Fate, Side};
use std::alloc::Global;
use std::marker::Model;

/// A packet that was sent.
#[derive(Clone, Copy)]
pub struct Packet {
    pub from: Side,
    /// Whether it was heard at least once.
    pub heard: bool,
}

/// The packets that were sent, the one of number 1 first. Contracts see the list.
#[derive(Drop)]
pub struct Packets {
    items: Vec<Packet>,
}

impl Model for Packets {
    ghost use Rattle.std.specs.Prelude.{List};
    ghost use Rattle.mqb_picture.specs.declared.packets.Packet.{Packet};

    ghost Value = { List Packet };

    ghost view = { λ p. p.items.items };
}

/// Whether an answer that begins with this word says that a packet did not come.
#[tactic(auto, unfolding(crate::specs::Fates::is_unheard))]
fn is_unheard(word: &[u8]) -> bool
    ensures { result ≡ is_unheard word.now }
{
    is_word(word, b"dropped")
        || is_word(word, b"gone")
        || is_word(word, b"none")
        || is_word(word, b"down")
}

/// In a set-up the managers send in turn.
fn next_sender(set_up: bool, from: Side) -> Side
    ensures { result ≡ next_sender set_up from }
{
    if set_up { from.other() } else { from }
}

fn any_heard(from: Side, packets: &[Packet]) -> bool
    ensures { result ≡ any_heard from packets.now }
{
    packets
        .iter()
        .any(|packet| packet.heard && packet.from.is(from))
}

impl Packets {
    pub fn new(alloc: Global) -> Packets
        ensures { result ≡ [] }
    {
        Packets {
            items: Vec::new(alloc),
        }
    }

    pub fn count(&self) -> usize
        ensures count { result ≡ length self.now }
        ensures few { result < 2 ^ 63 }
    {
        self.items.len()
    }

    /// One packet more is sent.
    pub fn post(&mut self, from: Side, heard: bool) -> Result<(), Memory>
        ensures ok { OnOk result (self.new ≡ post from heard self.old) }
        ensures err { OnErr result (self.new ≡ self.old) }
    {
        self.items.push(Packet { from, heard })?;
        Ok(())
    }

    /// A packet is sent, whose number a word is.
    #[tactic(auto, unfolding(crate::specs::Fates::posted_one))]
    fn post_one(
        &mut self,
        alloc: Global,
        line: usize,
        set_up: bool,
        from: Side,
        word: &[u8],
    ) -> Result<(), Fault>
        ensures ok { OnOk result (posted_one line set_up from self.old word.now ≡ Ok self.new) }
        ensures err { IfErr result (IsFaultOf (posted_one line set_up from self.old word.now)) }
    {
        if !is_word(word, &around(alloc, b"", self.count() + 1, b"")?) {
            return Err(Fault::line(line));
        }
        self.post(from, set_up)?;
        Ok(())
    }

    /// Packets are sent, whose numbers words of a line are. Those of a set-up are heard at once,
    /// and the managers send them in turn.
    pub fn post_all(
        &mut self,
        alloc: Global,
        line: usize,
        set_up: bool,
        from: Side,
        words: &[&[u8]],
    ) -> Result<(), Fault>
        ensures ok { OnOk result (posted line set_up from self.old
            (map (λ word. word.now) words.now) ≡ Ok self.new) }
        ensures err { IfErr result (IsFaultOf (posted line set_up from self.old
            (map (λ word. word.now) words.now))) }
    {
        let mut sender = from;
        for word in words {
            self.post_one(alloc, line, set_up, sender, word)?;
            sender = next_sender(set_up, sender);
        }
        Ok(())
    }

    /// Packet `number`, where it was sent.
    #[tactic(auto, unfolding(crate::specs::Fates::packet_at))]
    pub fn get(&self, number: usize) -> Option<Packet>
        ensures packet { result ≡ packet_at number self.now }
        ensures first { IfSome result (λ _. 1 ≤ number) }
        ensures last { IfSome result (λ _. number ≤ length self.now) }
    {
        if number == 0 {
            return None;
        }
        self.items.get(number - 1).copied()
    }

    /// What becomes of a packet that was sent, of which an answer that begins with this word tells.
    #[tactic(auto, unfolding(crate::specs::Fates::fate_of))]
    pub fn fate(&self, number: usize, packet: Packet, word: &[u8]) -> Fate
        requires { number ≤ length self.now }
        ensures { result ≡ fate_of number packet self.now word.now }
    {
        let (_, later) = self.items.split_at(number);
        if is_unheard(word) {
            Fate::Lost
        } else if packet.heard {
            Fate::Repeated
        } else if any_heard(packet.from, later) {
            Fate::Late
        } else {
            Fate::Came
        }
    }

    /// What became of a packet is kept.
    pub fn settle(&mut self, fate: Fate, number: usize, packet: Packet)
        requires first { 1 ≤ number }
        requires last { number ≤ length self.old }
        ensures { self.new ≡ after fate number packet self.old }
    {
        match fate {
            Fate::Lost => {}
            Fate::Came | Fate::Repeated | Fate::Late => {
                self.items[number - 1] = Packet {
                    from: packet.from,
                    heard: true,
                };
            }
        }
    }
}
