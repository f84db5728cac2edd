ghost use Rattle.std.specs.Prelude.{◌≡◌, ◌+◌, ◌-◌, ◌<◌, ◌≤◌, ◌^◌, [], ◌++◌, take, drop, length};
ghost use Rattle.std.specs.Prelude.{vec_len, vec_capacity, IfOk, IsTrue, OnOk, OnErr};
ghost use Rattle.mqb_stream.specs.Cutting.{packet_size};
ghost use Rattle.mqb_stream.specs.Framing.{advanced, answer_of, fed, is_whole, next, packet_end};
ghost use Rattle.mqb_stream.specs.Framing.{taken_of, wants_more};

use mqb_base::Memory;
use mqb_fields::HeadFault;
use mqb_heads::{MAX_PACKET, MIN_PACKET, read_base};
use std::alloc::Global;
use std::marker::Model;
use thiserror::Error;

/// The bytes of a base header.
const HEAD: usize = 16;

/// A whole packet or a bad base header waits, so that no byte was taken.
#[derive(Clone, Copy, Debug, PartialEq, Eq, Error)]
#[error("a packet waits")]
pub struct Full;

/// What is to be done: a whole packet waits, a base header is bad, or more bytes are wanted.
/// `place` is the packet's first byte in the stream. `need` is what the base header wants, and
/// after it what the packet wants.
#[derive(Clone, Copy, Debug)]
pub enum Next<'a> {
    Packet(&'a [u8]),
    Bad { fault: HeadFault, place: u64 },
    More { need: u32 },
}

/// Cuts a stream into packets of at most `limit` bytes. Contracts see the limit, the room of its
/// buffer in bytes, the place of the present packet in the stream, and what was taken of it.
#[derive(Debug, Drop)]
pub struct Framer {
    buffer: Vec<u8>,
    limit: u32,
    place: u64,
}

impl Model for Framer {
    ghost use Rattle.std.specs.Prelude.{vec_capacity};
    ghost use Rattle.mqb_stream.specs.Framing.{Framing, IsFramer};

    ghost Value = { Framing };

    ghost view = { λ f. record {
      limit = f.limit;
      room = vec_capacity f.buffer;
      place = f.place;
      held = f.buffer.items;
    } };

    ghost invariant = { λ f. IsFramer f.limit f.place f.buffer.items (vec_capacity f.buffer) };
}

/// The size of the packet whose first bytes are held.
#[tactic(auto, unfolding(crate::specs::Cutting::packet_size))]
fn packet_size(limit: u32, held: &[u8]) -> Result<u32, HeadFault>
    requires { 16 ≤ length held.now }
    ensures { result ≡ packet_size limit held.now }
{
    let head = read_base(&held[..HEAD])?;
    if head.size > limit {
        return Err(HeadFault::PAST_END);
    }
    Ok(head.size)
}

/// Appends bytes for which there is room.
fn append(buffer: &mut Vec<u8>, bytes: &[u8])
    requires { vec_len buffer.old + length bytes.now ≤ vec_capacity buffer.old }
    ensures bytes { buffer.new.items ≡ buffer.old.items ++ bytes.now }
    ensures room { vec_capacity buffer.new ≡ vec_capacity buffer.old }
{
    for byte in bytes {
        buffer.push_reserved(*byte);
    }
}

/// Takes bytes until so many are held, and tells how many it took.
fn fill(buffer: &mut Vec<u8>, bytes: &[u8], len: usize) -> usize
    requires held { vec_len buffer.old ≤ len }
    requires room { len ≤ vec_capacity buffer.old }
    ensures held { buffer.new.items ≡ take len (buffer.old.items ++ bytes.now) }
    ensures rest { buffer.new.items ++ drop result bytes.now ≡ buffer.old.items ++ bytes.now }
    ensures taken { vec_len buffer.new ≡ vec_len buffer.old + result }
    ensures within { result ≤ length bytes.now }
    ensures most { vec_len buffer.new ≤ len }
    ensures all { vec_len buffer.new < len → result ≡ length bytes.now }
    ensures room { vec_capacity buffer.new ≡ vec_capacity buffer.old }
{
    let count = bytes.len().min(len - buffer.len());
    append(buffer, &bytes[..count]);
    count
}

/// Takes bytes until a base header is held, and tells how many it took.
fn fill_head(buffer: &mut Vec<u8>, bytes: &[u8]) -> usize
    requires { 16 ≤ vec_capacity buffer.old }
    ensures rest { buffer.new.items ++ drop result bytes.now ≡ buffer.old.items ++ bytes.now }
    ensures taken { vec_len buffer.new ≡ vec_len buffer.old + result }
    ensures within { result ≤ length bytes.now }
    ensures all { vec_len buffer.new < 16 → result ≡ length bytes.now }
    ensures short { vec_len buffer.old < 16 → vec_len buffer.new ≤ 16 }
    ensures long { 16 ≤ vec_len buffer.old → buffer.new.items ≡ buffer.old.items }
    ensures room { vec_capacity buffer.new ≡ vec_capacity buffer.old }
{
    if buffer.len() < HEAD {
        return fill(buffer, bytes, HEAD);
    }
    0
}

/// How many bytes the packet has whose first ones are held, or its base header.
#[tactic(auto, unfolding(crate::specs::Framing::packet_end))]
fn packet_end(limit: u32, held: &[u8]) -> usize
    ensures { result ≡ packet_end limit held.now }
{
    if held.len() < HEAD {
        return HEAD;
    }
    match packet_size(limit, held) {
        Ok(size) => size as usize,
        Err(_) => HEAD,
    }
}

/// Takes what belongs to the packet whose first bytes are held, and tells how many bytes it took.
fn fill_packet(limit: u32, buffer: &mut Vec<u8>, bytes: &[u8]) -> usize
    requires least { MIN_PACKET ≤ limit }
    requires room { limit ≤ vec_capacity buffer.old }
    requires one_packet { length buffer.old.items ≤ packet_end limit buffer.old.items }
    ensures held { buffer.new.items ≡
        take (packet_end limit (buffer.old.items ++ bytes.now)) (buffer.old.items ++ bytes.now) }
    ensures one_packet { length buffer.new.items ≤ packet_end limit buffer.new.items }
    ensures taken { vec_len buffer.new ≡ vec_len buffer.old + result }
    ensures within { result ≤ length bytes.now }
    ensures room { vec_capacity buffer.new ≡ vec_capacity buffer.old }
{
    let begun = fill_head(buffer, bytes);
    let end = packet_end(limit, buffer.as_slice());
    let (_, rest) = bytes.split_at(begun);
    begun + fill(buffer, rest, end)
}

impl Framer {
    /// A framer of packets of at most `limit` bytes. Its buffer never grows.
    pub fn new(alloc: Global, limit: u32) -> Result<Framer, Memory>
        requires least { MIN_PACKET ≤ limit }
        requires most { limit ≤ MAX_PACKET }
        ensures { IfOk result (λ framer. framer ≡
            record { limit = limit; room = limit; place = 0; held = [] }) }
    {
        Ok(Framer {
            buffer: Vec::with_capacity(alloc, limit as usize)?,
            limit,
            place: 0,
        })
    }

    /// The count of bytes that are held.
    pub fn held(&self) -> u32
        ensures held { result ≡ length self.now.held }
        ensures bound { length self.now.held ≤ self.now.limit }
    {
        self.buffer.len() as u32
    }

    /// What is to be done.
    #[tactic(auto, unfolding(crate::specs::Framing::next))]
    pub fn next(&self) -> Next<'_>
        ensures { answer_of result ≡ next self.now }
    {
        let held = self.buffer.as_slice();
        if held.len() < HEAD {
            return Next::More {
                need: (HEAD - held.len()) as u32,
            };
        }
        match packet_size(self.limit, held) {
            Ok(size) if held.len() < size as usize => Next::More {
                need: size - held.len() as u32,
            },
            Ok(_) => Next::Packet(held),
            Err(fault) => Next::Bad {
                fault,
                place: self.place,
            },
        }
    }

    fn wants_more(&self) -> bool
        ensures { result ≡ wants_more (next self.now) }
    {
        matches!(self.next(), Next::More { .. })
    }

    /// Takes the bytes that belong to the present packet, and tells how many they are. The others
    /// belong to the next one.
    #[tactic(auto, unfolding(crate::specs::Framing::fed))]
    pub fn feed(&mut self, bytes: &[u8]) -> Result<usize, Full>
        requires { self.old.place + (length self.old.held + length bytes.now) < 2 ^ 64 }
        ensures answer { result ≡ taken_of self.old bytes.now }
        ensures fed { OnOk result (self.new ≡ fed self.old bytes.now) }
        ensures full { OnErr result (self.new ≡ self.old) }

        // What a caller who counts the bytes of the stream needs.
        ensures place { self.new.place ≡ self.old.place }
        ensures most { length self.new.held ≤ length self.old.held + length bytes.now }
    {
        if !self.wants_more() {
            return Err(Full);
        }
        Ok(fill_packet(self.limit, &mut self.buffer, bytes))
    }

    /// Drops the packet that waits.
    pub fn advance(&mut self)
        requires { IsTrue (is_whole (next self.old)) }
        ensures { self.new ≡ advanced self.old }
    {
        self.place += self.buffer.len() as u64;
        self.buffer.clear();
    }
}
