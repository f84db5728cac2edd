//! What came while a write waited, in order, until it is read.
ghost use Rattle.std.specs.Prelude.{◌≡◌, ◌+◌, ◌-◌, ◌<◌, ◌≤◌, ◌↔◌, ℕ, List, [], ◌++◌, drop, length};
ghost use Rattle.std.specs.Prelude.{min, take, vec_len, IsTrue};
ghost use Rattle.mqb_outside.specs.Told.{Reads};
ghost use Rattle.mqb_net.specs.declared.ahead.TheConstants.{MAX_AHEAD};
ghost use Rattle.std.specs.Option.{option_map};

use crate::socket::{SHORT_WAIT, Socket, Stop};
use std::alloc::Global;

/// How many bytes are asked for at once.
pub(crate) const CHUNK: usize = 65_536;

/// The most bytes that may come while a write waits: 64 packets of the greatest size, and what
/// is asked for at once.
pub const MAX_AHEAD: usize = 64 * 4_194_304 + CHUNK;

/// Why nothing was taken in.
#[derive(Clone, Copy, Debug, PartialEq)]
pub(crate) enum Refused {
    /// `MAX_AHEAD` bytes are there.
    Full,
    Memory,
    Stopped(Stop),
}

/// Bytes that came and were not read.
#[derive(Drop)]
pub(crate) struct Ahead {
    bytes: Vec<u8>,
    at: usize,
    ghost within: { at ≤ vec_len bytes },
    ghost most: { vec_len bytes - at ≤ MAX_AHEAD },
}

fn copy_front(from: &[u8], to: &mut [u8]) -> usize
    ensures count { result ≡ min (length from.now) (length to.old) }
    ensures front { take result to.new ≡ take result from.now }
{
    let n = from.len().min(to.len());
    to[..n].copy_from_slice(&from[..n]);
    n
}

// Hears a socket into what stands behind the first `len` bytes.
fn hear_into<S: Socket>(bytes: &mut Vec<u8>, len: usize, socket: &mut S) -> Result<usize, Stop>
    requires { len ≤ vec_len bytes.old }
    ensures reads { Reads (S.held socket.old) (S.held socket.new) (drop len bytes.old.items)
        (drop len bytes.new.items) result }
    ensures front { take len bytes.new.items ≡ take len bytes.old.items }
    ensures len { vec_len bytes.new ≡ vec_len bytes.old }
    ensures taken { S.taken socket.new ≡ S.taken socket.old }
{
    socket.hear(&mut bytes.as_mut_slice()[len..], SHORT_WAIT)
}

// Hears at most a chunk of a socket, behind the bytes that are there.
#[tactic(auto, using(crate::proofs::Pieces::nothing_before, crate::proofs::Pieces::heard_behind, crate::proofs::Pieces::nothing_behind))]
fn hear_behind<S: Socket>(bytes: &mut Vec<u8>, socket: &mut S) -> Result<usize, Refused>
    ensures front { take (vec_len bytes.old) bytes.new.items ≡ bytes.old.items }
    ensures least { vec_len bytes.old ≤ vec_len bytes.new }
    ensures most { vec_len bytes.new ≤ vec_len bytes.old + CHUNK }
    ensures gave { S.held socket.old
        ≡ option_map (λ rest. drop (vec_len bytes.old) bytes.new.items ++ rest)
        (S.held socket.new) }
    ensures taken { S.taken socket.new ≡ S.taken socket.old }
{
    let len = bytes.len();
    if bytes.resize(len + CHUNK, 0).is_err() {
        return Err(Refused::Memory);
    }
    match hear_into(bytes, len, socket) {
        Ok(n) => {
            bytes.truncate(len + n);
            Ok(n)
        }
        Err(stop) => {
            bytes.truncate(len);
            Err(Refused::Stopped(stop))
        }
    }
}

impl Ahead {
    ghost use Rattle.mqb_net.specs.TwoWays.{left_in};

    pub(crate) fn new(alloc: Global) -> Ahead
        ensures { left_in result ≡ [] }
    {
        Ahead {
            bytes: Vec::new(alloc),
            at: 0,
        }
    }

    /// Gives what came first, and says how much of it.
    #[tactic(auto, using(crate::proofs::Pieces::drop_is_take_drop))]
    pub(crate) fn give(&mut self, buf: &mut [u8]) -> usize
        ensures within { result ≤ length buf.old }
        ensures gave { left_in self.old ≡ take result buf.new ++ left_in self.new }
        ensures some { result ≡ 0 → 0 < length buf.old → left_in self.old ≡ [] }
    {
        let (_, rest) = self.bytes.split_at(self.at);
        let n = copy_front(rest, buf);
        self.at += n;
        n
    }

    // Lets go what was given, where that is as much as what is left.
    fn tidy(&mut self)
        ensures same { left_in self.new ≡ left_in self.old }
    {
        if self.at >= self.bytes.len() - self.at {
            self.bytes.drain(..self.at);
            self.at = 0;
        }
    }

    /// Takes in a piece of what a socket has, and says how much. What is taken from the socket
    /// stands behind what was there.
    pub(crate) fn take_in<S: Socket>(&mut self, socket: &mut S) -> Result<usize, Refused>
        ensures same { option_map (λ rest. left_in self.new ++ rest) (S.held socket.new)
            ≡ option_map (λ rest. left_in self.old ++ rest) (S.held socket.old) }
        ensures taken { S.taken socket.new ≡ S.taken socket.old }
    {
        self.tidy();
        if self.bytes.len() - self.at > MAX_AHEAD - CHUNK {
            return Err(Refused::Full);
        }
        hear_behind(&mut self.bytes, socket)
    }
}
