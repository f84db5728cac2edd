ghost use Rattle.std.specs.Prelude.{◌≡◌, ◌+◌, ◌^◌, ◌<◌, ◌≤◌, length};
ghost use Rattle.mqb_heads.specs.declared.base.TheConstants.{MAX_PACKET};

use crate::bytes::{bytes_of, put, put_digits, put_fault, put_read, put_value};
use mqb_base::Memory;
use mqb_packet::MAX_PACKET;
use mqb_stream::{Framer, Next};
use std::alloc::Global;

/// Adds what is next.
fn put_next(alloc: Global, framer: &Framer, out: &mut Vec<u8>) -> Result<(), Memory> {
    match framer.next() {
        Next::Packet(packet) => {
            put(b"packet ", out)?;
            put_digits(packet, out)?;
            put(b" ", out)
        }
        Next::Bad { fault, place } => {
            put_value(alloc, &place, out)?;
            put_fault(alloc, &fault, out)
        }
        Next::More { need } => {
            put(b"more ", out)?;
            put_value(alloc, &need, out)
        }
    }
}

/// The limit that a word says, between the least packet and the greatest.
fn limit_of(word: &str) -> u32
    ensures least { 20 ≤ result }
    ensures most { result ≤ MAX_PACKET }
{
    word.parse::<u32>().unwrap_or(0).clamp(20, MAX_PACKET)
}

/// `frame LIMIT BYTES`: how many bytes a framer takes, what is next, and whether it takes one more.
pub(crate) fn show_frame(alloc: Global, text: &str, out: &mut Vec<u8>) -> Result<(), Memory> {
    let (limit, digits) = text.split_once(' ').unwrap_or((text, ""));
    let bytes = bytes_of(alloc, digits)?;
    let mut framer = Framer::new(alloc, limit_of(limit))?;
    put_read(alloc, &framer.feed(bytes.as_slice()), out)?;
    put_next(alloc, &framer, out)?;
    put_read(alloc, &framer.feed(&[0]), out)
}

/// Feeds bytes one at a time until one is not taken, and tells how many were taken.
fn feed_each(framer: &mut Framer, bytes: &[u8]) -> usize
    requires { framer.old.place + (length framer.old.held + length bytes.now) < 2 ^ 64 }
{
    let mut taken = 0;
    for byte in bytes {
        if framer.feed(&[*byte]).is_err() {
            return taken;
        }
        taken += 1;
    }
    taken
}

/// `each LIMIT BYTES`: how many bytes a framer takes one by one, what is next, and how many it
/// holds once that is dropped.
pub(crate) fn show_each(alloc: Global, text: &str, out: &mut Vec<u8>) -> Result<(), Memory> {
    let (limit, digits) = text.split_once(' ').unwrap_or((text, ""));
    let bytes = bytes_of(alloc, digits)?;
    let mut framer = Framer::new(alloc, limit_of(limit))?;
    let taken = feed_each(&mut framer, bytes.as_slice());
    put_value(alloc, &taken, out)?;
    put_next(alloc, &framer, out)?;
    if let Next::Packet(_) = framer.next() {
        framer.advance();
    }
    put_value(alloc, &framer.held(), out)
}
