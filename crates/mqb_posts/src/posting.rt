ghost use Rattle.std.specs.Prelude.{[], ◌++◌, ◌∷◌, ◌≡◌, ◌<◌, ℕ, List, flat_map, length, map};
ghost use Rattle.mqb_packet.specs.Plain.{plain_spelling};
ghost use Rattle.mqb_packet.specs.declared.packet.Packet.{Packet};
ghost use Rattle.mqb_posts.specs.Packets.{AreWritable, BeginWithPacket, IsWritable, SpellPackets};
ghost use Rattle.mqb_posts.specs.Posting.{IsWithin, PostedBy};

use crate::faults::PostFault;
use mqb_heads::read_base;
use mqb_outside::Medium;

/// The greatest sum of the lengths of a medium's strings.
pub const MAX_MEDIUM: u64 = 268_435_456;

/// Adds one string.
fn post<M: Medium>(bytes: &[u8], medium: &mut M) -> Result<(), PostFault>
    requires within { IsWithin (M.strings medium.old) }
    requires some { 0 < length bytes.now }
    ensures { PostedBy (M.strings medium.old) (M.strings medium.new) (bytes.now ∷ []) result }
{
    if medium.bytes() + bytes.len() as u64 > MAX_MEDIUM {
        return Err(PostFault::NetFull);
    }
    medium.add(bytes)?;
    Ok(())
}

/// How long the packet is with which bytes begin.
fn first_size(bytes: &[u8]) -> usize
    requires { BeginWithPacket bytes.now }
    ensures { (p : Packet) (rest : List ℕ) → IsWritable p →
        bytes.now ≡ plain_spelling p ++ rest → result ≡ length (plain_spelling p) }
{
    match read_base(bytes) {
        Ok(base) => base.size as usize,
        Err(_) => unreachable!(),
    }
}

/// Adds packets, whose bytes stand one behind the other, each as a string of its own.
///
/// # Errors
/// `NetFull` where the next one would pass the limit, `Memory`: those before it were added.
pub fn post_packets<M: Medium>(bytes: &[u8], medium: &mut M) -> Result<(), PostFault>
    requires within { IsWithin (M.strings medium.old) }
    requires packets { SpellPackets bytes.now }
    ensures { (packets : List Packet) → AreWritable packets →
        bytes.now ≡ flat_map plain_spelling packets →
        PostedBy (M.strings medium.old) (M.strings medium.new) (map plain_spelling packets) result }
{
    let mut at: usize = 0;
    while at < bytes.len() {
        let size = first_size(&bytes[at..]);
        if let Err(fault) = post(&bytes[at..at + size], medium) {
            return Err(fault);
        }
        at += size;
    }
    Ok(())
}
