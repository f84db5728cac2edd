ghost use Rattle.std.specs.Prelude.{◌≡◌, ◌≤◌, List, length, map};
ghost use Rattle.mqb_packet.specs.Parts.{seen_packet};
ghost use Rattle.mqb_packet.specs.Plain.{plain_spelling};
ghost use Rattle.mqb_packet.specs.Spelled.{IsLent, packet_in};
ghost use Rattle.mqb_packet.specs.declared.packet.Packet.{Packet};
ghost use Rattle.mqb_posts.specs.Packets.{ArePackets, AreWritable};
ghost use Rattle.mqb_queue.specs.Places.{numbered};

use mqb_outside::Medium;
use mqb_packet::{PacketView, view};

/// The packet of a number, from 1, on a medium that has packets alone.
pub fn packet_at<M: Medium>(medium: &M, k: u32) -> PacketView<'_>
    requires first { 1 ≤ k }
    requires last { k ≤ length (M.strings medium.now) }
    requires packets { ArePackets (M.strings medium.now) }
    ensures lent { IsLent result }
    ensures packet { (packets : List Packet) → AreWritable packets →
        M.strings medium.now ≡ map plain_spelling packets →
        packet_in (seen_packet result) ≡ numbered packets k }
{
    match view(medium.packet(k)) {
        Ok(packet) => packet,
        Err(_) => unreachable!(),
    }
}
