ghost use Rattle.std.specs.Prelude.{◌≡◌, ◌<◌, ◌≤◌, ◌↔◌, ℕ, All, List, Ok, Some, false, length};
ghost use Rattle.mqb_base.specs.declared.queue_names.Host.{Host};
ghost use Rattle.mqb_base.specs.declared.queue_names.QueueName.TheVariants.{Direct};
ghost use Rattle.mqb_heads.specs.mqb_names.Values.{IsHost, IsName};
ghost use Rattle.mqb_heads.specs.mqb_names.Wire.{length_at, spelled};
ghost use Rattle.mqb_heads.specs.declared.base.TheConstants.{MAX_PACKET};
ghost use Rattle.mqb_packet.specs.declared.packet.Packet.TheVariants as packet;
ghost use Rattle.mqb_packet.specs.declared.packet.UserPacket.{UserPacket};
ghost use Rattle.mqb_packet.specs.Parts.{PacketParts, packet_of};
ghost use Rattle.mqb_packet.specs.Plain.{IsWellFormedUser, packet_size};
ghost use Rattle.mqb_packet.specs.Values.{IsUserPacket};
ghost use Rattle.mqb_packet.specs.DirectNames.{IsDirectWire};
ghost use Rattle.mqb_packet.specs.Grammar.{IsPacketForm};
ghost use Rattle.mqb_packet.specs.ReadPackets.{IsReadOf};

/// Bytes are read as a packet exactly where they spell it: the headers in order, each with its
/// fields in order, and no byte more.
pub fn packet_is_read()
    ensures { (bytes : List ℕ) (parts : PacketParts) → (packet_of bytes ≡ Ok parts) ↔
        IsPacketForm parts bytes }
{}

/// Bytes are the wire form of a direct name exactly where their units are a text of it, its
/// words in either case.
pub fn direct_name_is_read()
    ensures { (host : Host) (queue bytes : List ℕ) → IsHost host → IsName queue →
        All (λ b. b < 256) bytes →
        ((length_at 3 bytes ≡ Ok (length bytes))
        × (spelled 3 bytes ≡ Some (Direct host queue false))) ↔ IsDirectWire host queue bytes }
{}

/// A user packet that was read can be written: its numbers fit their types, its names are
/// names, and its plain spelling is not longer than what was read, in which bytes that are kept
/// for a body may follow it.
pub fn read_is_written()
    ensures well_formed { (bytes : List ℕ) (user : UserPacket) → IsReadOf bytes user →
        IsWellFormedUser user }
    ensures values { (bytes : List ℕ) (user : UserPacket) → IsReadOf bytes user →
        IsUserPacket user }
    ensures size { (bytes : List ℕ) (user : UserPacket) → IsReadOf bytes user →
        packet_size (packet.User user) ≤ length bytes }
    ensures fits { (bytes : List ℕ) (user : UserPacket) → IsReadOf bytes user →
        length bytes ≤ MAX_PACKET }
{}
