ghost use Rattle.std.specs.Prelude.{◌≡◌, ◌≤◌, ℕ, List, IsSome, Ok, length};
ghost use Rattle.mqb_heads.specs.declared.base.TheConstants.{MAX_PACKET};
ghost use Rattle.mqb_packet.specs.declared.packet.Packet.{Packet};
ghost use Rattle.mqb_packet.specs.Parts.{PacketParts, packet_of};
ghost use Rattle.mqb_packet.specs.Plain.{IsWellFormedPacket, packet_size, parts_of, plain_spelling};
ghost use Rattle.mqb_packet.specs.Spelled.{Spells, packet_in};
ghost use Rattle.mqb_packet.specs.Values.{IsPacket};

/// What is written for a packet is read as what that packet says, and spells that packet.
pub fn plain_is_read()
    ensures read { (packet : Packet) → IsWellFormedPacket packet → IsPacket packet →
        packet_size packet ≤ MAX_PACKET →
        packet_of (plain_spelling packet) ≡ Ok (parts_of packet) }
    ensures spells { (packet : Packet) → IsWellFormedPacket packet → IsPacket packet →
        packet_size packet ≤ MAX_PACKET →
        Spells packet (plain_spelling packet) }
{}

/// How long the plain spelling of a packet is.
pub fn plain_size()
    ensures { (packet : Packet) → length (plain_spelling packet) ≡ packet_size packet }
{}

/// A list of bytes spells at most one packet.
pub fn one_packet_is_spelled()
    ensures { (a b : Packet) (bytes : List ℕ) → Spells a bytes → Spells b bytes → a ≡ b }
{}

/// Bytes that are read as a packet spell one, and it may be written.
pub fn each_view_spells_a_packet()
    ensures { (bytes : List ℕ) (parts : PacketParts) → packet_of bytes ≡ Ok parts →
        (packet : Packet) × Spells packet bytes × IsWellFormedPacket packet }
{}
