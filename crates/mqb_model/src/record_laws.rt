ghost use Rattle.std.specs.Prelude.{◌≡◌, Some};
ghost use Rattle.mqb_entries.specs.Packets.{CanTell, packet_of, told};
ghost use Rattle.mqb_model.specs.Reading.{EntriesAreRead, PacketsAreRead};
ghost use Rattle.mqb_model.specs.records.Carrying.{IsRecorded};
ghost use Rattle.mqb_model.specs.records.Reading.{user_packet_of};

use mqb_base::{Guid, Message};
use mqb_heads::message_fits;
use mqb_names::{guid_fits, word_fits};
use mqb_packet::{plain_is_read, read_is_written};

/// The message of a user packet that bytes spell can be carried in a packet
/// without further headers.
pub fn packets_are_read()
    ensures { PacketsAreRead }
{
    read_is_written();
}

/// The record that an entry is was read.
pub fn entries_are_read()
    ensures { EntriesAreRead }
{}

/// The packet that tells of a message is read as it, and the message can be carried.
pub fn told_is_read(message: &Message, to: &Guid)
    requires { CanTell message.now }
    ensures read { user_packet_of (told message.now to.now) ≡ Some (packet_of message.now to.now) }
    ensures recorded { IsRecorded message.now }
{
    message_fits(message);
    guid_fits(to);
    word_fits(message.reach);
    plain_is_read();
}
