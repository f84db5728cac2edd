//! What holds of each message that a program has, and of its identifiers, by their types. Each
//! function only says it.
ghost use Rattle.mqb_heads.specs.Values.{IsMessage, IsMessageId};

use mqb_base::{Message, MessageId};
use mqb_names::{guid_fits, queue_fits, queue_fits_if, units_fit, word_fits};

/// The GUID and the number of a message's identifier are within their widths.
pub fn id_fits(id: &MessageId)
    ensures { IsMessageId id.now }
{
    let _number = id.number;
    guid_fits(&id.qm);
}

/// The numbers of a message are within their widths, and its names are names.
pub fn message_fits(message: &Message)
    ensures { IsMessage message.now }
{
    let _class = message.class.0;
    word_fits(message.sent);
    word_fits(message.life);
    word_fits(message.body_type);
    word_fits(message.tag);
    id_fits(&message.id);
    id_fits(&message.correlation);
    queue_fits(&message.destination);
    queue_fits_if(&message.admin);
    queue_fits_if(&message.response);
    units_fit(message.label.as_slice());
}
