//! What a packet that goes has by its types. Each function only says it.
ghost use Rattle.std.specs.Prelude.{IfSome};
ghost use Rattle.mqb_heads.specs.Values.{IsTxHead};
ghost use Rattle.mqb_packet.specs.Plain.{carried_user};
ghost use Rattle.mqb_packet.specs.Values.{IsUserPacket};
ghost use Rattle.mqb_setup.specs.Widths.{IsSessionHead};

use crate::set_up_values::head_fits;
use mqb_base::{Message, SessionHead, TxHead};
use mqb_heads::message_fits;
use mqb_names::{guid_fits, word_fits};
use mqb_packet::Carriage;

fn tx_fits_if(tx: &Option<TxHead>)
    ensures { IfSome tx.now IsTxHead }
{
    if let Some(head) = tx {
        word_fits(head.sequence.ordinal);
        word_fits(head.sequence.stamp);
        word_fits(head.number);
        word_fits(head.previous);
    }
}

fn head_fits_if(head: &Option<SessionHead>)
    ensures { IfSome head.now IsSessionHead }
{
    if let Some(head) = head {
        head_fits(head);
    }
}

/// The packet of a message.
pub(crate) fn packet_fits(message: &Message, carriage: &Carriage)
    ensures { IsUserPacket (carried_user message.now carriage.now) }
{
    message_fits(message);
    guid_fits(&carriage.to);
    word_fits(carriage.remaining);
    tx_fits_if(&carriage.tx);
    head_fits_if(&carriage.session);
}
