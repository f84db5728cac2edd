ghost use Rattle.std.specs.Prelude.{◌≡◌, IfOk};

use crate::bytes::{put, put_value};
use crate::packets::user_packet;
use crate::sessions::{ALPHA, BETA};
use crate::values::{class_of, number};
use mqb_base::{
    Class, Guid, Identity, Memory, Message, MessageId, Name, QueueName, SequenceId, TxHead,
};
use mqb_fate::{
    OrderAck, admin_for, final_for, goes_dead, names_order_layer, order_acknowledgement,
};
use mqb_orders::{InRow, judge};
use std::alloc::Global;

/// The transaction header of the numbers `ORDINAL STAMP NUMBER PREVIOUS`.
fn tx_head(text: &str) -> TxHead {
    let mut words = text.split_whitespace();
    TxHead {
        sequence: SequenceId {
            ordinal: number(words.next()),
            stamp: number(words.next()),
        },
        number: number(words.next()),
        previous: number(words.next()),
    }
}

/// The incoming row whose last decided packet has a header.
fn in_row(last: &TxHead) -> InRow {
    InRow {
        source: ALPHA,
        destination: QueueName::Public {
            guid: BETA,
            journal: false,
        },
        sequence: last.sequence,
        last: last.number,
    }
}

/// `judge ORDINAL STAMP NUMBER PREVIOUS; ORDINAL STAMP LAST`: the verdict on a packet by the
/// incoming row of a sequence and its last number, or with nothing behind the packet by no row.
pub(crate) fn show_verdict(alloc: Global, text: &str, out: &mut Vec<u8>) -> Result<(), Memory> {
    match text.split_once("; ") {
        Some((packet, row)) => {
            let row = in_row(&tx_head(row));
            put_value(alloc, &judge(Some(&row), &tx_head(packet)), out)
        }
        None => put_value(alloc, &judge(None, &tx_head(text)), out),
    }
}

/// The name of the host alpha.
fn alpha(alloc: Global) -> Result<Name, Memory> {
    Name::new(alloc, b"alpha").map_err(|_| Memory)
}

/// Adds an order acknowledgement for alpha, as beta's message.
fn put_acknowledgement(alloc: Global, ack: OrderAck, out: &mut Vec<u8>) -> Result<(), Memory> {
    let id = MessageId {
        qm: BETA,
        number: 0x8000_0000,
    };
    let message = order_acknowledgement(alloc, ack, &alpha(alloc)?, id, 1001)?;
    put_value(alloc, &message, out)
}

/// `acked BYTES`: what the body of an order acknowledgement says, and the order
/// acknowledgement that says so.
pub(crate) fn show_acked(alloc: Global, bytes: &[u8], out: &mut Vec<u8>) -> Result<(), Memory> {
    match OrderAck::read(bytes) {
        Some(ack) => {
            put_value(alloc, &ack, out)?;
            put_acknowledgement(alloc, ack, out)
        }
        None => put(b"no order acknowledgement", out),
    }
}

/// The manager of a GUID, at the host alpha.
fn manager(alloc: Global, guid: Guid) -> Result<Identity, Memory>
    ensures { IfOk result (λ manager. manager.guid ≡ guid) }
{
    Ok(Identity {
        host: alpha(alloc)?,
        guid,
        address: [10, 0, 0, 1],
    })
}

/// Adds the administration message that a message asks for where it meets a class at a manager.
fn put_admin(
    alloc: Global,
    message: &Message,
    class: Class,
    own: Guid,
    out: &mut Vec<u8>,
) -> Result<(), Memory> {
    match admin_for(alloc, message, class, own, 9, 1002) {
        Ok(admin) => put_value(alloc, &admin, out),
        Err(memory) => Err(memory),
    }
}

/// Adds the final acknowledgement that is due to the source of a message where it meets
/// a class at a manager.
fn put_final(
    alloc: Global,
    message: &Message,
    class: Class,
    own: &Identity,
    source: &Identity,
    out: &mut Vec<u8>,
) -> Result<(), Memory>
    requires { source.now.guid ≡ message.now.id.qm }
{
    match final_for(alloc, message, class, own, source, 1, 1001) {
        Ok(told) => put_value(alloc, &told, out),
        Err(memory) => Err(memory),
    }
}

/// Adds the dead-letter queue into which a message goes that meets a class at a manager, whether it
/// was sent to an order layer, the administration message and the final acknowledgement.
fn put_fate(
    alloc: Global,
    message: &Message,
    class: Class,
    own: Guid,
    out: &mut Vec<u8>,
) -> Result<(), Memory> {
    put_value(alloc, &goes_dead(message, class, own), out)?;
    put_value(alloc, &names_order_layer(&message.destination), out)?;
    put_admin(alloc, message, class, own, out)?;
    let own = manager(alloc, own)?;
    let source = manager(alloc, message.id.qm)?;
    put_final(alloc, message, class, &own, &source, out)
}

/// `fate CLASS BYTES`: what follows where the manager to which a user packet goes meets a
/// class with its message.
pub(crate) fn show_fate(alloc: Global, bytes: &[u8], out: &mut Vec<u8>) -> Result<(), Memory> {
    match user_packet(alloc, bytes.get(2..).unwrap_or_default())? {
        Some(user) => put_fate(alloc, &user.message, class_of(bytes), user.to, out),
        None => put(b"no user packet", out),
    }
}
