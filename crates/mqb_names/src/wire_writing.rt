ghost use Rattle.std.specs.Prelude.{◌≡◌, ◌≤◌, ◌+◌, ◌*◌, IsTrue, length};
ghost use Rattle.mqb_base.specs.QueueNames.{names_queue};
ghost use Rattle.mqb_fields.specs.Writing.{put_at};
ghost use Rattle.mqb_names.specs.Printed.{printed_direct};
ghost use Rattle.mqb_names.specs.Wire.{direct_wire, units, wire};

use crate::printed_lengths::direct_len;
use crate::texts;
use crate::wire::MAX_DIRECT_UNITS;
use mqb_base::{Host, Name, QueueName};
use mqb_fields::{put_guid, put_u16, put_u32};

/// Writes the units of a text at a place.
fn put_units(to: &mut [u8], at: usize, text: &[u8])
    requires { at + 2 * length text.now ≤ length to.old }
    ensures { to.new ≡ put_at to.old at (units text.now) }
{
    let mut end = at;
    for byte in text {
        put_u16(to, end, u16::from(*byte));
        end += 2;
    }
}

/// Writes the count of a direct name's units, and the units.
fn put_direct(host: &Host, queue: &Name, to: &mut [u8])
    requires { length to.old ≡ length (direct_wire (printed_direct host.now queue.now)) }
    ensures { to.new ≡ direct_wire (printed_direct host.now queue.now) }
{
    let mut text = [0; MAX_DIRECT_UNITS];
    let len = direct_len(host, queue);
    texts::put_direct(&mut text, 0, host, queue);
    put_u16(to, 0, len as u16);
    put_units(to, 2, &text[..len]);
}

/// The length of the wire form of a name, which is neither a machine's queue nor a journal.
#[tactic(auto, using(crate::specs::lemmas::Units::length_units))]
pub fn wire_len(name: &QueueName) -> u32
    requires { IsTrue (names_queue name.now) }
    ensures { result ≡ length (wire name.now) }
{
    match name {
        QueueName::Public { .. } => 16,
        QueueName::Private { .. } => 20,
        QueueName::Direct { host, queue, .. } => 2 + 2 * direct_len(host, queue) as u32,
        QueueName::Machine { .. } => unreachable!(),
    }
}

/// Writes the wire form of a name, which is neither a machine's queue nor a journal.
pub fn put_wire_name(name: &QueueName, to: &mut [u8])
    requires queue { IsTrue (names_queue name.now) }
    requires room { length to.old ≡ length (wire name.now) }
    ensures { to.new ≡ wire name.now }
{
    match name {
        QueueName::Public { guid, .. } => put_guid(to, 0, &guid.0),
        QueueName::Private { qm, number, .. } => {
            put_guid(to, 0, &qm.0);
            put_u32(to, 16, *number);
        }
        QueueName::Direct { host, queue, .. } => put_direct(host, queue, to),
        QueueName::Machine { .. } => unreachable!(),
    }
}
