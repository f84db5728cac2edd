//! Each call writes at a place of a buffer, and tells where it ends.

ghost use Rattle.std.specs.Prelude.{◌≡◌, ◌≤◌, ◌<◌, ◌+◌, ◌*◌, ◌^◌, IsTrue, length, replicate};
ghost use Rattle.mqb_base.specs.QueueNames.{absent_or_queue, names_queue};
ghost use Rattle.mqb_fields.specs.Guids.{swapped};
ghost use Rattle.mqb_fields.specs.Writing.{Wrote, bytes_of};
ghost use Rattle.mqb_heads.specs.Fields.{kind_or_none, plain_id, wire_or_none};
ghost use Rattle.mqb_heads.specs.Properties.{label_bytes};
ghost use Rattle.mqb_names.specs.Wire.{kind_of, wire};

use mqb_base::{Guid, MessageId, QueueName};
use mqb_fields::{put_u16, put_u32};
use mqb_names::{put_wire_name, wire_len};

pub(crate) fn put_zeros(to: &mut [u8], at: usize, count: usize) -> usize
    requires { at + count ≤ length to.old }
    ensures { Wrote to.old at (replicate count 0) to.new result }
{
    let end = at + count;
    to[at..end].fill(0);
    end
}

pub(crate) fn put_half(to: &mut [u8], at: usize, number: u16) -> usize
    requires { at + 2 ≤ length to.old }
    ensures { Wrote to.old at (bytes_of 2 number) to.new result }
{
    put_u16(to, at, number);
    at + 2
}

pub(crate) fn put_word(to: &mut [u8], at: usize, number: u32) -> usize
    requires { at + 4 ≤ length to.old }
    ensures { Wrote to.old at (bytes_of 4 number) to.new result }
{
    put_u32(to, at, number);
    at + 4
}

pub(crate) fn put_guid(to: &mut [u8], at: usize, guid: &Guid) -> usize
    requires { at + 16 ≤ length to.old }
    ensures { Wrote to.old at (swapped guid.now.0) to.new result }
{
    mqb_fields::put_guid(to, at, &guid.0);
    at + 16
}

pub(crate) fn put_id(to: &mut [u8], at: usize, id: &MessageId) -> usize
    requires { at + 20 ≤ length to.old }
    ensures { Wrote to.old at (plain_id id.now) to.new result }
{
    let number = put_guid(to, at, &id.qm);
    put_word(to, number, id.number)
}

/// The type of a name: 1 public, 2 private, 3 direct, and 0 of a machine's queue.
pub(crate) fn kind_of(name: &QueueName) -> u8
    ensures { result ≡ kind_of name.now }
{
    match name {
        QueueName::Public { .. } => 1,
        QueueName::Private { .. } => 2,
        QueueName::Direct { .. } => 3,
        QueueName::Machine { .. } => 0,
    }
}

pub(crate) fn kind_or_none(name: &Option<QueueName>) -> u8
    ensures { result ≡ kind_or_none name.now }
{
    match name {
        Some(name) => kind_of(name),
        None => 0,
    }
}

pub(crate) fn len_or_none(name: &Option<QueueName>) -> usize
    requires { IsTrue (absent_or_queue name.now) }
    ensures len { result ≡ length (wire_or_none name.now) }
    ensures most { result < 2 ^ 32 }
{
    match name {
        Some(name) => wire_len(name) as usize,
        None => 0,
    }
}

pub(crate) fn put_name(to: &mut [u8], at: usize, name: &QueueName) -> usize
    requires queue { IsTrue (names_queue name.now) }
    requires room { at + length (wire name.now) ≤ length to.old }
    ensures { Wrote to.old at (wire name.now) to.new result }
{
    let end = at + wire_len(name) as usize;
    put_wire_name(name, &mut to[at..end]);
    end
}

pub(crate) fn put_optional_name(to: &mut [u8], at: usize, name: &Option<QueueName>) -> usize
    requires queue { IsTrue (absent_or_queue name.now) }
    requires room { at + length (wire_or_none name.now) ≤ length to.old }
    ensures { Wrote to.old at (wire_or_none name.now) to.new result }
{
    match name {
        Some(name) => put_name(to, at, name),
        None => at,
    }
}

pub(crate) fn put_label(to: &mut [u8], at: usize, units: &[u16]) -> usize
    requires { at + length (label_bytes units.now) ≤ length to.old }
    ensures { Wrote to.old at (label_bytes units.now) to.new result }
{
    let mut end = at;
    for unit in units {
        end = put_half(to, end, *unit);
    }
    end
}
