ghost use Rattle.std.specs.List.{list_any};
ghost use Rattle.std.specs.Prelude.{◌+◌, ◌≡◌, ◌≤◌, All, IfSome, is_none, length, map};
ghost use Rattle.mqb_base.specs.Messages.{IsWellFormed};
ghost use Rattle.mqb_heads.specs.declared.base.TheConstants.{MAX_PACKET};
ghost use Rattle.mqb_model.specs.declared.limits.TheConstants.{MAX_OPS};
ghost use Rattle.mqb_model.specs.records.Counting.{commit_size, op_size};
ghost use Rattle.mqb_model.specs.records.Packets.{is_too_large};
ghost use Rattle.mqb_packet.specs.Plain.{message_size};
ghost use Rattle.mqb_packet.specs.declared.packet.Headers.TheVariants.{Bare, TxAndSession};
ghost use Rattle.mqb_trying.specs.Notes.{IsWritable, record_op};
ghost use Rattle.mqb_trying.specs.Trying.{is_large, large_ops, whole_fault};

use crate::notes::{Notes, PlannedOp};
use mqb_base::Message;
use mqb_model::{CommitFault, MAX_NUMBER, MAX_RECORD};
use mqb_packet::{Headers, message_size};

/// How many bytes the packet has by which a record tells of a message, unless that of the message
/// is too large with the headers of a transaction.
fn packet_size(message: &Message) -> Option<usize>
    requires { IsWellFormed message.now }
    ensures size { IfSome result (λ size. size ≡ message_size Bare message.now) }
    ensures large { is_none result ≡ is_too_large TxAndSession message.now }
    ensures most { IfSome result (λ size. size ≤ MAX_PACKET) }
{
    if message_size(message, Headers::TxAndSession).is_err() {
        return None;
    }
    match message_size(message, Headers::Bare) {
        Ok(size) => Some(size as usize),
        Err(_) => unreachable!(),
    }
}

/// How many bytes an op of a record has, unless its packet is too large.
fn op_size(op: &PlannedOp) -> Option<usize>
    requires { IsWritable op.now }
    ensures size { IfSome result (λ size. size ≡ op_size (record_op op.now)) }
    ensures large { is_none result ≡ is_large op.now }
    ensures most { IfSome result (λ size. size ≤ MAX_PACKET + 5) }
{
    match op {
        PlannedOp::Send { message, .. } => Some(5 + packet_size(message)?),
        PlannedOp::Take { .. } => Some(25),
    }
}

/// How many bytes the record of these ops has, unless one of their packets is too large.
fn record_size(ops: &[PlannedOp]) -> Option<usize>
    requires writable { All IsWritable ops.now }
    requires few { length ops.now ≤ MAX_OPS }
    ensures size { IfSome result (λ size. size ≡ commit_size (map record_op ops.now)) }
    ensures large { is_none result ≡ list_any is_large ops.now }
{
    let mut size = 6;
    for k in 0..ops.len() {
        size += op_size(&ops[k])?;
    }
    Some(size)
}

fn is_too_large(ops: &[PlannedOp]) -> bool
    requires writable { All IsWritable ops.now }
    requires few { length ops.now ≤ MAX_OPS }
    ensures { result ≡ large_ops ops.now }
{
    match record_size(ops) {
        Some(size) => size > MAX_RECORD,
        None => true,
    }
}

/// Why ops that were tried make no transaction.
pub(crate) fn whole_fault(notes: &Notes) -> Option<CommitFault>
    requires { length notes.now.ops ≤ MAX_OPS }
    ensures { result ≡ whole_fault notes.now }
{
    if notes.next_number > MAX_NUMBER + 1 {
        return Some(CommitFault::NumbersSpent);
    }
    if is_too_large(&notes.ops) {
        return Some(CommitFault::TooLarge);
    }
    None
}
