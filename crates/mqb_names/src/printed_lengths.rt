//! How long printed forms and their parts are.

ghost use Rattle.std.specs.Prelude.{◌≡◌, ◌≤◌, length};
ghost use Rattle.mqb_names.specs.Printed.{printed, printed_address, printed_direct, printed_host};
ghost use Rattle.mqb_names.specs.Printed.{printed_journal, printed_kind, printed_octet};

use crate::wire::MAX_DIRECT_UNITS;
use mqb_base::{Host, MAX_NAME, MachineQueue, Name, QueueName};

fn octet_len(number: u8) -> usize
    ensures length { result ≡ length (printed_octet number) }
    ensures most { result ≤ 3 }
{
    match number {
        0..=9 => 1,
        10..=99 => 2,
        _ => 3,
    }
}

fn name_len(name: &Name) -> usize
    ensures length { result ≡ length name.now }
    ensures most { result ≤ MAX_NAME }
{
    name.as_slice().len()
}

fn address_len(address: &[u8; 4]) -> usize
    ensures length { result ≡ length (printed_address address.now) }
    ensures most { result ≤ 15 }
{
    octet_len(address[0])
        + 1
        + octet_len(address[1])
        + 1
        + octet_len(address[2])
        + 1
        + octet_len(address[3])
}

fn host_len(host: &Host) -> usize
    ensures length { result ≡ length (printed_host host.now) }
    ensures most { result ≤ 67 }
{
    match host {
        Host::Os(name) => 3 + name_len(name),
        Host::Tcp(address) => 4 + address_len(address),
    }
}

/// How many characters a direct name has behind `DIRECT=`.
pub(crate) fn direct_len(host: &Host, queue: &Name) -> usize
    ensures length { result ≡ length (printed_direct host.now queue.now) }
    ensures most { result ≤ MAX_DIRECT_UNITS }
{
    host_len(host) + 10 + name_len(queue)
}

fn journal_len(journal: bool) -> usize
    ensures length { result ≡ length (printed_journal journal) }
    ensures most { result ≤ 8 }
{
    if journal { 8 } else { 0 }
}

fn kind_len(kind: MachineQueue) -> usize
    ensures length { result ≡ length (printed_kind kind) }
    ensures most { result ≤ 11 }
{
    match kind {
        MachineQueue::DeadLetter => 11,
        MachineQueue::DeadXact => 9,
        MachineQueue::Journal => 8,
    }
}

/// How many characters the printed form of a name has.
pub(crate) fn printed_len(name: &QueueName) -> usize
    ensures length { result ≡ length (printed name.now) }
    ensures most { result ≤ 156 }
{
    match name {
        QueueName::Public { journal, .. } => 7 + 36 + journal_len(*journal),
        QueueName::Private { journal, .. } => 8 + 36 + 9 + journal_len(*journal),
        QueueName::Direct {
            host,
            queue,
            journal,
        } => 7 + direct_len(host, queue) + journal_len(*journal),
        QueueName::Machine { kind, .. } => 8 + 36 + kind_len(*kind),
    }
}
