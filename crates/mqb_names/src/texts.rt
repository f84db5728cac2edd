//! The printed form of a name, part by part. Each call writes at a place of a buffer, and
//! tells where it ends.

ghost use Rattle.std.specs.Prelude.{◌≤◌, ◌<◌, ◌+◌, ◌≡◌, ◌∷◌, length};
ghost use Rattle.uuid.specs.Text.{lower, hex_digit};
ghost use Rattle.mqb_fields.specs.Writing.{Wrote};
ghost use Rattle.mqb_names.specs.Printed.{dot, printed, printed_address, printed_direct};
ghost use Rattle.mqb_names.specs.Printed.{printed_guid, printed_host, printed_journal};
ghost use Rattle.mqb_names.specs.Printed.{printed_kind, printed_number, printed_octet};

use mqb_base::{Guid, Host, MachineQueue, Name, QueueName};
use mqb_fields::put_bytes;
use uuid::Uuid;

/// The path between host and queue.
const PATH: &[u8] = b"\\PRIVATE$\\";

pub(crate) fn put_guid(to: &mut [u8], at: usize, guid: Guid) -> usize
    requires { at + length (printed_guid guid) ≤ length to.old }
    ensures { Wrote to.old at (printed_guid guid) to.new result }
{
    let mut buffer = Uuid::encode_buffer();
    let text = Uuid::from_bytes(guid.0)
        .hyphenated()
        .encode_lower(&mut buffer);
    put_bytes(to, at, text.as_bytes())
}

fn hex_digit(digit: u32) -> u8
    requires { digit < 16 }
    ensures { result ≡ hex_digit lower digit }
{
    if digit < 10 {
        b'0' + digit as u8
    } else {
        b'a' + digit as u8 - 10
    }
}

fn put_number(to: &mut [u8], at: usize, number: u32) -> usize
    requires { at + length (printed_number number) ≤ length to.old }
    ensures { Wrote to.old at (printed_number number) to.new result }
{
    let digits = [
        hex_digit(number / 0x1000_0000 % 16),
        hex_digit(number / 0x100_0000 % 16),
        hex_digit(number / 0x10_0000 % 16),
        hex_digit(number / 0x1_0000 % 16),
        hex_digit(number / 0x1000 % 16),
        hex_digit(number / 0x100 % 16),
        hex_digit(number / 0x10 % 16),
        hex_digit(number % 16),
    ];
    put_bytes(to, at, &digits)
}

fn put_octet(to: &mut [u8], at: usize, number: u8) -> usize
    requires { at + length (printed_octet number) ≤ length to.old }
    ensures { Wrote to.old at (printed_octet number) to.new result }
{
    if number < 10 {
        return put_bytes(to, at, &[b'0' + number]);
    }
    if number < 100 {
        return put_bytes(to, at, &[b'0' + number / 10, b'0' + number % 10]);
    }
    let digits = [
        b'0' + number / 100,
        b'0' + number / 10 % 10,
        b'0' + number % 10,
    ];
    put_bytes(to, at, &digits)
}

fn put_dot_and_octet(to: &mut [u8], at: usize, number: u8) -> usize
    requires { at + length (dot ∷ printed_octet number) ≤ length to.old }
    ensures { Wrote to.old at (dot ∷ printed_octet number) to.new result }
{
    let end = put_bytes(to, at, b".");
    put_octet(to, end, number)
}

fn put_address(to: &mut [u8], at: usize, address: &[u8; 4]) -> usize
    requires { at + length (printed_address address.now) ≤ length to.old }
    ensures { Wrote to.old at (printed_address address.now) to.new result }
{
    let end = put_octet(to, at, address[0]);
    let end = put_dot_and_octet(to, end, address[1]);
    let end = put_dot_and_octet(to, end, address[2]);
    put_dot_and_octet(to, end, address[3])
}

fn put_host(to: &mut [u8], at: usize, host: &Host) -> usize
    requires { at + length (printed_host host.now) ≤ length to.old }
    ensures { Wrote to.old at (printed_host host.now) to.new result }
{
    match host {
        Host::Os(name) => {
            let end = put_bytes(to, at, b"OS:");
            put_bytes(to, end, name.as_slice())
        }
        Host::Tcp(address) => {
            let end = put_bytes(to, at, b"TCP:");
            put_address(to, end, address)
        }
    }
}

/// Writes a direct name, as it stands behind `DIRECT=`.
pub(crate) fn put_direct(to: &mut [u8], at: usize, host: &Host, queue: &Name) -> usize
    requires { at + length (printed_direct host.now queue.now) ≤ length to.old }
    ensures { Wrote to.old at (printed_direct host.now queue.now) to.new result }
{
    let end = put_host(to, at, host);
    let end = put_bytes(to, end, PATH);
    put_bytes(to, end, queue.as_slice())
}

fn put_journal(to: &mut [u8], at: usize, journal: bool) -> usize
    requires { at + length (printed_journal journal) ≤ length to.old }
    ensures { Wrote to.old at (printed_journal journal) to.new result }
{
    let text: &[u8] = if journal { b";JOURNAL" } else { b"" };
    put_bytes(to, at, text)
}

fn put_kind(to: &mut [u8], at: usize, kind: MachineQueue) -> usize
    requires { at + length (printed_kind kind) ≤ length to.old }
    ensures { Wrote to.old at (printed_kind kind) to.new result }
{
    let text: &[u8] = match kind {
        MachineQueue::DeadLetter => b";DEADLETTER",
        MachineQueue::DeadXact => b";DEADXACT",
        MachineQueue::Journal => b";JOURNAL",
    };
    put_bytes(to, at, text)
}

/// Writes the printed form of a name.
pub(crate) fn put_name(to: &mut [u8], at: usize, name: &QueueName) -> usize
    requires { at + length (printed name.now) ≤ length to.old }
    ensures { Wrote to.old at (printed name.now) to.new result }
{
    match name {
        QueueName::Public { guid, journal } => {
            let end = put_bytes(to, at, b"PUBLIC=");
            let end = put_guid(to, end, *guid);
            put_journal(to, end, *journal)
        }
        QueueName::Private {
            qm,
            number,
            journal,
        } => {
            let end = put_bytes(to, at, b"PRIVATE=");
            let end = put_guid(to, end, *qm);
            let end = put_bytes(to, end, b"\\");
            let end = put_number(to, end, *number);
            put_journal(to, end, *journal)
        }
        QueueName::Direct {
            host,
            queue,
            journal,
        } => {
            let end = put_bytes(to, at, b"DIRECT=");
            let end = put_direct(to, end, host, queue);
            put_journal(to, end, *journal)
        }
        QueueName::Machine { qm, kind } => {
            let end = put_bytes(to, at, b"MACHINE=");
            let end = put_guid(to, end, *qm);
            put_kind(to, end, *kind)
        }
    }
}
