use crate::bytes::{bytes_of, put_digits, put_fault, put_value};
use mqb_base::{Memory, QueueName};
use mqb_names::{put_wire_name, read_name, read_wire_name, wire_len, write_name};
use std::alloc::Global;

/// Adds the digits of the wire form of a name, where it names a queue.
fn put_wire(alloc: Global, name: &QueueName, out: &mut Vec<u8>) -> Result<(), Memory> {
    if !name.names_queue() {
        return Ok(());
    }
    let mut bytes = vec![in alloc; 0; wire_len(name) as usize]?;
    put_wire_name(name, bytes.as_mut_slice());
    put_digits(bytes.as_slice(), out)
}

/// `name TEXT`: the printed form of the name that a text is read as, and its wire form.
pub(crate) fn show_name(alloc: Global, text: &[u8], out: &mut Vec<u8>) -> Result<(), Memory> {
    match read_name(alloc, text) {
        Ok(name) => {
            write_name(&name, out)?;
            out.push(b' ')?;
            put_wire(alloc, &name, out)
        }
        Err(fault) => put_fault(alloc, &fault, out),
    }
}

/// Adds how many bytes the wire form at the front has, and the printed form of its name.
fn put_name(alloc: Global, kind: u8, bytes: &[u8], out: &mut Vec<u8>) -> Result<(), Memory> {
    match read_wire_name(kind, bytes) {
        Ok((view, used)) => {
            put_value(alloc, &used, out)?;
            write_name(&view.to_owned(alloc)?, out)
        }
        Err(fault) => put_fault(alloc, &fault, out),
    }
}

/// `wire TYPE BYTES`.
pub(crate) fn show_wire(alloc: Global, text: &str, out: &mut Vec<u8>) -> Result<(), Memory> {
    let (kind, digits) = text.split_once(' ').unwrap_or((text, ""));
    let bytes = bytes_of(alloc, digits)?;
    put_name(
        alloc,
        kind.parse::<u8>().unwrap_or(0),
        bytes.as_slice(),
        out,
    )
}
