use crate::bytes::{bytes_of, put, put_again, put_fault, put_read, put_value};
use mqb_base::Memory;
use mqb_fields::Cursor;
use mqb_heads::{put_tx, read_base, read_props, read_tx, read_user};
use mqb_setup::{put_session, read_internal, read_session};
use std::alloc::Global;

/// `base BYTES`: the base header.
pub(crate) fn show_base(alloc: Global, bytes: &[u8], out: &mut Vec<u8>) -> Result<(), Memory> {
    put_read(alloc, &read_base(bytes), out)
}

/// `tx BYTES`: the transaction header, and what is put for it.
pub(crate) fn show_tx(alloc: Global, bytes: &[u8], out: &mut Vec<u8>) -> Result<(), Memory> {
    match read_tx(&mut Cursor::new(bytes)) {
        Ok(head) => {
            put_value(alloc, &head, out)?;
            let mut room = [0xAA; 20];
            put_tx(&head, &mut room);
            put_again(&room, bytes, out)
        }
        Err(fault) => put_fault(alloc, &fault, out),
    }
}

/// `session BYTES`: the session header, and what is put for it.
pub(crate) fn show_session(alloc: Global, bytes: &[u8], out: &mut Vec<u8>) -> Result<(), Memory> {
    match read_session(&mut Cursor::new(bytes)) {
        Ok(head) => {
            put_value(alloc, &head, out)?;
            let mut room = [0xAA; 18];
            put_session(&head, &mut room);
            put_again(&room, bytes, out)
        }
        Err(fault) => put_fault(alloc, &fault, out),
    }
}

/// `internal BYTES`: the internal header with its part.
pub(crate) fn show_internal(alloc: Global, bytes: &[u8], out: &mut Vec<u8>) -> Result<(), Memory> {
    put_read(alloc, &read_internal(&mut Cursor::new(bytes)), out)
}

/// Adds the part of a packet that is read next, and where the cursor then is.
fn put_part(
    alloc: Global,
    kind: &str,
    cursor: &mut Cursor<'_>,
    out: &mut Vec<u8>,
) -> Result<(), Memory> {
    match kind {
        "user" => put_read(alloc, &read_user(cursor), out)?,
        "props" => put_read(alloc, &read_props(cursor), out)?,
        "tx" => put_read(alloc, &read_tx(cursor), out)?,
        "internal" => put_read(alloc, &read_internal(cursor), out)?,
        _ => {}
    }
    put(b" at ", out)?;
    put_value(alloc, &cursor.at(), out)
}

/// `part KIND PLACE BYTES`: the part of a packet that begins at a place.
pub(crate) fn show_part(alloc: Global, text: &str, out: &mut Vec<u8>) -> Result<(), Memory> {
    let (kind, rest) = text.split_once(' ').unwrap_or((text, ""));
    let (place, digits) = rest.split_once(' ').unwrap_or((rest, ""));
    let bytes = bytes_of(alloc, digits)?;
    let mut cursor = Cursor::new(bytes.as_slice());
    match cursor.skip(place.parse::<usize>().unwrap_or(0)) {
        Ok(()) => put_part(alloc, kind, &mut cursor, out),
        Err(fault) => put_fault(alloc, &fault, out),
    }
}
