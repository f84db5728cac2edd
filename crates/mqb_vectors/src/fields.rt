use crate::bytes::{bytes_of, put, put_again, put_digits, put_fault, put_read, put_value};
use mqb_base::{Guid, Memory};
use mqb_fields::{Cursor, put_bytes, put_guid, put_u16, put_u32};
use mqb_names::write_guid;
use std::alloc::Global;

/// Adds what a letter reads: a number of 1, 2 or 4 bytes, two bytes, or nothing of the byte that it
/// skips. At `f` a copy of the cursor reads.
fn field(
    alloc: Global,
    letter: u8,
    cursor: &mut Cursor<'_>,
    out: &mut Vec<u8>,
) -> Result<(), Memory> {
    match letter {
        b'1' => put_read(alloc, &cursor.u8(), out),
        b'2' => put_read(alloc, &cursor.u16(), out),
        b'4' => put_read(alloc, &cursor.u32(), out),
        b't' => put_read(alloc, &cursor.take(2), out),
        b's' => put_read(alloc, &cursor.skip(1), out),
        _ => put_read(alloc, &cursor.fork().u8(), out),
    }
}

/// `fields LETTERS BYTES`: what each letter reads in turn, and what is left.
pub(crate) fn show_fields(alloc: Global, text: &str, out: &mut Vec<u8>) -> Result<(), Memory> {
    let (letters, digits) = text.split_once(' ').unwrap_or((text, ""));
    let bytes = bytes_of(alloc, digits)?;
    let mut cursor = Cursor::new(bytes.as_slice());
    for letter in letters.as_bytes() {
        field(alloc, *letter, &mut cursor, out)?;
    }
    put_value(alloc, &cursor.at(), out)?;
    put_value(alloc, &cursor.rest(), out)
}

/// Adds bytes with a number of 2 and one of 4 bytes at a place, and then with `ab` as well.
fn put_at(
    alloc: Global,
    at: usize,
    numbers: (u16, u32),
    to: &mut [u8],
    out: &mut Vec<u8>,
) -> Result<(), Memory> {
    if at > 99 || to.len() < at + 6 {
        return Ok(());
    }
    put_u16(to, at, numbers.0);
    put_u32(to, at + 2, numbers.1);
    put_digits(to, out)?;
    put(b" ", out)?;
    put_value(alloc, &put_bytes(to, at + 3, b"ab"), out)?;
    put_digits(to, out)
}

/// `put NUMBER NUMBER BYTES`: bytes with these numbers behind the first byte.
pub(crate) fn show_put(alloc: Global, text: &str, out: &mut Vec<u8>) -> Result<(), Memory> {
    let (short, rest) = text.split_once(' ').unwrap_or((text, ""));
    let (long, digits) = rest.split_once(' ').unwrap_or((rest, ""));
    let mut bytes = bytes_of(alloc, digits)?;
    let short = short.parse::<u16>().unwrap_or(0);
    let long = long.parse::<u32>().unwrap_or(0);
    put_at(alloc, 1, (short, long), bytes.as_mut_slice(), out)
}

/// `guid BYTES`: the GUID at the front in its printed form, and what is put for it behind a byte.
pub(crate) fn show_guid(alloc: Global, bytes: &[u8], out: &mut Vec<u8>) -> Result<(), Memory> {
    match Cursor::new(bytes).guid() {
        Ok(guid) => {
            write_guid(&Guid(guid), out)?;
            out.push(b' ')?;
            let mut room = [0xFF; 18];
            put_guid(&mut room, 1, &guid);
            put_again(&room, bytes, out)
        }
        Err(fault) => put_fault(alloc, &fault, out),
    }
}
