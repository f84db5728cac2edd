ghost use Rattle.std.specs.Prelude.{◌<◌};

use mqb_base::Memory;
use std::alloc::Global;
use std::fmt::{Debug, Display};

pub(crate) fn put(text: &[u8], out: &mut Vec<u8>) -> Result<(), Memory> {
    out.extend_from_slice(text)?;
    Ok(())
}

/// Adds a value as it is debugged.
pub(crate) fn put_value<T: Debug>(
    alloc: Global,
    value: &T,
    out: &mut Vec<u8>,
) -> Result<(), Memory> {
    let text = format!(in alloc; "{value:?} ")?;
    put(text.as_bytes(), out)
}

/// Adds the text of a fault.
pub(crate) fn put_fault<E: Display>(
    alloc: Global,
    fault: &E,
    out: &mut Vec<u8>,
) -> Result<(), Memory> {
    let text = format!(in alloc; "fault: {fault} ")?;
    put(text.as_bytes(), out)
}

/// Adds what was read, or the text of the fault.
pub(crate) fn put_read<T: Debug, E: Display>(
    alloc: Global,
    read: &Result<T, E>,
    out: &mut Vec<u8>,
) -> Result<(), Memory> {
    match read {
        Ok(value) => put_value(alloc, value, out),
        Err(fault) => put_fault(alloc, fault, out),
    }
}

fn digit(value: u8) -> u8
    requires { value < 16 }
{
    if value < 10 {
        b'0' + value
    } else {
        b'a' + (value - 10)
    }
}

/// Adds the digits of bytes.
pub(crate) fn put_digits(bytes: &[u8], out: &mut Vec<u8>) -> Result<(), Memory> {
    for byte in bytes {
        put(&[digit(*byte / 16), digit(*byte % 16)], out)?;
    }
    Ok(())
}

/// As many bytes that were put are shown.
const MAX_PUT: usize = 2_000;

/// Adds the digits of bytes that were put, or that they are those which were given.
pub(crate) fn put_again(bytes: &[u8], given: &[u8], out: &mut Vec<u8>) -> Result<(), Memory> {
    put(b"put as ", out)?;
    if bytes == given {
        return put(b"the same", out);
    }
    put_digits(bytes.get(..MAX_PUT).unwrap_or(bytes), out)
}

/// Adds the bytes that digits spell, as often as stands behind them and a `*`; nothing
/// where they are no digits.
fn put_word(alloc: Global, word: &str, out: &mut Vec<u8>) -> Result<(), Memory> {
    let (digits, count) = word.split_once('*').unwrap_or((word, "1"));
    let Ok(once) = hex::decode(alloc, digits) else {
        return Ok(());
    };
    let count = count.parse::<u32>().unwrap_or(0);
    let all = once.as_slice().repeat(alloc, count as usize)?;
    put(all.as_slice(), out)
}

/// The bytes that words spell.
pub(crate) fn bytes_of(alloc: Global, text: &str) -> Result<Vec<u8>, Memory> {
    let mut bytes = Vec::new(alloc);
    for word in text.split_whitespace() {
        put_word(alloc, word, &mut bytes)?;
    }
    Ok(bytes)
}

/// The longest line that is printed whole.
const MAX_LINE: usize = 8_000;

/// Ends a line, of which only the front is left where it is too long, and no blank at its end.
pub(crate) fn end_line(out: &mut Vec<u8>) -> Result<(), Memory> {
    out.truncate(MAX_LINE);
    if out.last() == Some(&b' ') {
        out.pop();
    }
    put(b"\n", out)
}
