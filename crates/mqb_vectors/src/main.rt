//! Reads a table of vectors from its input and prints what each line says, a line for a line. It
//! expects nothing: the file `stdout` does.
#![tactic(auto)]

mod bytes;
mod entries;
mod fields;
mod frames;
mod heads;
mod names;
mod orders;
mod packets;
mod sessions;
mod values;

use bytes::{bytes_of, end_line, put};
use mqb_base::Memory;
use mqb_session::Session;
use sessions::{ALPHA, BETA};
use std::alloc::Global;
use std::io;
use std::io::{BufRead, BufReader, Write};

/// Adds what bytes are read as, by a kind of line that has nothing else.
fn read(alloc: Global, kind: &str, bytes: &[u8], out: &mut Vec<u8>) -> Result<(), Memory> {
    match kind {
        "guid" => fields::show_guid(alloc, bytes, out),
        "base" => heads::show_base(alloc, bytes, out),
        "tx" => heads::show_tx(alloc, bytes, out),
        "session" => heads::show_session(alloc, bytes, out),
        "internal" => heads::show_internal(alloc, bytes, out),
        "packet" => packets::show_packet(alloc, bytes, out),
        "view" => packets::show_view(alloc, bytes, out),
        "lent" => packets::show_lent(alloc, bytes, out),
        "entry" => entries::show_entry(alloc, bytes, out),
        "word" => values::show_word(alloc, bytes, out),
        "class" => values::show_class(alloc, bytes, out),
        "acked" => orders::show_acked(alloc, bytes, out),
        "fate" => orders::show_fate(alloc, bytes, out),
        _ => put(b"no such kind of line", out),
    }
}

/// What the front of a length is read as.
fn front(alloc: Global, kind: &str, bytes: &[u8], len: usize) -> Result<Vec<u8>, Memory> {
    let mut out = Vec::new(alloc);
    read(alloc, kind, bytes.get(..len).unwrap_or_default(), &mut out)?;
    Ok(out)
}

/// Adds what the front of each length is read as, where that is not what the front
/// before it is read as.
fn fronts(alloc: Global, kind: &str, bytes: &[u8], out: &mut Vec<u8>) -> Result<(), Memory> {
    let mut last = Vec::new(alloc);
    for len in 0..=bytes.len() {
        let said = front(alloc, kind, bytes, len)?;
        if said.as_slice() != last.as_slice() {
            bytes::put_value(alloc, &len, out)?;
            put(said.as_slice(), out)?;
            put(b"; ", out)?;
            last = said;
        }
    }
    Ok(())
}

/// The first word of a line, and the rest.
fn split(line: &str) -> (&str, &str) {
    line.split_once(' ').unwrap_or((line, ""))
}

/// Adds what a line says whose rest is bytes.
fn answer_bytes(alloc: Global, line: &str, out: &mut Vec<u8>) -> Result<(), Memory> {
    let (kind, rest) = split(line);
    let bytes = bytes_of(alloc, rest)?;
    read(alloc, kind, bytes.as_slice(), out)
}

/// Adds what a line says: its first word tells how the rest is read. A remark, which begins with
/// `#`, stands for itself.
fn answer(alloc: Global, line: &str, out: &mut Vec<u8>) -> Result<(), Memory> {
    let (kind, rest) = split(line);
    match kind {
        "#" => put(line.as_bytes(), out),
        "fronts" => {
            let (kind, digits) = split(rest);
            fronts(alloc, kind, bytes_of(alloc, digits)?.as_slice(), out)
        }
        "fields" => fields::show_fields(alloc, rest, out),
        "put" => fields::show_put(alloc, rest, out),
        "name" => names::show_name(alloc, rest.as_bytes(), out),
        "wire" => names::show_wire(alloc, rest, out),
        "part" => heads::show_part(alloc, rest, out),
        "body" => packets::show_body(alloc, rest, out),
        "frame" => frames::show_frame(alloc, rest, out),
        "each" => frames::show_each(alloc, rest, out),
        "alike" => values::show_alike(alloc, rest, out),
        "draft" => values::show_draft(alloc, rest, out),
        "time" => values::show_time(alloc, rest, out),
        "judge" => orders::show_verdict(alloc, rest, out),
        "initiator" => sessions::show_session(
            alloc,
            &mut Session::initiator(ALPHA, BETA, 64),
            rest,
            out,
        ),
        "acceptor" => sessions::show_session(alloc, &mut Session::acceptor(BETA, 64), rest, out),
        "memory" => packets::show_memory(alloc, out),
        _ => answer_bytes(alloc, line, out),
    }
}

/// The line that is printed for a line.
fn answered(alloc: Global, line: &str) -> Result<Vec<u8>, Memory> {
    let mut out = Vec::new(alloc);
    answer(alloc, line, &mut out)?;
    end_line(&mut out)?;
    Ok(out)
}

fn main(rt: HostRuntime) -> io::Result<()> {
    let alloc = rt.alloc();
    let mut to = io::writer(&rt);
    for line in BufReader::new(alloc, rt.reader())?.lines(alloc) {
        let Ok(out) = answered(alloc, line?.as_str()) else {
            return Err(io::Error::from(io::ErrorKind::OutOfMemory));
        };
        to.write_all(out.as_slice())?;
    }
    Ok(())
}
