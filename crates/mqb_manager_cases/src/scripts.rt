//! Scripts and replies: an input that fails, moments that no reply shows, scripts of rings, and replies that no script brings about.
use mqb_base::{Cause, Class, Guid, Heard, Memory, MessageId};
use mqb_outside::MemorySource;
use mqb_script::{Event, LineKind, RingScript, Script, ScriptFault, read_ring, read_script};
use mqb_transcript::{Listed, Reply, print_reply};
use std::alloc::Global;
use std::test::Fail;

/// The script of a text, where these calls of its source fail.
fn read(alloc: Global, text: &[u8], failing: &[u32]) -> Result<Script, ScriptFault> {
    match MemorySource::new(alloc, text, failing) {
        Ok(mut source) => {
            let script = read_script(alloc, &mut source);
            drop(source);
            script
        }
        Err(_) => Err(ScriptFault::Memory),
    }
}

/// Why there is no script where a call of its source fails.
fn fault_at(alloc: Global, text: &[u8], call: u32) -> Option<ScriptFault> {
    read(alloc, text, &[call]).err()
}

#[test]
fn a_read_fails(rt: HostRuntime) -> Result<(), Fail> {
    let text = vec![in rt.alloc(); b'#'; 5000]?;
    let first = fault_at(rt.alloc(), &text, 1);
    let second = fault_at(rt.alloc(), &text, 2);
    let third = fault_at(rt.alloc(), &text, 3);
    drop(text);
    assert!(rt; [first, second, third] == [Some(ScriptFault::ReadFault); 3]);
    Ok(())
}

/// The moments of a connection and of a packet that is delivered.
fn moments(script: &Script) -> Option<[u32; 2]> {
    match script.events() {
        [
            (_, Event::Connect { now, .. }),
            (_, Event::Deliver { now: heard, .. }),
        ] => Some([*now, *heard]),
        _ => None,
    }
}

#[test]
fn moments_are_read(rt: HostRuntime) -> Result<(), Fail> {
    let script = read(
        rt.alloc(),
        b"connect alpha 1000 64 1\ndeliver 4294967295 1001\n",
        &[],
    )?;
    let moments = moments(&script);
    drop(script);
    assert!(rt; moments == Some([1000, 1001]));
    Ok(())
}

/// The script of a ring that a text is.
fn ring(alloc: Global, text: &[u8]) -> Result<Option<RingScript>, ScriptFault> {
    match MemorySource::new(alloc, text, &[]) {
        Ok(mut source) => {
            let ring = read_ring(alloc, &mut source);
            drop(source);
            ring
        }
        Err(_) => Err(ScriptFault::Memory),
    }
}

/// The line that says how many managers there are, how many, the ends of a connection, and whose it is that ends.
fn ends(ring: &Option<RingScript>) -> Option<[u32; 5]> {
    let Some(
        RingScript {
            line,
            count,
            script,
        },
    ) = ring
    else {
        return None;
    };
    match script.events() {
        [
            (
                _,
                Event::Connect {
                    initiator,
                    acceptor,
                    ..
                },
            ),
            (_, Event::Disconnect { manager }),
        ] => Some([*line, *count, *initiator, *acceptor, *manager]),
        _ => None,
    }
}

#[test]
fn a_ring_is_read(rt: HostRuntime) -> Result<(), Fail> {
    let ring = ring(
        rt.alloc(),
        b"# three\n\nmanagers 3\nconnect m3 m1 1000 64 1\ndisconnect m2\n",
    )?;
    let ends = ends(&ring);
    drop(ring);
    assert!(rt; ends == Some([3, 3, 2, 0, 1]));
    Ok(())
}

/// Texts that are no scripts of rings, with the line and what is wrong with it.
static NO_RINGS: [(&[u8], u32, LineKind); 10] = [
    (b"managers \x00", 1, LineKind::Byte),
    (b"connect m1 m2 1000 64 64\n", 1, LineKind::Word),
    (b"#\nmanagers\n", 2, LineKind::Count),
    (b"managers 2 3\n", 1, LineKind::Count),
    (b"managers 1\n", 1, LineKind::Value),
    (b"managers 9\n", 1, LineKind::Value),
    (b"managers 2\nmanagers 2\n", 2, LineKind::Word),
    (b"managers 3\nresend m9\n", 2, LineKind::Value),
    (
        b"managers 2\nconnect m1 m1 1000 64 64\n",
        2,
        LineKind::Value,
    ),
    (b"managers 2\ndisconnect\n", 2, LineKind::Count),
];

#[test]
fn what_is_no_ring_is_told(rt: HostRuntime) -> Result<(), Fail> {
    for (text, number, kind) in &NO_RINGS {
        let fault = ring(rt.alloc(), text).err();
        let told = ScriptFault::Line {
            number: *number,
            kind: *kind,
        };
        assert!(rt; fault == Some(told));
    }
    Ok(())
}

/// A message of a manager that is not known.
const UNKNOWN: MessageId = MessageId {
    qm: Guid([
        0xF0, 1, 2, 3, 4, 5, 6, 7, 8, 9, 0xA0, 0xB0, 0xC0, 0xD0, 0xE0, 0xFF,
    ]),
    number: 4294967295,
};

static HEARD: [Heard; 6] = [
    Heard::SetUp,
    Heard::Final {
        id: UNKNOWN,
        class: Class::ORDER_ACKNOWLEDGEMENT,
    },
    Heard::Closed(Cause::Early),
    Heard::Closed(Cause::BadAck),
    Heard::Closed(Cause::Refused),
    Heard::Closed(Cause::Foreign),
];

const PRINTED: &[u8] = b"numbersspent\nsequencespent 0\nspent\nticked 18446744073709551615\n\
took f0010203-0405-0607-0809-a0b0c0d0e0ff.4294967295\n\
setup\nfinal 00FF f0010203-0405-0607-0809-a0b0c0d0e0ff.4294967295\n\
closed early\nclosed badack\nclosed refused\nclosed foreign\n";

/// Adds the text of a reply, without the number of a line. The reply falls.
fn put(alloc: Global, out: &mut Vec<u8>, reply: Reply) -> Result<(), Memory> {
    let put = print_reply(alloc, None, &reply, &[], out);
    drop(reply);
    put
}

fn put_heard(alloc: Global, out: &mut Vec<u8>, heard: Heard) -> Result<(), Memory> {
    let lines = Listed::new(alloc);
    put(alloc, out, Reply::Heard { heard, lines })
}

fn put_ticked(alloc: Global, out: &mut Vec<u8>, express: u64) -> Result<(), Memory> {
    let lines = Listed::new(alloc);
    put(alloc, out, Reply::Ticked { express, lines })
}

fn put_took(alloc: Global, out: &mut Vec<u8>, id: MessageId) -> Result<(), Memory> {
    let lines = Listed::new(alloc);
    put(alloc, out, Reply::Took { id, lines })
}

fn put_all(alloc: Global, out: &mut Vec<u8>) -> Result<(), Memory> {
    put(alloc, out, Reply::NumbersSpent)?;
    put(alloc, out, Reply::SequenceSpent { op: 0 })?;
    put(alloc, out, Reply::Spent)?;
    put_ticked(alloc, out, u64::MAX)?;
    put_took(alloc, out, UNKNOWN)?;
    for heard in HEARD {
        put_heard(alloc, out, heard)?;
    }
    Ok(())
}

#[test]
fn replies_that_no_script_brings_about(rt: HostRuntime) -> Result<(), Fail> {
    let mut out = Vec::new(rt.alloc());
    put_all(rt.alloc(), &mut out)?;
    assert!(rt; out.as_slice() == PRINTED);
    Ok(())
}
