//! Records on a state: how much is prepared for one, and how the state is spelled and read back.
use crate::stores::identity;
use mqb_base::{EntryPlace, Memory};
use mqb_entries::{Entry, entry_view};
use mqb_state::{BackFault, ExpressWork, PrepareFault, State};
use std::alloc::Global;
use std::mem::replace;
use std::test::Fail;

/// A queue of 2,000 messages.
const QUEUE: &[u8] = b"\x03\x05notes\x01\0\0\0\0\0\xD0\x07\0\0\0";

/// A message to it, whose number stands at 65.
const NOTE: [u8; 149] =
    *b"\x05\xE8\x03\0\0\x8C\0\0\0\x10\0\0\0LIOR\x8C\0\0\0\xFF\xFF\xFF\xFFAAAAAAAAAAAAAAAAAAAAAAAAAAAA\
AAAA\xFF\xFF\xFF\xFF\xE8\x03\0\0\x01\0\0\0\x09\0\0\0AAAAAAAAAAAAAAAA\x01\0\0\0\0\0\0\0AAAAAAAA\
AAAAAAAA\0\0\0\0\0\0\0\0\0\0\0\0\0\0\0\0\0\0\0\0\0\0\0\0\0\0\0\0\0\0\0\0\0\0\0\0";

/// The message with the number 500 is taken.
const TAKE: &[u8] = b"\x04\xE9\x03\0\0\x01\x02\x01\0\0\0AAAAAAAAAAAAAAAA\xF4\x01\0\0";

/// The record of a message with a number.
fn note(number: u32) -> [u8; 149] {
    let mut record = NOTE;
    let [a, b, c, d] = number.to_le_bytes();
    record[65] = a;
    record[66] = b;
    record[67] = c;
    record[68] = d;
    record
}

/// How many messages and lines are prepared for an entry, which is not written then.
fn lost(state: &mut State, entry: &Entry<'_>) -> Result<(u64, usize), PrepareFault> {
    let prepared = state.prepare(entry)?;
    let held = (prepared.messages(), prepared.lines().len());
    drop(prepared);
    Ok(held)
}

fn applied(state: &mut State, entry: &Entry<'_>) -> Result<(), PrepareFault> {
    drop(state.apply(entry)?);
    Ok(())
}

fn apply(state: &mut State, record: &[u8]) -> Result<(), Fail> {
    let entry = entry_view(record)?;
    let applied = applied(state, &entry);
    drop(entry);
    Ok(applied?)
}

fn lost_of(state: &mut State, record: &[u8]) -> Result<(u64, usize), Fail> {
    let entry = entry_view(record)?;
    let lost = lost(state, &entry);
    drop(entry);
    Ok(lost?)
}

fn count(state: &State) -> Option<u32> {
    state.queues().len_at(EntryPlace::Queue(1))
}

/// A queue of a thousand messages.
fn fill(state: &mut State) -> Result<(), Fail> {
    apply(state, QUEUE)?;
    for number in 1..1001 {
        apply(state, &note(number))?;
    }
    Ok(())
}

/// How many messages and lines are prepared for a take, and how many messages there are before it and
/// after it.
type Taken = ((u64, usize), [Option<u32>; 2]);

fn taken(state: &mut State) -> Result<Taken, Fail> {
    fill(state)?;
    let prepared = lost_of(state, TAKE)?;
    let before = count(state);
    apply(state, TAKE)?;
    Ok((prepared, [before, count(state)]))
}

#[test]
fn of_a_thousand_messages_few_are_prepared(rt: HostRuntime) -> Result<(), Fail> {
    let own = identity(rt.alloc(), b"alpha", b'A')?;
    let mut state = State::empty(rt.alloc(), &own)?;
    let taken = taken(&mut state);
    drop(state);
    drop(own);
    let ((messages, lines), counts) = taken?;
    assert!(rt; messages <= 3 && lines == 1);
    assert!(rt; counts == [Some(1000), Some(999)]);
    Ok(())
}

/// An order goes to beta and is acknowledged, and one comes from it. No record of these fits twice.
static RECORDS: [&[u8]; 6] = [
    b"\x02\x04betaBBBBBBBBBBBBBBBB\x0A\0\0\x02",
    b"\x03\x06orders\x01\0\0\0\0\x01\x09\0\0\0\0",
    b"\x04\xE8\x03\0\0\x01\x01\x8C\0\0\0\x10\0\0\0LIOR\x8C\0\0\0\xFF\xFF\xFF\xFFAAAAAAAAAAAAAAAABBBB\
BBBBBBBBBBBB\xFF\xFF\xFF\xFF\xE8\x03\0\0\x01\0\0\0\x09\0\0\0BBBBBBBBBBBBBBBB\x01\0\0\0\0\0\0\0\
AAAAAAAAAAAAAAAA\0\0\0\0\0\0\0\0\0\0\0\0\0\0\0\0\0\0\0\0\0\0\0\0\0\0\0\0\0\0\0\0\0\0\0\0",
    b"\x06\x01\x01\0\0\0\x01\0\0\0",
    b"\x07\xF8\x03\0\0\0\0\x03\x01\0\0\0\x01\0\0\0",
    b"\x07\xE9\x03\0\0\0\0\x01\xA0\0\0\0\x10\0\0\0LIOR\xA0\0\0\0\xFF\xFF\xFF\xFFBBBBBBBBBBBBBBBBAAAA\
AAAAAAAAAAAA\xFF\xFF\xFF\xFF\xE8\x03\0\0\x01\0\0\0\x0B\0\0\0AAAAAAAAAAAAAAAA\x01\0\0\0\0\0\0\0\
\x01\0\0\0\xE8\x03\0\0\x01\0\0\0\0\0\0\0\0\0\0\0AAAAAAAAAAAAAAAA\0\0\0\0\0\0\0\0\0\0\0\0\0\0\0\
\0\0\0\0\0\0\0\0\0\0\0\0\0\0\0\0\0\0\0\0\0",
];

/// Whether this is what a store of the state stands for, in bytes.
fn is_spelled(state: &State, alloc: Global, wanted: &[u8]) -> Result<bool, Memory> {
    let mut bytes = Vec::new(alloc);
    state.spell(&mut bytes)?;
    Ok(bytes.as_slice() == wanted)
}

/// Makes what an entry does, and nothing beside it. It was prepared before, and lost.
fn make(state: &mut State, entry: &Entry<'_>) -> Result<(), PrepareFault> {
    lost(state, entry)?;
    let prepared = state.prepare(entry)?;
    state.install(prepared);
    state.is_valid();
    let attempt = state.attempt(None, ExpressWork::Nothing)?;
    state.take_back(attempt);
    Ok(())
}

/// Whether an entry is refused, by both ways.
fn is_unfit(state: &mut State, entry: &Entry<'_>) -> bool {
    let prepared = lost(state, entry).err();
    let applied = applied(state, entry).err();
    [prepared, applied] == [Some(PrepareFault::Unfit); 2]
}

/// Puts the state in place of another one that these bytes are read back as.
fn read_again(state: &mut State, alloc: Global, bytes: &[u8]) -> Result<(), BackFault> {
    let back = State::read_back(alloc, bytes)?;
    drop(replace(state, back));
    Ok(())
}

/// Whether an entry fits no more in the state that these bytes are read back as, and leaves that as
/// it is spelled.
fn is_read_back(
    state: &mut State,
    alloc: Global,
    bytes: &[u8],
    entry: &Entry<'_>,
) -> Result<bool, Fail> {
    read_again(state, alloc, bytes)?;
    let is_unfit = is_unfit(state, entry);
    Ok(is_spelled(state, alloc, bytes)? && is_unfit)
}

/// Makes an entry. Whether it is made once, and the state is read back then.
fn is_made_once(state: &mut State, alloc: Global, entry: &Entry<'_>) -> Result<bool, Fail> {
    make(state, entry)?;
    let mut bytes = Vec::new(alloc);
    state.spell(&mut bytes)?;
    is_read_back(state, alloc, bytes.as_slice(), entry)
}

fn is_recorded_once(state: &mut State, alloc: Global, record: &[u8]) -> Result<bool, Fail> {
    let entry = entry_view(record)?;
    let is_made_once = is_made_once(state, alloc, &entry);
    drop(entry);
    is_made_once
}

/// The first of the records that is not.
fn first_wrong(state: &mut State, alloc: Global) -> Result<Option<usize>, Fail> {
    for (k, record) in RECORDS.iter().enumerate() {
        if !is_recorded_once(state, alloc, record)? {
            return Ok(Some(k));
        }
    }
    Ok(None)
}

#[test]
fn a_state_is_read_back_behind_each_record(rt: HostRuntime) -> Result<(), Fail> {
    let own = identity(rt.alloc(), b"alpha", b'A')?;
    let mut state = State::empty(rt.alloc(), &own)?;
    let wrong = first_wrong(&mut state, rt.alloc());
    drop(state);
    drop(own);
    assert!(rt; wrong?.is_none());
    Ok(())
}
