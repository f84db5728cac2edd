use crate::samples::{ALPHA, REPLIES, SAMPLE, SEQUENCE, message, plan};
use mqb_base::{Guid, Name, Place, Stream};
use mqb_orders::{InKey, InRow, Kept, OutKey, same_stream};
use std::alloc::{AllocError, Global};
use std::hash::{FoldHasher, Hash, Hasher};
use std::test::Fail;

/// Whether a copy is equal to what it was made of.
fn is_copied<T: Clone + PartialEq + Drop>(value: T) -> Result<bool, AllocError> {
    let copy = value.clone()?;
    Ok(copy == value)
}

fn is_plan_copied(alloc: Global) -> Result<bool, Fail> {
    let name = Name::new(alloc, b"orders")?;
    Ok(is_copied(plan(name))?)
}

fn is_place_copied(alloc: Global) -> Result<bool, Fail> {
    let name = Name::new(alloc, b"orders")?;
    Ok(is_copied(Place::JournalOf(name))?)
}

fn is_kept_copied(alloc: Global) -> Result<bool, Fail> {
    let message = message(alloc, &SAMPLE)?;
    Ok(is_copied(Kept { number: 7, message })?)
}

const ROW: InRow = InRow {
    source: ALPHA,
    destination: REPLIES,
    sequence: SEQUENCE,
    last: 5,
};

const INCOMING: InKey = InKey {
    source: ALPHA,
    destination: REPLIES,
};

const OUTGOING: OutKey = OutKey {
    peer: 0,
    destination: REPLIES,
};

fn hash_of<T: Hash>(value: &T) -> u64 {
    let mut hasher = FoldHasher::default();
    value.hash(&mut hasher);
    hasher.finish()
}

/// Whether a copy of a key is hashed as it is.
fn is_hashed_alike(key: &OutKey) -> Result<bool, AllocError> {
    let copy = key.clone()?;
    let is_alike = hash_of(key) == hash_of(&copy);
    drop(copy);
    Ok(is_alike)
}

#[test]
fn copies_that_no_program_makes(rt: HostRuntime) -> Result<(), Fail> {
    assert!(rt; is_plan_copied(rt.alloc())?);
    assert!(rt; is_place_copied(rt.alloc())?);
    assert!(rt; is_kept_copied(rt.alloc())?);
    assert!(rt; is_copied(ROW)?);
    assert!(rt; is_copied(INCOMING)?);
    assert!(rt; is_copied(OUTGOING)?);
    assert!(rt; is_hashed_alike(&OUTGOING)?);
    Ok(())
}

const STREAM: Stream = Stream {
    source: ALPHA,
    destination: REPLIES,
    sequence: SEQUENCE,
};

const OTHER: Stream = Stream {
    source: Guid([2; 16]),
    ..STREAM
};

#[test]
fn streams_are_compared_whole(rt: HostRuntime) {
    assert!(rt; same_stream(&STREAM, &STREAM));
    assert!(rt; !same_stream(&STREAM, &OTHER));
}
