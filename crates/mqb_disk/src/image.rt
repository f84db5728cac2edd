ghost use Rattle.std.specs.Prelude.{◌≡◌, ◌+◌, ◌≤◌, ℕ, [], length, take, drop, max, replicate, IfOk};
ghost use Rattle.std.specs.Prelude.{◌++◌, vec_len, vec_capacity};
ghost use Rattle.mqb_outside.specs.Images.{Written};
ghost use Rattle.mqb_disk.specs.Extent.{Extent, standing};

use mqb_base::Memory;
use std::alloc::Global;
use std::marker::Model;

/// The contents of a disk, in a buffer whose room is reserved when it is made: no later call takes
/// memory. Past the contents the buffer keeps what stood there last, and it holds no more than was
/// written: nothing is touched before that.
#[derive(Debug, Drop)]
pub(crate) struct Image {
    buffer: Vec<u8>,
    len: usize,
    room: usize,
}

impl Model for Image {
    ghost use Rattle.std.specs.Prelude.{◌≤◌, take, drop, vec_len, vec_capacity};
    ghost use Rattle.mqb_disk.specs.Extent.{Extent};

    ghost Value = { Extent };

    ghost view = { λ i. record {
      contents = take i.len i.buffer.items;
      room = i.room;
      behind = drop i.len i.buffer.items;
    } };

    ghost invariant = { λ i. (i.len ≤ vec_len i.buffer) × (vec_len i.buffer ≤ i.room)
        × (i.room ≤ vec_capacity i.buffer) };
}

impl Image {
    /// It is empty, and has room for `room` bytes, none of which is touched yet.
    pub(crate) fn new(alloc: Global, room: usize) -> Result<Image, Memory>
        ensures contents { IfOk result (λ image. image.contents ≡ []) }
        ensures untouched { IfOk result (λ image. standing image ≡ []) }
        ensures room { IfOk result (λ image. image.room ≡ room) }
    {
        Ok(Image {
            buffer: Vec::with_capacity(alloc, room)?,
            len: 0,
            room,
        })
    }

    pub(crate) fn len(&self) -> usize
        ensures length { result ≡ length self.now.contents }
        ensures fits { result ≤ self.now.room }
    {
        self.len
    }

    pub(crate) fn room(&self) -> usize
        ensures { result ≡ self.now.room }
    {
        self.room
    }

    pub(crate) fn read(&self, at: usize, buf: &mut [u8])
        requires { at + length buf.old ≤ length self.now.contents }
        ensures { buf.new ≡ take (length buf.old) (drop at self.now.contents) }
    {
        let (_, rest) = self.buffer[..self.len].split_at(at);
        buf.copy_from_slice(&rest[..buf.len()]);
    }

    /// Writes over what is there, and past the end.
    #[tactic(auto, using(crate::proofs::Contents::written_front))]
    pub(crate) fn write(&mut self, at: usize, bytes: &[u8])
        requires place { at ≤ length self.old.contents }
        requires fits { at + length bytes.now ≤ self.old.room }
        ensures written { Written at bytes.now self.old.contents self.new.contents }
        ensures room { self.new.room ≡ self.old.room }
        ensures within { length self.new.contents ≤ self.new.room }
    {
        put(&mut self.buffer, at, bytes);
        self.len = self.len.max(at + bytes.len());
    }

    pub(crate) fn cut(&mut self, len: usize)
        requires { len ≤ length self.old.contents }
        ensures cut { self.new.contents ≡ take len self.old.contents }
        ensures room { self.new.room ≡ self.old.room }
        ensures within { length self.new.contents ≤ self.new.room }
    {
        self.len = len;
    }

    /// Has the other's contents from now on. From `from` on they may differ.
    #[tactic(auto, using(crate::proofs::Contents::alike_fronts))]
    pub(crate) fn follow(&mut self, other: &Image, from: usize)
        requires room { self.old.room ≡ other.now.room }
        requires place { from ≤ length self.old.contents }
        requires other_place { from ≤ length other.now.contents }
        requires same { take from self.old.contents ≡ take from other.now.contents }
        ensures contents { self.new.contents ≡ other.now.contents }
        ensures room { self.new.room ≡ self.old.room }
        ensures within { length self.new.contents ≤ self.new.room }
    {
        follow_on(&mut self.buffer, &other.buffer[..other.len], from);
        self.len = other.len;
    }

    /// Takes the bytes that stand in this range of the other, as many as there are.
    #[tactic(auto, using(crate::proofs::Contents::standing_range))]
    pub(crate) fn take_range(&mut self, other: &Image, at: usize, n: usize)
        requires room { self.old.room ≡ other.now.room }
        requires place { at ≤ length self.old.contents }
        requires fits { at + n ≤ self.old.room }
        ensures written { Written at
            (take n (drop at (standing other.now))) self.old.contents self.new.contents }
        ensures room { self.new.room ≡ self.old.room }
        ensures within { length self.new.contents ≤ self.new.room }
    {
        self.write(at, range(&other.buffer, at, n));
    }

    /// Puts the byte 1 in each place of this range.
    #[tactic(auto, using(crate::proofs::Contents::filled_front))]
    pub(crate) fn fill_range(&mut self, at: usize, n: usize)
        requires place { at ≤ length self.old.contents }
        requires fits { at + n ≤ self.old.room }
        ensures written { Written at (replicate n 1) self.old.contents self.new.contents }
        ensures room { self.new.room ≡ self.old.room }
        ensures within { length self.new.contents ≤ self.new.room }
    {
        fill(&mut self.buffer, at, n);
        self.len = self.len.max(at + n);
    }
}

// The bytes of this range that are there.
#[tactic(auto, using(crate::proofs::Contents::range_there))]
fn range(buffer: &[u8], at: usize, n: usize) -> &[u8]
    ensures range { result.now ≡ take n (drop at buffer.now) }
    ensures short { length result.now ≤ n }
{
    let (_, there) = buffer.split_at(at.min(buffer.len()));
    &there[..n.min(there.len())]
}

// Puts bytes over what stands there, and past its end.
#[tactic(auto, using(crate::proofs::Contents::put_past))]
fn put(buffer: &mut Vec<u8>, at: usize, bytes: &[u8])
    requires place { at ≤ vec_len buffer.old }
    requires fits { at + length bytes.now ≤ vec_capacity buffer.old }
    ensures put { buffer.new.items ≡ take at buffer.old.items ++ bytes.now
        ++ drop (at + length bytes.now) buffer.old.items }
    ensures len { vec_len buffer.new ≡ max (vec_len buffer.old) (at + length bytes.now) }
    ensures capacity { vec_capacity buffer.old ≤ vec_capacity buffer.new }
{
    if at + bytes.len() < buffer.len() {
        buffer[at..at + bytes.len()].copy_from_slice(bytes);
        return;
    }
    buffer.truncate(at);
    let Ok(()) = buffer.extend_from_slice(bytes) else {
        unreachable!();
    };
}

// Puts the byte 1 over what stands there, and past its end.
fn fill(buffer: &mut Vec<u8>, at: usize, n: usize)
    requires place { at ≤ vec_len buffer.old }
    requires fits { at + n ≤ vec_capacity buffer.old }
    ensures filled { buffer.new.items ≡ take at buffer.old.items ++ replicate n 1
        ++ drop (at + n) buffer.old.items }
    ensures len { vec_len buffer.new ≡ max (vec_len buffer.old) (at + n) }
    ensures capacity { vec_capacity buffer.old ≤ vec_capacity buffer.new }
{
    if at + n < buffer.len() {
        buffer[at..at + n].fill(1);
        return;
    }
    buffer.truncate(at);
    let Ok(()) = buffer.resize(at + n, 1) else {
        unreachable!();
    };
}

// Puts the rest of `other` from a place on up to which the two are alike.
#[tactic(auto, using(crate::proofs::Contents::followed))]
fn follow_on(buffer: &mut Vec<u8>, other: &[u8], from: usize)
    requires place { from ≤ vec_len buffer.old }
    requires other_place { from ≤ length other.now }
    requires fits { length other.now ≤ vec_capacity buffer.old }
    requires alike { take from buffer.old.items ≡ take from other.now }
    ensures followed { take (length other.now) buffer.new.items ≡ other.now }
    ensures len { vec_len buffer.new ≡ max (vec_len buffer.old) (length other.now) }
    ensures capacity { vec_capacity buffer.old ≤ vec_capacity buffer.new }
{
    put(buffer, from, &other[from..]);
}
