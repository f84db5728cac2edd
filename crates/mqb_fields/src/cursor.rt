ghost use Rattle.std.specs.Prelude.{◌≡◌, OnErr};
ghost use Rattle.mqb_fields.specs.Reading.{Moves, Reads, ReadsAs, after, guid_at, number_at};
ghost use Rattle.mqb_fields.specs.Reading.{part_at, rest_of};

use crate::faults::Short;
use crate::guids::swapped;
use byteorder::{ByteOrder, LittleEndian};
use std::marker::Model;

/// A place in a list of bytes, up to which it was read.
#[derive(Debug, Drop)]
pub struct Cursor<'a> {
    bytes: &'a [u8],
    at: usize,
}

impl<'a> Model for Cursor<'a> {
    ghost use Rattle.std.specs.Prelude.{◌≤◌, length};
    ghost use Rattle.mqb_fields.specs.Reading.{Reading};

    ghost Value = { Reading };

    ghost view = { λ c. record { bytes = c.bytes.now; at = c.at } };

    ghost invariant = { λ c. c.at ≤ length c.bytes.now };
}

impl<'a> Cursor<'a> {
    /// At the start.
    pub fn new(bytes: &'a [u8]) -> Cursor<'a>
        ensures { result ≡ record { bytes = bytes.now; at = 0 } }
    {
        Cursor { bytes, at: 0 }
    }

    /// Another cursor at the same place: what reads ahead with it leaves this one.
    pub fn fork(&self) -> Cursor<'a>
        ensures { result ≡ self.now }
    {
        Cursor {
            bytes: self.bytes,
            at: self.at,
        }
    }

    pub fn at(&self) -> usize
        ensures { result ≡ self.now.at }
    {
        self.at
    }

    /// The bytes that are left.
    pub fn rest(&self) -> &'a [u8]
        ensures { result.now ≡ rest_of self.now }
    {
        let bytes = self.bytes;
        &bytes[self.at..]
    }

    /// The next `count` bytes.
    pub fn take(&mut self, count: usize) -> Result<&'a [u8], Short>
        ensures read { ReadsAs (λ part. part.now) (part_at count) self.old self.new result }
        ensures stays { OnErr result (self.new ≡ self.old) }
    {
        let bytes = self.bytes;
        if bytes.len() - self.at < count {
            return Err(Short { at: self.at });
        }
        let start = self.at;
        self.at = start + count;
        Ok(&bytes[start..start + count])
    }

    pub fn skip(&mut self, count: usize) -> Result<(), Short>
        ensures read { Moves (after count) self.old self.new result }
        ensures stays { OnErr result (self.new ≡ self.old) }
    {
        self.take(count)?;
        Ok(())
    }

    pub fn u8(&mut self) -> Result<u8, Short>
        ensures read { Reads (number_at 1) self.old self.new result }
        ensures stays { OnErr result (self.new ≡ self.old) }
    {
        Ok(self.take(1)?[0])
    }

    pub fn u16(&mut self) -> Result<u16, Short>
        ensures read { Reads (number_at 2) self.old self.new result }
        ensures stays { OnErr result (self.new ≡ self.old) }
    {
        Ok(LittleEndian::read_u16(self.take(2)?))
    }

    pub fn u32(&mut self) -> Result<u32, Short>
        ensures read { Reads (number_at 4) self.old self.new result }
        ensures stays { OnErr result (self.new ≡ self.old) }
    {
        Ok(LittleEndian::read_u32(self.take(4)?))
    }

    /// The bytes of a GUID, in the order of its text.
    pub fn guid(&mut self) -> Result<[u8; 16], Short>
        ensures read { Reads guid_at self.old self.new result }
        ensures stays { OnErr result (self.new ≡ self.old) }
    {
        Ok(swapped(self.take(16)?))
    }
}
