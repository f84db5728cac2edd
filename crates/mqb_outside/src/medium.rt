ghost use Rattle.std.specs.Prelude.{◌≡◌, ◌+◌, ◌-◌, ◌^◌, ◌<◌, ◌≤◌, ℕ, List, [], ◌∷◌, ◌++◌, Some};
ghost use Rattle.std.specs.Prelude.{length, OnOk, OnErr, slice_get};
ghost use Rattle.mqb_outside.specs.Strings.{bytes_in, IsCounted};

use mqb_base::{Bytes, Memory};
use std::alloc::Global;

/// A list of strings: the packets that were ever sent, in order.
pub trait Medium {
    ghost strings: { Self → List (List ℕ) };

    /// Puts a copy of a string at the end.
    fn add(&mut self, bytes: &[u8]) -> Result<(), Memory>
        requires count { length (strings self.old) + 1 < 2 ^ 32 }
        requires bytes { bytes_in (strings self.old) + length bytes.now < 2 ^ 64 }
        ensures added { OnOk result (strings self.new ≡ strings self.old ++ bytes.now ∷ []) }
        ensures unchanged { OnErr result (strings self.new ≡ strings self.old) };

    /// How many there are.
    fn count(&self) -> u32
        ensures { result ≡ length (strings self.now) };

    /// The sum of their lengths.
    fn bytes(&self) -> u64
        ensures { result ≡ bytes_in (strings self.now) };

    /// String `k`, counted from 1.
    fn packet(&self, k: u32) -> &[u8]
        requires there { 1 ≤ k }
        requires last { k ≤ length (strings self.now) }
        ensures { slice_get (strings self.now) (k - 1) ≡ Some result.now };

    ghost counted: { (medium : Self) → IsCounted (strings medium) };
}

/// A medium in memory.
#[derive(Debug, Drop)]
pub struct MemoryMedium {
    alloc: Global,
    strings: Vec<Bytes>,
    bytes: u64,
    ghost sum: { bytes ≡ bytes_in strings.items },
    ghost counted: { IsCounted strings.items },
}

impl MemoryMedium {
    /// It is empty.
    pub fn new(alloc: Global) -> MemoryMedium
        ensures { ⟦<MemoryMedium as Medium>⟧.strings result ≡ [] }
    {
        MemoryMedium {
            alloc,
            strings: Vec::new(alloc),
            bytes: 0,
        }
    }
}

impl Medium for MemoryMedium {
    ghost strings = { λ m. m.strings.items };

    ghost counted = { λ m. m.counted };

    fn add(&mut self, bytes: &[u8]) -> Result<(), Memory> {
        let string = Bytes::from_slice(self.alloc, bytes)?;
        self.strings.push(string)?;
        self.bytes += bytes.len() as u64;
        Ok(())
    }

    fn count(&self) -> u32 {
        self.strings.len() as u32
    }

    fn bytes(&self) -> u64 {
        self.bytes
    }

    fn packet(&self, k: u32) -> &[u8] {
        self.strings[(k - 1) as usize].as_slice()
    }
}
