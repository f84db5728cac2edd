use mqb_base::Memory;
use mqb_outside::Medium;
use std::cell::Cell;

/// A medium that counts how often it was asked for a packet.
#[derive(Debug, Drop)]
pub(crate) struct CountingMedium<M> {
    pub(crate) inner: M,
    pub(crate) asked: Cell<u32>,
}

impl<M: Medium> Medium for CountingMedium<M> {
    ghost strings = { λ m. M.strings m.inner };

    ghost counted = { λ m. M.counted m.inner };

    fn add(&mut self, bytes: &[u8]) -> Result<(), Memory> {
        self.inner.add(bytes)
    }

    fn count(&self) -> u32 {
        self.inner.count()
    }

    fn bytes(&self) -> u64 {
        self.inner.bytes()
    }

    fn packet(&self, k: u32) -> &[u8] {
        self.asked.set(self.asked.get().wrapping_add(1));
        self.inner.packet(k)
    }
}
