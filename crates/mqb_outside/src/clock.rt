ghost use Rattle.std.specs.Prelude.{◌≡◌, ℕ, Option, Some, None, IfSome};
ghost use Rattle.mqb_outside.specs.Disk.{Counted};
ghost use Rattle.mqb_outside.specs.Faults.{END};

/// Tells moments, in seconds since 1970. They may go backwards.
pub trait Clock {
    /// The one moment that each call gives, where the clock is steady.
    ghost steady: { Self → Option ℕ };

    /// How often it was asked. The count of a clock that does not count stands at its end.
    ghost asked: { Self → ℕ };

    fn now(&mut self) -> u32
        ensures moment { IfSome (steady self.old) (λ moment. result ≡ moment) }
        ensures stays { steady self.new ≡ steady self.old }
        ensures asked { Counted 1 (asked self.old) (asked self.new) };
}

/// A clock that stands still.
#[derive(Clone, Copy, Debug, PartialEq, Eq)]
pub struct FixedClock(pub u32);

impl Clock for FixedClock {
    ghost steady = { λ clock. Some clock.0 };

    ghost asked = { λ _. END };

    fn now(&mut self) -> u32 {
        self.0
    }
}
