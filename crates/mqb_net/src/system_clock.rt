ghost use Rattle.std.specs.Prelude.{None};

use mqb_outside::Clock;
use std::time::{SystemTime, UNIX_EPOCH};

/// The clock of the operating system.
#[derive(Drop)]
pub struct SystemClock {
    rt: HostRuntime,
    asked: u64,
}

impl SystemClock {
    pub fn new(rt: &HostRuntime) -> SystemClock {
        SystemClock { rt: *rt, asked: 0 }
    }
}

// The seconds since 1970, where the system tells a time from then on.
fn seconds(rt: &HostRuntime) -> Option<u64> {
    let now = SystemTime::now(rt).ok()?;
    Some(now.duration_since(UNIX_EPOCH).ok()?.as_secs())
}

impl Clock for SystemClock {
    ghost steady = { λ _. None };

    ghost asked = { λ clock. clock.asked };

    /// It is 0 where the system tells no time or one before 1970, and the greatest
    /// moment for each later one.
    fn now(&mut self) -> u32 {
        self.asked = self.asked.saturating_add(1);
        let seconds = seconds(&self.rt).unwrap_or(0);
        u32::try_from(seconds).unwrap_or(u32::MAX)
    }
}
