ghost use Rattle.std.specs.Prelude.{◌≡◌, ◌≢◌, ◌↔◌, IsTrue};
ghost use Rattle.mqb_base.specs.Times.{remaining, is_due};

/// The time to reach a queue or to be received that is without limit.
pub const UNLIMITED: u32 = 0xFFFF_FFFF;

/// The seconds that are left at `now` of `reach` seconds from `moment` on. Moments may go
/// backwards, so more may be left than there was.
pub fn remaining(moment: u32, reach: u32, now: u32) -> u32
    ensures left { result ≡ remaining moment reach now }
    // Nothing is left exactly where it is due.
    ensures due { reach ≢ UNLIMITED → ((result ≡ 0) ↔ IsTrue (is_due moment reach now)) }
{
    if reach == UNLIMITED {
        return UNLIMITED;
    }
    let end = u64::from(moment) + u64::from(reach);
    end.saturating_sub(u64::from(now))
        .min(u64::from(UNLIMITED - 1)) as u32
}

/// Whether `life` seconds from `moment` on are over at `now`.
pub fn is_due(moment: u32, life: u32, now: u32) -> bool
    ensures { result ≡ is_due moment life now }
{
    life != UNLIMITED && u64::from(moment) + u64::from(life) <= u64::from(now)
}
