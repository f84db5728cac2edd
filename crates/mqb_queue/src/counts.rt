ghost use Rattle.std.specs.Prelude.{◌≡◌, ◌<◌, ◌≤◌, ◌+◌, ◌-◌, ℕ, set, slice_index};
ghost use Rattle.mqb_queue.specs.Levels.{level};

use mqb_base::MAX_PRIORITY;

/// How many levels of priorities are counted.
pub(crate) const LEVELS: usize = 8;

/// The level at which a priority is counted.
pub(crate) fn level(priority: u8) -> usize
    ensures level { result ≡ level priority }
    ensures within { result < 8 }
{
    priority.min(MAX_PRIORITY) as usize
}

/// Counts one more message. There is room for more than are counted.
pub(crate) fn count_more(counts: &mut [usize; LEVELS], priority: u8, room: usize)
    requires { slice_index counts.old (level priority) < room }
    ensures { counts.new ≡ set counts.old (level priority)
        (slice_index counts.old (level priority) + 1) }
{
    counts[level(priority)] += 1;
}

pub(crate) fn count_less(counts: &mut [usize; LEVELS], priority: u8)
    requires { 0 < slice_index counts.old (level priority) }
    ensures { counts.new ≡ set counts.old (level priority)
        (slice_index counts.old (level priority) - 1) }
{
    counts[level(priority)] -= 1;
}

/// None of the counted messages has a greater priority, where none has a greater one than `top`.
pub(crate) fn bound_of(counts: &[usize; LEVELS], top: u8) -> u8
    ensures { (p : ℕ) → p ≤ top → 0 < slice_index counts.now (level p) → p ≤ result }
{
    if counts[7] > 0 {
        return top;
    }
    let mut bound: u8 = 0;
    for k in 0..7u8 {
        if counts[k as usize] > 0 {
            bound = k;
        }
    }
    bound
}
