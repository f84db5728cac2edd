ghost use Rattle.std.specs.Prelude.{◌≡◌, option_copied};
ghost use Rattle.mqb_queue.specs.Places.{numbered};

use crate::lists::Lists;
use mqb_base::QueuePlan;

/// A queue: what it is to be, its messages, and its journal's, which are none where it keeps none.
#[derive(Debug, Drop)]
pub(crate) struct Queue {
    pub(crate) plan: QueuePlan,
    pub(crate) lists: Lists,
    pub(crate) journal: Lists,
}

/// The queue of a number, from 1, where there is one.
pub(crate) fn numbered(queues: &[Queue], number: u32) -> Option<&Queue>
    ensures { option_copied result ≡ numbered queues.now number }
{
    match number {
        0 => None,
        _ => queues.get(number as usize - 1),
    }
}
