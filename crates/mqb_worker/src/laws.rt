ghost use Rattle.mqb_worker.specs.Laws.{EachTakenIsAnswered};
ghost use Rattle.mqb_worker.specs.Twice.{NoneIsTakenTwice};

use mqb_history::{always_copied_rightly, always_received_truly};

/// Over every list of calls, of disks that fail under them and of starts over what they left, in
/// which only steps take from the queue: each record that takes a message from it is a worker's,
/// which answers that message where it asks for that.
pub fn each_taken_is_answered()
    ensures { EachTakenIsAnswered }
{}

/// In each run of a network of managers that differ no message that was sent in a transaction, or
/// put where it was sent, is taken twice.
pub fn none_is_taken_twice()
    ensures { NoneIsTakenTwice }
{
    always_copied_rightly();
    always_received_truly();
}
