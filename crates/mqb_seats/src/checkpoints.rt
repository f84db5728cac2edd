//! How the state of a manager is written anew, in place of its records.
ghost use Rattle.std.specs.Prelude.{◌≡◌, IfOk};
ghost use Rattle.mqb_moves.specs.Seats.{IsHeldOn};
ghost use Rattle.mqb_seats.specs.Called.{IsRewritten, TellsRewritten};
ghost use Rattle.mqb_seats.specs.Lasting.{Lasts};

use crate::called::{Called, how};
use crate::seat::Seat;
use mqb_base::Memory;
use mqb_journal::CheckpointFault;
use mqb_model::refused_is_same;
use mqb_outside::Power;
use mqb_replies::{AnswerFault, checkpoint_reply};
use mqb_store_laws::images_open_to_one;
use mqb_transcript::Reply;

/// What became of a checkpoint, by what the manager answered.
fn rewritten<P: Power>(disk: &P, answer: Result<(), CheckpointFault>) -> Result<Called, Memory>
    ensures { IfOk result (TellsRewritten (P.is_stopped disk.now) answer) }
{
    match checkpoint_reply(answer) {
        Ok(reply) => Ok(Called::Told {
            reply,
            recorded: false,
        }),
        Err(AnswerFault::Memory) => Err(Memory),
        Err(AnswerFault::DiskFault) => Ok(Called::Broke(how(disk))),
    }
}

impl Seat {
    /// Writes the state of the manager anew, in place of its records. One that is
    /// down writes nothing.
    pub fn checkpoint<P: Power>(&mut self, disk: &mut P) -> Result<Called, Memory>
        requires held { IsHeldOn (P.view disk.old) self.old }
        ensures rewritten { IfOk result (IsRewritten (P.view disk.old) (P.view disk.new)
            (P.is_stopped disk.new) self.old self.new) }
        ensures switch { (P.view disk.new).switch ≡ (P.view disk.old).switch }
        ensures lasts { Lasts (P.view disk.old) (P.view disk.new) self.old self.new }
    {
        images_open_to_one();
        refused_is_same();
        self.is_valid();
        if self.is_down() {
            return Ok(Called::Told {
                reply: Reply::Down,
                recorded: false,
            });
        }
        let answer = self.manager.checkpoint(disk);
        rewritten(disk, answer)
    }
}
