ghost use Rattle.std.specs.Prelude.{◌≡◌, IfOk};
ghost use Rattle.mqb_model.specs.calls.Call.{requested};
ghost use Rattle.mqb_moves.specs.Seats.{IsHeldOn, seated};
ghost use Rattle.mqb_replies.specs.Requests.{IsFormed, seen_request};
ghost use Rattle.mqb_seats.specs.Called.{IsCalled};
ghost use Rattle.mqb_seats.specs.Lasting.{Lasts};

use crate::called::{Called, how};
use crate::seat::Seat;
use mqb_base::Memory;
use mqb_model::refused_is_same;
use mqb_moves::down_refuses_all;
use mqb_outside::Power;
use mqb_replies::{AnswerFault, Request, ask, lines_since, reply_of, requests_are_replied};
use mqb_store_laws::images_open_to_one;
use mqb_transcript::Reply;

impl Seat {
    /// Makes a request of the manager. One that is down makes none.
    pub fn ask<P: Power>(&mut self, disk: &mut P, request: Request<'_>) -> Result<Called, Memory>
        requires formed { IsFormed (seen_request request) }
        requires held { IsHeldOn (P.view disk.old) self.old }
        ensures called { IfOk result (IsCalled (P.view disk.old) (P.view disk.new)
            (P.is_stopped disk.new) self.old self.new
            (requested (seated self.old) (seen_request request.entry))) }
        ensures switch { (P.view disk.new).switch ≡ (P.view disk.old).switch }
        ensures lasts { Lasts (P.view disk.old) (P.view disk.new) self.old self.new }
    {
        images_open_to_one();
        requests_are_replied();
        down_refuses_all();
        refused_is_same();
        self.is_valid();
        if self.is_down() {
            return Ok(Called::Told {
                reply: Reply::Down,
                recorded: false,
            });
        }
        let before = self.manager.lsn();
        let answer = ask(&mut self.manager, disk, request);
        let lines = lines_since(self.alloc, &self.manager, before)?;
        match reply_of(&answer, lines) {
            Ok(reply) => Ok(Called::Told {
                reply,
                recorded: self.manager.lsn() != before,
            }),
            Err(AnswerFault::Memory) => Err(Memory),
            Err(AnswerFault::DiskFault) => Ok(Called::Broke(how(disk))),
        }
    }
}
