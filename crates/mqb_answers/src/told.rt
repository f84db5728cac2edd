//! What is told of what a manager's calls answer. `lines` are those of the call's record, and none
//! where it wrote none.
ghost use Rattle.std.specs.Prelude.{◌≡◌};
ghost use Rattle.mqb_answers.specs.Told.{answer_told, end_by, peer_fault_told, peer_told, taken_by};
ghost use Rattle.mqb_answers.specs.Told.{told_line, told_reply};
ghost use Rattle.mqb_replies.specs.Requests.{seen_answer};

use mqb_base::{Line, Message};
use mqb_model::{AddPeerFault, Committed};
use mqb_replies::{Answer, AnswerFault, reply_of};
use mqb_transcript::{Listed, Reply};

/// How a call ended that has an answer: it was done, or the manager refused it.
#[derive(Clone, Copy, Debug, PartialEq, Eq)]
pub enum CallEnd {
    Done,
    Refused,
}

/// The line of a call.
#[derive(Debug, Drop)]
pub enum Said {
    /// as a script has it
    Reply(Reply),
    /// `peerthere`: the host or the GUID is known already
    PeerThere,
    /// `toomanypeers`
    TooManyPeers,
}

/// The messages that a call took.
#[derive(Debug, Drop)]
pub enum Taken {
    Nothing,
    One(Message),
    ByOps(Committed),
}

/// What is told of a call.
#[derive(Debug, Drop)]
pub struct Told {
    pub said: Said,
    pub end: CallEnd,
    pub taken: Taken,
}

fn end_by(done: bool) -> CallEnd
    ensures { result ≡ end_by done }
{
    if done {
        CallEnd::Done
    } else {
        CallEnd::Refused
    }
}

fn told_reply(
    end: CallEnd,
    taken: Taken,
    reply: Result<Reply, AnswerFault>,
) -> Result<Told, AnswerFault>
    ensures { result ≡ told_reply end taken reply }
{
    match reply {
        Ok(reply) => Ok(Told {
            said: Said::Reply(reply),
            end,
            taken,
        }),
        Err(fault) => Err(fault),
    }
}

fn told_line(end: CallEnd, said: Said) -> Result<Told, AnswerFault>
    ensures { result ≡ told_line end said }
{
    Ok(Told {
        said,
        end,
        taken: Taken::Nothing,
    })
}

fn peer_fault_told(fault: AddPeerFault) -> Result<Told, AnswerFault>
    ensures { result ≡ peer_fault_told fault }
{
    match fault {
        AddPeerFault::Down => told_line(CallEnd::Refused, Said::Reply(Reply::Down)),
        AddPeerFault::PeerThere => told_line(CallEnd::Refused, Said::PeerThere),
        AddPeerFault::TooManyPeers => told_line(CallEnd::Refused, Said::TooManyPeers),
        AddPeerFault::Memory => Err(AnswerFault::Memory),
        AddPeerFault::DiskFault => Err(AnswerFault::DiskFault),
    }
}

pub(crate) fn peer_told(answer: Result<u32, AddPeerFault>) -> Result<Told, AnswerFault>
    ensures { result ≡ peer_told answer }
{
    match answer {
        Ok(_) => told_line(CallEnd::Done, Said::Reply(Reply::Done)),
        Err(fault) => peer_fault_told(fault),
    }
}

fn taken_by(answer: Answer) -> Taken
    ensures { result ≡ taken_by (seen_answer answer) }
{
    match answer {
        Answer::Took(Ok(message)) => Taken::One(message),
        Answer::Committed(Ok(committed)) => Taken::ByOps(committed),
        _ => Taken::Nothing,
    }
}

/// What is told of a request.
pub(crate) fn answer_told(answer: Answer, lines: Listed<Line>) -> Result<Told, AnswerFault>
    ensures { result ≡ answer_told (seen_answer answer) lines }
{
    let end = end_by(answer.is_done());
    let reply = reply_of(&answer, lines);
    told_reply(end, taken_by(answer), reply)
}
