//! The line of a step.
ghost use Rattle.std.specs.Prelude.{[], ◌++◌, ◌≡◌, IfOk, OnOk, codes};
ghost use Rattle.mqb_replies.specs.Replies.{commit_fault_reply};
ghost use Rattle.mqb_transcript.specs.Printing.{wrote};
ghost use Rattle.mqb_transcript.specs.Texts.{id_text};
ghost use Rattle.mqb_work.specs.Lines.{blocked_line, done_line, reply_text, step_line, turn_line};

use mqb_base::{Identity, Memory, MessageId};
use mqb_model::CommitFault;
use mqb_replies::{Answer, reply_of};
use mqb_transcript::{Listed, Printer, print_reply};
use mqb_worker::Step;
use std::alloc::Global;

/// The identifier of a reply, or that there is none.
#[tactic(auto, unfolding(crate::specs::Lines::reply_text))]
fn put_reply(printer: &mut Printer<'_>, reply: Option<MessageId>) -> Result<(), Memory>
    ensures { OnOk result (printer.new ≡
        wrote printer.old (reply_text printer.old.hosts reply)) }
{
    match reply {
        Some(id) => printer.id(&id),
        None => printer.put(b"-"),
    }
}

#[tactic(auto, using(mqb_transcript::specs::lemmas::Wrote::writing), unfolding(crate::specs::Lines::done_line))]
fn put_done(
    printer: &mut Printer<'_>,
    id: MessageId,
    reply: Option<MessageId>,
) -> Result<(), Memory>
    ensures { OnOk result (printer.new ≡
        wrote printer.old (done_line printer.old.hosts id reply)) }
{
    printer.about(b"done ", &id)?;
    printer.put(b" ")?;
    put_reply(printer, reply)?;
    printer.put(b"\n")
}

#[tactic(auto, unfolding(crate::specs::Lines::step_line))]
fn put_step(printer: &mut Printer<'_>, step: Step) -> Result<(), Memory>
    ensures { OnOk result (printer.new ≡ wrote printer.old (step_line printer.old.hosts step)) }
{
    match step {
        Step::Idle => printer.put(b"idle\n"),
        Step::Done { id, reply } => put_done(printer, id, reply),
    }
}

#[tactic(auto, using(mqb_transcript::specs::lemmas::Wrote::text_wrote))]
fn step_line(alloc: Global, hosts: &[Identity], step: Step) -> Result<Vec<u8>, Memory>
    ensures { IfOk result (λ text. text.items ≡ step_line hosts.now step) }
{
    let mut printer = Printer::new(alloc, hosts);
    put_step(&mut printer, step)?;
    let text = Vec::from_slice(alloc, printer.text())?;
    Ok(text)
}

/// The line of a refusal, as a script has it. There is none where the disk
/// failed or memory ran out.
fn blocked_line(alloc: Global, hosts: &[Identity], fault: CommitFault) -> Result<Vec<u8>, Memory>
    ensures { IfOk result (λ text. text.items ≡
        blocked_line hosts.now (commit_fault_reply fault)) }
{
    let mut text = Vec::new(alloc);
    let answer = Answer::Committed(Err(fault));
    if let Ok(reply) = reply_of(&answer, Listed::new(alloc)) {
        text.extend_from_slice(b"blocked ")?;
        print_reply(alloc, None, &reply, hosts, &mut text)?;
    }
    Ok(text)
}

pub(crate) fn turn_line(
    alloc: Global,
    hosts: &[Identity],
    answer: Result<Step, CommitFault>,
) -> Result<Vec<u8>, Memory>
    ensures { IfOk result (λ text. text.items ≡ turn_line hosts.now answer) }
{
    match answer {
        Ok(step) => step_line(alloc, hosts, step),
        Err(fault) => blocked_line(alloc, hosts, fault),
    }
}
