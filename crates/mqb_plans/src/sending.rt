ghost use Rattle.std.specs.Prelude.{◌≡◌, IfErr, IfOk, false, true};
ghost use Rattle.mqb_base.specs.Messages.{IsWellFormed};
ghost use Rattle.mqb_base.specs.declared.message.Delivery.TheVariants.{Recoverable};
ghost use Rattle.mqb_model.specs.calls.Send.{send};
ghost use Rattle.mqb_model.specs.laws.Fitting.{IsDrafted};
ghost use Rattle.mqb_model.specs.records.Packets.{is_too_large};
ghost use Rattle.mqb_packet.specs.declared.packet.Headers.TheVariants as headers;
ghost use Rattle.mqb_plans.specs.Answers.{send_plan};
ghost use Rattle.mqb_plans.specs.Calls.{sending};
ghost use Rattle.mqb_plans.specs.Plans.{CanWrite, ComesTo, KeepsStore, KeepsValid, RefusesSend};

use crate::messages::plain_message;
use crate::recording::SentRecord;
use crate::refusals::{message_fault, target_fault};
use crate::values::draft_fits;
use mqb_base::{Draft, Message, MessageId};
use mqb_contents::Contents;
use mqb_model::{SendFault, calls_keep_valid, calls_leave_store, records_are_read, records_fit};
use mqb_rules::{guid_at, resolved};
use mqb_timeouts::ExpressWork;

/// A message that is to be sent: a recoverable one by its record, and an express one without.
#[derive(Debug, Drop)]
pub struct Sending {
    /// The message's identifier, for the answer.
    pub id: MessageId,
    /// What is to be written.
    pub sent: SentRecord,
    /// What is to be done beside it.
    pub work: ExpressWork,
}

#[tactic(auto, using(crate::proofs::Telling::can_tell))]
fn send_recoverable(contents: &Contents, message: Message, now: u32) -> Sending
    requires well_formed { IsWellFormed message }
    requires recoverable { message.delivery ≡ Recoverable }
    requires size { is_too_large headers.Session message ≡ false }
    ensures plan { send_plan result ≡ sending contents.now.lists true now message }
    ensures id { result.id ≡ message.id }
{
    let to = guid_at(contents, resolved(contents, &message.destination));
    Sending {
        id: message.id,
        sent: SentRecord::new(message, to, now),
        work: ExpressWork::Nothing,
    }
}

fn send_express(contents: &Contents, message: Message, now: u32) -> Sending
    ensures plan { send_plan result ≡ sending contents.now.lists false now message }
    ensures id { result.id ≡ message.id }
{
    Sending {
        id: message.id,
        sent: SentRecord::none(now),
        work: ExpressWork::Sends { now, message },
    }
}

/// A message that no reason is against is to be sent.
fn send_message(contents: &Contents, message: Message, recoverable: bool, now: u32) -> Sending
    requires well_formed { IsWellFormed message }
    requires recoverable { recoverable ≡ true → message.delivery ≡ Recoverable }
    requires size { is_too_large headers.Session message ≡ false }
    ensures plan { send_plan result ≡ sending contents.now.lists recoverable now message }
    ensures id { result.id ≡ message.id }
{
    if recoverable {
        send_recoverable(contents, message, now)
    } else {
        send_express(contents, message, now)
    }
}

fn send(
    contents: &Contents,
    draft: &Draft,
    recoverable: bool,
    now: u32,
) -> Result<Sending, SendFault>
    ensures planned { IfOk result (λ t. ComesTo contents.now.lists
        (λ m. send m draft.now recoverable now) (send_plan t) t.id) }
    ensures refused { IfErr result (RefusesSend contents.now.lists
        (λ m. send m draft.now recoverable now)) }
{
    let parts = draft.parts();
    if let Some(fault) = target_fault(contents, resolved(contents, &parts.destination)) {
        return Err(fault);
    }
    let message = plain_message(contents, parts, recoverable, now)?;
    if let Some(fault) = message_fault(contents, recoverable, &message) {
        return Err(fault);
    }
    Ok(send_message(contents, message, recoverable, now))
}

/// A message of what its sender chose is to be sent, outside of transactions. It is made once, and
/// spelled where its entry is put. A refusal is the first reason against it in the order of
/// `SendFault`, or want of memory.
pub fn plan_send(
    contents: &Contents,
    draft: &Draft,
    recoverable: bool,
    now: u32,
) -> Result<Sending, SendFault>
    ensures planned { IfOk result (λ t. ComesTo contents.now.lists
        (λ m. send m draft.now recoverable now) (send_plan t) t.id) }
    ensures refused { IfErr result (RefusesSend contents.now.lists
        (λ m. send m draft.now recoverable now)) }
    ensures writable { IfOk result (λ t. CanWrite contents.now.lists (send_plan t)) }
    ensures stays_valid { IfOk result (λ t. KeepsValid contents.now.lists (send_plan t)) }
    ensures stays_stored { IfOk result (λ t. KeepsStore contents.now.lists (send_plan t)) }

    // What a sender chooses is sound.
    ensures drafted { IsDrafted draft.now }
{
    draft_fits(draft);
    records_fit();
    records_are_read();
    calls_keep_valid();
    calls_leave_store();
    send(contents, draft, recoverable, now)
}
