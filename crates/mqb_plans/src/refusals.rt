ghost use Rattle.std.specs.Prelude.{◌≡◌, Some};
ghost use Rattle.std.specs.Option.{option_map_or};
ghost use Rattle.mqb_base.specs.Messages.{IsWellFormed};
ghost use Rattle.mqb_model.specs.calls.Send.{message_fault, queue_fault, target_fault};
ghost use Rattle.mqb_model.specs.declared.faults.SendFault.TheVariants as fault;
ghost use Rattle.mqb_model.specs.records.Packets.{is_too_large};
ghost use Rattle.mqb_packet.specs.declared.packet.Headers.TheVariants as headers;
ghost use Rattle.mqb_queue.specs.Places.{numbered};
ghost use Rattle.mqb_plans.specs.Sending.{fault_by};

use mqb_base::{EntryPlace, Message, QueuePlan};
use mqb_contents::Contents;
use mqb_model::{MAX_NUMBER, SendFault, Target};
use mqb_packet::{Headers, message_size};

/// Why a queue of this length takes no plain message of its own manager.
fn fault_by(plan: &QueuePlan, len: u32) -> Option<SendFault>
    ensures { result ≡ fault_by plan.now len }
{
    if plan.transactional {
        return Some(SendFault::Transactional);
    }
    if plan.quota <= len {
        return Some(SendFault::QueueFull);
    }
    None
}

/// Why the queue of a number takes none.
fn queue_fault(contents: &Contents, number: u32) -> Option<SendFault>
    ensures { result ≡ option_map_or queue_fault
        (numbered contents.now.lists.places.queues number) (Some fault.NoQueue) }
{
    let queues = contents.queues();
    let Some(plan) = queues.plan_numbered(number) else {
        return Some(SendFault::NoQueue);
    };
    let Some(len) = queues.len_at(EntryPlace::Queue(number)) else {
        return Some(SendFault::NoQueue);
    };
    fault_by(plan, len)
}

/// Why a message may not go to a target.
pub(crate) fn target_fault(contents: &Contents, target: Target) -> Option<SendFault>
    ensures { result ≡ target_fault contents.now.lists target }
{
    match target {
        Target::AtPeer(_) => None,
        Target::Nowhere => Some(SendFault::UnknownPeer),
        Target::Here(None) => Some(SendFault::NoQueue),
        Target::Here(Some(number)) => queue_fault(contents, number),
    }
}

fn is_too_large(message: &Message) -> bool
    requires { IsWellFormed message.now }
    ensures { result ≡ is_too_large headers.Session message.now }
{
    message_size(message, Headers::Session).is_err()
}

/// Why a message is not sent, the target left aside.
pub(crate) fn message_fault(
    contents: &Contents,
    recoverable: bool,
    message: &Message,
) -> Option<SendFault>
    requires { IsWellFormed message.now }
    ensures { result ≡ message_fault contents.now.lists recoverable message.now }
{
    if recoverable && contents.next_number() > MAX_NUMBER {
        return Some(SendFault::NumbersSpent);
    }
    if is_too_large(message) {
        return Some(SendFault::TooLarge);
    }
    None
}
