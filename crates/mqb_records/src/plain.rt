ghost use Rattle.std.specs.Prelude.{◌*◌, ◌+◌, ◌≡◌, ◌≤◌, Err, OnOk, false, option_map};
ghost use Rattle.mqb_contents.specs.Rooms.{IsGrown};
ghost use Rattle.mqb_drafts.specs.Drafts.{HasNext};
ghost use Rattle.mqb_model.specs.records.Plain.{plain_lines};
ghost use Rattle.mqb_model.specs.records.Reading.{user_packet_of};
ghost use Rattle.mqb_model.specs.records.Record as entry;
ghost use Rattle.mqb_model.specs.rules.Effects.{joined};
ghost use Rattle.mqb_model.specs.rules.Numbers.{numbers_taken};
ghost use Rattle.mqb_model.specs.rules.Sends.{plain_sent};
ghost use Rattle.mqb_model.specs.state.Resolving.{is_here};
ghost use Rattle.mqb_records.specs.Applied.{IsApplied, IsFew};
ghost use Rattle.mqb_records.specs.Unfit.{is_fit};
ghost use Rattle.mqb_arrivals.specs.declared.faults.RecordFault.TheVariants as fault;

use crate::packets::{discard, is_sendable};
use mqb_arrivals::{RecordFault, user_packet_of};
use mqb_base::{Line, Memory, Message};
use mqb_drafts::Draft;
use mqb_entries::PacketSlice;
use mqb_model::Target;
use mqb_packet::Headers;
use mqb_rules::{plain_sent, resolved};

fn is_here(target: Target) -> bool
    ensures { result ≡ is_here target }
{
    matches!(target, Target::Here(_))
}

/// The line of a message is noted where it is put here.
fn note_local(draft: &mut Draft, message: &Message) -> Result<(), Memory>
    ensures ok { OnOk result (draft.new.effect ≡ joined draft.old.effect
        (record {
          state = draft.old.effect.state;
          lines = plain_lines draft.old.effect.state message.now;
        })) }
    ensures start { draft.new.start ≡ draft.old.start }
    ensures grown { IsGrown draft.old.rooms draft.new.rooms }
    ensures held { OnOk result (draft.new.held ≤ draft.old.held) }
{
    if is_here(resolved(draft.contents(), &message.destination)) {
        draft.note(Line::Local { id: message.id })
    } else {
        Ok(())
    }
}

/// The line of a message is noted, and its number is taken.
fn number_message(draft: &mut Draft, message: &Message) -> Result<(), Memory>
    requires { HasNext draft.old.effect.state.next_number }
    ensures ok { OnOk result (draft.new.effect ≡ joined draft.old.effect
        (record {
          state = numbers_taken draft.old.effect.state 1;
          lines = plain_lines draft.old.effect.state message.now;
        })) }
    ensures start { draft.new.start ≡ draft.old.start }
    ensures grown { IsGrown draft.old.rooms draft.new.rooms }
    ensures held { OnOk result (draft.new.held ≤ draft.old.held) }
{
    note_local(draft, message)?;
    draft.take_number()
}

/// The manager's own message takes its number and is sent.
fn send_message(draft: &mut Draft, message: Message, now: u32) -> Result<(), Memory>
    requires { HasNext draft.old.effect.state.next_number }
    ensures ok { OnOk result (draft.new.effect ≡ joined draft.old.effect
        (record {
          state = plain_sent (numbers_taken draft.old.effect.state 1) message now;
          lines = plain_lines draft.old.effect.state message;
        })) }
    ensures start { draft.new.start ≡ draft.old.start }
    ensures grown { IsGrown draft.old.rooms draft.new.rooms }
    ensures held { OnOk result (draft.new.held ≤ draft.old.held + 3) }
{
    match number_message(draft, &message) {
        Ok(()) => plain_sent(draft, message, now),
        Err(memory) => {
            let _message = message;
            Err(memory)
        }
    }
}

/// Tries the record Plain.
pub(crate) fn send_plain(
    draft: &mut Draft,
    now: u32,
    packet: &PacketSlice<'_>,
) -> Result<(), RecordFault>
    ensures ok { OnOk result (IsApplied draft.old.effect
        (option_map (λ p. entry.Plain now p) (user_packet_of packet.now)) draft.new.effect) }
    ensures start { draft.new.start ≡ draft.old.start }
    ensures grown { IsGrown draft.old.rooms draft.new.rooms }
    ensures few { OnOk result (IsFew draft.old.effect.state
        (option_map (λ p. entry.Plain now p) (user_packet_of packet.now))
        draft.old.held draft.new.held) }
    ensures unfit { result ≡ Err fault.Unfit → is_fit draft.old.effect.state
        (option_map (λ p. entry.Plain now p) (user_packet_of packet.now)) ≡ false }
{
    let Some(packet) = user_packet_of(draft.alloc(), packet)? else {
        return Err(RecordFault::Unfit);
    };
    let number = draft.contents().next_number();
    if !is_sendable(draft.contents(), Headers::Session, number, &packet) {
        discard(packet);
        return Err(RecordFault::Unfit);
    }
    send_message(draft, packet.message, now)?;
    Ok(())
}
