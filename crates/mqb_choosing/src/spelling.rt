ghost use Rattle.std.specs.Prelude.{◌≡◌, ◌≤◌, ◌+◌, ◌++◌, All, IsSome, IsSomeAnd, flat_map, length};
ghost use Rattle.std.specs.Vec.{vec_capacity};
ghost use Rattle.mqb_packet.specs.Plain.{plain_spelling};
ghost use Rattle.mqb_packet.specs.Values.{IsPacket};
ghost use Rattle.mqb_model.specs.calls.pump.Choosing.{candidate_size};
ghost use Rattle.mqb_model.specs.calls.pump.Pump.{carriage_for, packet_for};
ghost use Rattle.mqb_choosing.specs.Choices.{IsThere, bytes_in, coming_from, shown};
ghost use Rattle.mqb_choosing.specs.Choices.{shown_in, tx_for};

use crate::choice::{Choice, Origin};
use crate::choosing::Choices;
use crate::values::packet_fits;
use mqb_base::{Guid, Message, TxHead, remaining};
use mqb_contents::Contents;
use mqb_packet::{Carriage, PutFault, plain_size, put_message};

fn tx_for(origin: &Origin) -> Option<TxHead>
    ensures { result ≡ tx_for origin.now }
{
    match origin {
        Origin::Kept { tx, .. } => Some(*tx),
        _ => None,
    }
}

/// What a packet has beside its message: what is left of its time, and its headers.
fn carriage_for(choice: &Choice, message: &Message, to: Guid, now: u32) -> Carriage
    ensures { result ≡ carriage_for to now
        (coming_from choice.now.origin message.now, choice.now.head) }
{
    Carriage {
        to,
        remaining: remaining(message.sent, message.reach, now),
        tx: tx_for(&choice.origin),
        session: Some(choice.head),
    }
}

/// Adds a packet that can be carried, where there is room for it.
fn put_choice(contents: &Contents, choice: &Choice, to: Guid, now: u32, out: &mut Vec<u8>)
    requires there { IsThere contents.now.lists choice.now }
    requires room { IsSomeAnd (shown contents.now.lists choice.now) (λ given.
        length out.old.items + candidate_size given.0 ≤ vec_capacity out.old) }
    ensures put { IsSomeAnd (shown contents.now.lists choice.now) (λ given.
        out.new.items ≡ out.old.items ++ plain_spelling (packet_for to now given)) }
    ensures fits { IsSomeAnd (shown contents.now.lists choice.now)
        (λ given. IsPacket (packet_for to now given)) }
    ensures grown { vec_capacity out.old ≤ vec_capacity out.new }
{
    let message = choice.origin.message(contents);
    let carriage = carriage_for(choice, message, to, now);
    packet_fits(message, &carriage);
    match put_message(message, &carriage, out) {
        Ok(()) => {}
        Err(PutFault::Memory) => unreachable!(),
        Err(PutFault::TooLarge) => unreachable!(),
    }
}

/// Adds the packets to the manager `to`, in order, where there is room for
/// them. It takes no memory.
pub fn put_choices(contents: &Contents, choices: &Choices, to: Guid, now: u32, out: &mut Vec<u8>)
    requires there { All (IsThere contents.now.lists) choices.now.choices }
    requires room { length out.old.items + bytes_in contents.now.lists choices.now.choices
        ≤ vec_capacity out.old }
    ensures put { out.new.items ≡ out.old.items ++
        flat_map (λ given. plain_spelling (packet_for to now given))
        (shown_in contents.now.lists choices.now.choices) }
    // Their numbers fit their types, so that they can be read back.
    ensures fits { All (λ given. IsPacket (packet_for to now given))
        (shown_in contents.now.lists choices.now.choices) }
{
    plain_size();
    for choice in choices.as_slice() {
        put_choice(contents, choice, to, now, out);
    }
}
