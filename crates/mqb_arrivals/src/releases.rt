ghost use Rattle.std.specs.Prelude.{◌<◌, ◌≡◌, ◌≤◌, Err, IfSome, None, OnOk, Some, false, length};
ghost use Rattle.std.specs.Prelude.{option_and_then, option_map, position, slice_get, true};
ghost use Rattle.mqb_base.specs.Same.{same_id};
ghost use Rattle.mqb_contents.specs.Rooms.{IsGrown};
ghost use Rattle.mqb_model.specs.records.Releases.{has_recoverable, is_released_by};
ghost use Rattle.mqb_model.specs.records.Releases.{message_released, release_fits};
ghost use Rattle.mqb_model.specs.records.Releases.{without_released};
ghost use Rattle.mqb_model.specs.records.Stepwise.{releases_stepwise};
ghost use Rattle.mqb_model.specs.rules.Effects.{without_line};
ghost use Rattle.mqb_model.specs.rules.Numbers.{own_id};
ghost use Rattle.mqb_plain.specs.Lists.{messages_of};
ghost use Rattle.mqb_arrivals.specs.declared.faults.RecordFault.TheVariants as fault;

use crate::faults::RecordFault;
use mqb_base::{Lane, Line, Memory, Message, MessageId};
use mqb_contents::Contents;
use mqb_drafts::Draft;
use mqb_entries::Numbers;

fn index_of(messages: &[Message], id: MessageId) -> Option<usize>
    ensures index { result ≡ position (λ m. same_id m.id id) messages.now }
    ensures within { IfSome result (λ k. k < length messages.now) }
{
    messages.iter().position(|message| message.id == id)
}

fn own_id(contents: &Contents, number: u32) -> MessageId
    ensures { result ≡ own_id contents.now.lists number }
{
    MessageId {
        qm: contents.identity().guid,
        number,
    }
}

/// The index among the recoverable messages for a peer of the manager's own message of a number.
fn index_for(contents: &Contents, peer: u32, number: u32) -> Option<u32>
    requires { peer < length contents.now.lists.plain }
    ensures index { result ≡ option_and_then
        (λ p. position (is_released_by contents.now.lists number) p.recoverable)
        (slice_get contents.now.lists.plain peer) }
    ensures within { IfSome result (λ k. IfSome (slice_get contents.now.lists.plain peer)
        (λ p. k < length p.recoverable)) }
{
    let plain = contents.plain(peer);
    let _count = plain.len();
    let k = index_of(plain.recoverable(), own_id(contents, number))?;
    Some(k as u32)
}

/// The peer for which the message of a number waits, and its index.
fn place_of(contents: &Contents, number: u32) -> Option<(u32, u32)>
    ensures peer { option_map (λ at. at.0) result ≡
        position (has_recoverable contents.now.lists number) contents.now.lists.plain }
    ensures index { IfSome result (λ at. option_and_then
        (λ p. position (is_released_by contents.now.lists number) p.recoverable)
        (slice_get contents.now.lists.plain at.0) ≡ Some at.1) }
{
    for peer in 0..contents.peers().len() as u32 {
        if let Some(index) = index_for(contents, peer, number) {
            return Some((peer, index));
        }
    }
    None
}

/// A message leaves, and its line is noted.
fn take_out(draft: &mut Draft, peer: u32, index: u32, number: u32) -> Result<(), Memory>
    requires peer { position (has_recoverable draft.old.effect.state number)
        draft.old.effect.state.plain ≡ Some peer }
    requires index { option_and_then
        (λ p. position (is_released_by draft.old.effect.state number) p.recoverable)
        (slice_get draft.old.effect.state.plain peer) ≡ Some index }
    ensures ok { OnOk result (draft.new.effect ≡ message_released draft.old.effect number) }
    ensures start { draft.new.start ≡ draft.old.start }
    ensures grown { IsGrown draft.old.rooms draft.new.rooms }
    ensures held { OnOk result (draft.new.held ≤ draft.old.held) }
{
    let id = own_id(draft.contents(), number);
    draft.take_out_plain(peer, Lane::Durable, index)?;
    draft.note(Line::Released { id })
}

/// The message of a number is released.
fn release(draft: &mut Draft, number: u32) -> Result<(), RecordFault>
    ensures ok { OnOk result (draft.new.effect ≡ message_released draft.old.effect number) }
    ensures fit { OnOk result (release_fits draft.old.effect.state number ≡ true) }
    ensures start { draft.new.start ≡ draft.old.start }
    ensures grown { IsGrown draft.old.rooms draft.new.rooms }
    ensures held { OnOk result (draft.new.held ≤ draft.old.held) }
    ensures unfit { result ≡ Err fault.Unfit → release_fits draft.old.effect.state number ≡ false }
{
    let Some((peer, index)) = place_of(draft.contents(), number) else {
        return Err(RecordFault::Unfit);
    };
    take_out(draft, peer, index, number)?;
    Ok(())
}

/// The messages of numbers are released, one after another.
pub fn release_all(draft: &mut Draft, numbers: &Numbers<'_>) -> Result<(), RecordFault>
    ensures ok { OnOk result
        (releases_stepwise draft.old.effect numbers.now ≡ Some draft.new.effect) }
    ensures start { draft.new.start ≡ draft.old.start }
    ensures grown { IsGrown draft.old.rooms draft.new.rooms }
    ensures held { OnOk result (draft.new.held ≤ draft.old.held) }
    ensures unfit { result ≡ Err fault.Unfit →
        releases_stepwise draft.old.effect numbers.now ≡ None }
{
    for number in numbers.iter() {
        release(draft, number)?;
    }
    Ok(())
}
