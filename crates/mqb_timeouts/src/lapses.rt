ghost use Rattle.std.specs.Prelude.{◌≡◌, ◌+◌, ◌*◌, ◌<◌, ◌≤◌, All, IfOk, IfSome, IsSomeAnd, OnOk};
ghost use Rattle.std.specs.Prelude.{count_by, false, length, option_copied, position, slice_get};
ghost use Rattle.std.specs.Prelude.{sum_by, take};
ghost use Rattle.std.specs.Option.{option_map, option_map_or};
ghost use Rattle.mqb_contents.specs.Rooms.{IsGrown};
ghost use Rattle.mqb_model.specs.Loops.{for_each_below};
ghost use Rattle.mqb_model.specs.rules.Effects.{joined};
ghost use Rattle.mqb_model.specs.rules.Timeouts.{cannot_reach, lapses, lapsing_in, message_lapsed};
ghost use Rattle.mqb_model.specs.rules.Timeouts.{next_lapsed, peer_lapsed};
ghost use Rattle.mqb_plain.specs.Lists.{messages_of};
ghost use Rattle.mqb_plain.specs.Plain.{outgoing_in};
ghost use Rattle.mqb_timeouts.specs.Waiting.{NoneLapses, lapsed_count, waiting};

use mqb_base::{Class, Lane, Line, Memory, Message, is_due};
use mqb_contents::Contents;
use mqb_plain::PlainOut;
use mqb_rules::{Draft, meets};

pub(crate) fn cannot_reach(message: &Message, now: u32) -> bool
    ensures { result ≡ cannot_reach now message.now }
{
    is_due(message.sent, message.reach, now)
}

fn index_due(messages: &[Message], now: u32) -> Option<usize>
    ensures index { result ≡ position (cannot_reach now) messages.now }
    ensures within { IfSome result (λ k. k < length messages.now) }
{
    messages
        .iter()
        .position(|message| cannot_reach(message, now))
}

/// The same, where none of the first ones is due.
fn index_due_from(messages: &[Message], from: usize, now: u32) -> Option<usize>
    requires { All (λ m. cannot_reach now m ≡ false) (take from messages.now) }
    ensures index { result ≡ position (cannot_reach now) messages.now }
    ensures within { IfSome result (λ k. k < length messages.now) }
{
    if from >= messages.len() {
        return None;
    }
    match index_due(&messages[from..], now) {
        Some(k) => Some(from + k),
        None => None,
    }
}

fn count_due(messages: &[Message], now: u32) -> usize
    ensures { result ≡ count_by (cannot_reach now) messages.now }
{
    messages
        .iter()
        .filter(|message| cannot_reach(message, now))
        .count()
}

fn messages_in(plain: &PlainOut, lane: Lane) -> &[Message]
    ensures { result.now ≡ messages_of (outgoing_in lane plain.now.lists) }
{
    match lane {
        Lane::Durable => plain.recoverable(),
        Lane::Express => plain.express(),
    }
}

/// The plain messages of a lane for the peer at an index, where the peer is there.
fn messages_for(contents: &Contents, lane: Lane, k: u32) -> Option<&[Message]>
    ensures messages { option_copied result ≡ option_map
        (λ p. messages_of (outgoing_in lane p)) (slice_get contents.now.lists.plain k) }
    ensures there { IfSome (option_copied result) (λ m. k < length contents.now.lists.plain) }
{
    if (k as usize) < contents.peers().len() {
        Some(messages_in(contents.plain(k), lane))
    } else {
        None
    }
}

/// The index of the next plain message of a lane for the peer at an index that lapses.
fn index_lapsing(contents: &Contents, lane: Lane, k: u32, from: u32, now: u32) -> Option<u32>
    requires { NoneLapses lane now contents.now.lists k from }
    ensures { result ≡ position (lapses now) (waiting lane contents.now.lists k) }
{
    let messages = messages_for(contents, lane, k)?;
    if from >= contents.plain_count(k, lane) {
        return None;
    }
    match index_due_from(messages, from as usize, now) {
        Some(index) => Some(index as u32),
        None => None,
    }
}

fn lapsing_in(plain: &PlainOut, lane: Lane, now: u32) -> u32
    ensures { result ≡ lapsing_in lane now plain.now.lists }
{
    let _few = plain.len();
    count_due(messages_in(plain, lane), now) as u32
}

/// How many plain messages of a lane for the peer at an index lapse.
pub fn count_lapsing(contents: &Contents, lane: Lane, k: u32, now: u32) -> u32
    ensures { result ≡ lapsed_count lane now contents.now.lists k }
{
    if (k as usize) < contents.peers().len() {
        lapsing_in(contents.plain(k), lane, now)
    } else {
        0
    }
}

/// A copy of the plain message of a lane for the peer at an index.
fn copy_of(contents: &Contents, lane: Lane, k: u32, index: u32) -> Result<Option<Message>, Memory>
    ensures copy { IfOk result (λ copy. copy ≡ option_map (λ o. o.message)
        (slice_get (waiting lane contents.now.lists k) index)) }
    ensures there { IfOk result (λ copy. IfSome copy (λ m.
        IsSomeAnd (slice_get contents.now.lists.plain k)
        (λ p. index < length (outgoing_in lane p)))) }
{
    match message_of(contents, lane, k, index) {
        Some(message) => Ok(Some(message.clone()?)),
        None => Ok(None),
    }
}

fn message_of(contents: &Contents, lane: Lane, k: u32, index: u32) -> Option<&Message>
    ensures { option_copied result ≡ option_map (λ o. o.message)
        (slice_get (waiting lane contents.now.lists k) index) }
{
    messages_for(contents, lane, k)?.get(index as usize)
}

/// The plain message of a lane for the peer at an index, of which this is a copy, lapses.
fn lapse(
    draft: &mut Draft,
    lane: Lane,
    k: u32,
    index: u32,
    message: &Message,
    now: u32,
) -> Result<(), Memory>
    requires { IsSomeAnd (slice_get draft.old.effect.state.plain k)
        (λ p. index < length (outgoing_in lane p)) }
    ensures ok { OnOk result (draft.new.effect ≡ joined draft.old.effect
        (message_lapsed lane now k index draft.old.effect.state message.now)) }
    ensures start { draft.new.start ≡ draft.old.start }
    ensures grown { IsGrown draft.old.rooms draft.new.rooms }
    ensures held { OnOk result (draft.new.held ≤ draft.old.held + 2) }
{
    draft.take_out_plain(k, lane, index)?;
    meets(draft, message, Class::REACH_TIMEOUT, now)?;
    draft.note(Line::Lapsed { id: message.id })
}

/// It lapses, where it is there.
fn lapse_at(draft: &mut Draft, lane: Lane, k: u32, index: u32, now: u32) -> Result<(), Memory>
    ensures ok { OnOk result (draft.new.effect ≡ option_map_or (λ m. joined draft.old.effect
        (message_lapsed lane now k index draft.old.effect.state m))
        (option_map (λ o. o.message) (slice_get (waiting lane draft.old.effect.state k) index))
        draft.old.effect) }
    ensures start { draft.new.start ≡ draft.old.start }
    ensures grown { IsGrown draft.old.rooms draft.new.rooms }
    ensures held { OnOk result (draft.new.held ≤ draft.old.held + 2) }
{
    match copy_of(draft.contents(), lane, k, index)? {
        Some(message) => lapse(draft, lane, k, index, &message, now),
        None => Ok(()),
    }
}

/// The next plain message for the peer at an index lapses, where there is one. No message before
/// `from` does, and none before the answer does then.
fn lapse_next(draft: &mut Draft, lane: Lane, k: u32, from: u32, now: u32) -> Result<u32, Memory>
    requires { NoneLapses lane now draft.old.effect.state k from }
    ensures ok { OnOk result (draft.new.effect ≡ next_lapsed lane now k draft.old.effect) }
    ensures next { IfOk result (λ next. NoneLapses lane now draft.new.effect.state k next) }
    ensures start { draft.new.start ≡ draft.old.start }
    ensures grown { IsGrown draft.old.rooms draft.new.rooms }
    ensures held { OnOk result (draft.new.held ≤ draft.old.held + 2) }
{
    match index_lapsing(draft.contents(), lane, k, from, now) {
        Some(index) => {
            lapse_at(draft, lane, k, index, now)?;
            Ok(index)
        }
        None => Ok(from),
    }
}

/// The plain messages of a lane for the peer at an index that are due lapse.
fn lapse_peer(draft: &mut Draft, lane: Lane, k: u32, now: u32) -> Result<(), Memory>
    ensures ok { OnOk result (draft.new.effect ≡ peer_lapsed lane now k draft.old.effect) }
    ensures start { draft.new.start ≡ draft.old.start }
    ensures grown { IsGrown draft.old.rooms draft.new.rooms }
    ensures held { OnOk result (draft.new.held ≤
        draft.old.held + 2 * lapsed_count lane now draft.old.effect.state k) }
{
    let mut from = 0;
    for _ in 0..count_lapsing(draft.contents(), lane, k, now) {
        from = lapse_next(draft, lane, k, from, now)?;
    }
    Ok(())
}

/// Those for all peers do, peer by peer.
pub(crate) fn lapse_peers(draft: &mut Draft, lane: Lane, now: u32) -> Result<(), Memory>
    ensures ok { OnOk result (draft.new.effect ≡ for_each_below
        (length draft.old.effect.state.plain) (peer_lapsed lane now) draft.old.effect) }
    ensures start { draft.new.start ≡ draft.old.start }
    ensures grown { IsGrown draft.old.rooms draft.new.rooms }
    ensures held { OnOk result (draft.new.held ≤ draft.old.held +
        2 * sum_by (lapsing_in lane now) draft.old.effect.state.plain) }
{
    for k in 0..draft.contents().peers().len() as u32 {
        lapse_peer(draft, lane, k, now)?;
    }
    Ok(())
}
