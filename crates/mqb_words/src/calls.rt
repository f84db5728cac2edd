ghost use Rattle.std.specs.Prelude.{◌≡◌, map};
ghost use Rattle.mqb_forms.specs.Faults.{Reads};
ghost use Rattle.mqb_words.specs.Calls.{peer_from, create_from, sent_with, send_from, commit_from};
ghost use Rattle.mqb_words.specs.Calls.{take_from, purge_from, tick_from, roll_from};

use crate::commands::Call;
use crate::values::identity_of;
use mqb_forms::{LineFault, LineKind, how_of, ops_of, place_of, plan_of, roll_of, send_of};
use std::alloc::Global;

#[tactic(auto, unfolding(crate::specs::Calls::peer_from))]
pub(crate) fn peer_from(alloc: Global, words: &[&[u8]]) -> Result<Call, LineFault>
    ensures { Reads (peer_from (map (λ word. word.now) words.now)) result }
{
    let [_store, host, guid, address] = words else {
        return Err(LineFault::VALUE);
    };
    Ok(Call::AddPeer(identity_of(alloc, host, guid, address)?))
}

#[tactic(auto, unfolding(crate::specs::Calls::create_from))]
pub(crate) fn create_from(alloc: Global, words: &[&[u8]]) -> Result<Call, LineFault>
    ensures { Reads (create_from (map (λ word. word.now) words.now)) result }
{
    let [_store, name, kind, quota, journal, guid @ ..] = words else {
        return Err(LineFault::VALUE);
    };
    Ok(Call::CreateQueue(plan_of(alloc, name, kind, quota, journal, guid)?))
}

#[tactic(auto, unfolding(crate::specs::Calls::sent_with))]
fn sent_with(alloc: Global, kind: &[u8], priority: &[u8], send: &[u8]) -> Result<Call, LineFault>
    ensures { Reads (sent_with kind.now priority.now send.now) result }
{
    let (recoverable, priority) = how_of(kind, priority)?;
    let draft = send_of(alloc, priority, send)?;
    Ok(Call::Send { recoverable, draft })
}

#[tactic(auto, unfolding(crate::specs::Calls::send_from))]
pub(crate) fn send_from(alloc: Global, words: &[&[u8]]) -> Result<Call, LineFault>
    ensures { Reads (send_from (map (λ word. word.now) words.now)) result }
{
    let [_store, kind, priority, send] = words else {
        return Err(LineFault::VALUE);
    };
    sent_with(alloc, kind, priority, send)
}

#[tactic(auto, unfolding(crate::specs::Calls::commit_from))]
pub(crate) fn commit_from(alloc: Global, words: &[&[u8]]) -> Result<Call, LineFault>
    ensures { Reads (commit_from (map (λ word. word.now) words.now)) result }
{
    let [_store, ops @ ..] = words else {
        return Err(LineFault::VALUE);
    };
    if ops.is_empty() {
        return Err(LineFault::VALUE);
    }
    Ok(Call::Commit(ops_of(alloc, ops)?))
}

#[tactic(auto, unfolding(crate::specs::Calls::take_from))]
pub(crate) fn take_from(alloc: Global, words: &[&[u8]]) -> Result<Call, LineFault>
    ensures { Reads (take_from (map (λ word. word.now) words.now)) result }
{
    let [_store, place] = words else {
        return Err(LineFault::VALUE);
    };
    Ok(Call::Take(place_of(alloc, place)?))
}

#[tactic(auto, unfolding(crate::specs::Calls::purge_from))]
pub(crate) fn purge_from(alloc: Global, words: &[&[u8]]) -> Result<Call, LineFault>
    ensures { Reads (purge_from (map (λ word. word.now) words.now)) result }
{
    let [_store, place] = words else {
        return Err(LineFault::VALUE);
    };
    Ok(Call::Purge(place_of(alloc, place)?))
}

#[tactic(auto, unfolding(crate::specs::Calls::tick_from))]
pub(crate) fn tick_from(words: &[&[u8]]) -> Result<Call, LineKind>
    ensures { result ≡ tick_from (map (λ word. word.now) words.now) }
{
    let [_store] = words else {
        return Err(LineKind::Value);
    };
    Ok(Call::Tick)
}

#[tactic(auto, unfolding(crate::specs::Calls::roll_from))]
pub(crate) fn roll_from(words: &[&[u8]]) -> Result<Call, LineKind>
    ensures { result ≡ roll_from (map (λ word. word.now) words.now) }
{
    let [_store, count] = words else {
        return Err(LineKind::Value);
    };
    let count = roll_of(count)?;
    Ok(Call::SetRoll { count })
}
