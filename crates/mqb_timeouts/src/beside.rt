ghost use Rattle.std.specs.Prelude.{◌≡◌, ◌+◌, ◌*◌, ◌≤◌, OnOk};
ghost use Rattle.mqb_contents.specs.Rooms.{IsGrown};
ghost use Rattle.mqb_timeouts.specs.Work.{beside_of, express_count};
ghost use Rattle.mqb_model.specs.managers.Beside.{beside_done, express_sent, without_acked};
ghost use Rattle.mqb_model.specs.rules.Effects.{begun, without_line};
ghost use Rattle.mqb_model.specs.rules.Notices.{arrived};
ghost use Rattle.mqb_model.specs.state.Places.{with_plain};

use crate::acked::drop_acked;
use crate::lane_ticked;
use crate::work::ExpressWork;
use mqb_base::{Class, Lane, Memory, Message};
use mqb_rules::{Draft, arrive, plain_sent, purged, taken_at};

/// An express message takes its number and is sent.
fn send(draft: &mut Draft, message: Message, now: u32) -> Result<(), Memory>
    ensures ok { OnOk result (draft.new.effect ≡ without_line draft.old.effect
        (express_sent draft.old.effect.state message now)) }
    ensures start { draft.new.start ≡ draft.old.start }
    ensures grown { IsGrown draft.old.rooms draft.new.rooms }
    ensures held { OnOk result (draft.new.held ≤ draft.old.held + 3) }
{
    match draft.take_express_number() {
        Ok(()) => plain_sent(draft, message, now),
        Err(memory) => {
            let _message = message;
            Err(memory)
        }
    }
}

/// What a peer acknowledged leaves, and then an express message arrives from it, or is refused.
fn hear(
    draft: &mut Draft,
    peer: u32,
    number: u16,
    message: Message,
    now: u32,
    refusal: Option<Class>,
) -> Result<(), Memory>
    ensures ok { OnOk result (draft.new.effect ≡ without_line draft.old.effect
        (arrived (with_plain (without_acked number) draft.old.effect.state peer)
        message now refusal)) }
    ensures start { draft.new.start ≡ draft.old.start }
    ensures grown { IsGrown draft.old.rooms draft.new.rooms }
    ensures held { OnOk result (draft.new.held ≤ draft.old.held + 2) }
{
    match drop_acked(draft, peer, number) {
        Ok(()) => arrive(draft, message, now, refusal),
        Err(memory) => {
            let _message = message;
            Err(memory)
        }
    }
}

/// The work is done in a draft in which nothing was told before.
fn work_in(draft: &mut Draft, work: ExpressWork) -> Result<(), Memory>
    requires { draft.old.effect ≡ begun draft.old.effect.state }
    ensures ok { OnOk result (draft.new.effect.state ≡
        beside_done (beside_of work) draft.old.effect.state) }
    ensures start { draft.new.start ≡ draft.old.start }
    ensures grown { IsGrown draft.old.rooms draft.new.rooms }
    ensures held { OnOk result (draft.new.held ≤
        draft.old.held + 3 * express_count draft.old.effect.state work) }
{
    match work {
        ExpressWork::Nothing => Ok(()),
        ExpressWork::Sends { now, message } => send(draft, message, now),
        ExpressWork::Takes { now, at, index } => taken_at(draft, Lane::Express, at, index, now),
        ExpressWork::Purges { now, at } => purged(draft, Lane::Express, at, now),
        ExpressWork::Ticks { now } => lane_ticked(draft, Lane::Express, now),
        ExpressWork::Drops { peer, number } => drop_acked(draft, peer, number),
        ExpressWork::Hears {
            peer,
            number,
            now,
            message,
            refusal,
        } => hear(draft, peer, number, message, now, refusal),
    }
}

/// What a call does to express messages is done, by the rules by which records are. The lines
/// stay, also on a refusal.
pub fn beside_done(draft: &mut Draft, work: ExpressWork) -> Result<(), Memory>
    ensures ok { OnOk result (draft.new.effect.state ≡
        beside_done (beside_of work) draft.old.effect.state) }
    ensures lines { draft.new.effect.lines ≡ draft.old.effect.lines }
    ensures start { draft.new.start ≡ draft.old.start }
    ensures grown { IsGrown draft.old.rooms draft.new.rooms }
    ensures held { OnOk result (draft.new.held ≤
        draft.old.held + 3 * express_count draft.old.effect.state work) }
{
    let lines = draft.take_lines();
    let done = work_in(draft, work);
    draft.put_lines(lines);
    done
}
