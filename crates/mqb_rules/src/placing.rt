ghost use Rattle.std.specs.Prelude.{◌≡◌, ◌+◌, ◌≤◌, IsSome, OnOk, is_some};
ghost use Rattle.mqb_drafts.specs.mqb_contents.Rooms.{IsGrown};
ghost use Rattle.mqb_model.specs.rules.Effects.{without_line};
ghost use Rattle.mqb_model.specs.rules.Numbers.{number_left, number_taken};
ghost use Rattle.mqb_model.specs.state.Places.{placed, put_at};
ghost use Rattle.mqb_model.specs.declared.target.Target.TheVariants.{AtPeer};
ghost use Rattle.mqb_queue.specs.Places.{lists_at};

use mqb_base::{Delivery, EntryPlace, Memory, Message};
use mqb_drafts::{Contents, Draft};
use mqb_model::{MAX_NUMBER, Target};

fn is_there(contents: &Contents, at: EntryPlace) -> bool
    ensures { result ≡ is_some (lists_at contents.now.lists.places at) }
{
    contents.queues().len_at(at).is_some()
}

/// A message joins its lane of a place, where the place is there.
pub(crate) fn put_at(draft: &mut Draft, at: EntryPlace, message: Message) -> Result<(), Memory>
    ensures ok { OnOk result (draft.new.effect ≡ without_line draft.old.effect
        (put_at draft.old.effect.state at message)) }
    ensures start { draft.new.start ≡ draft.old.start }
    ensures grown { IsGrown draft.old.rooms draft.new.rooms }
    ensures held { OnOk result (draft.new.held ≤ draft.old.held + 1) }
{
    if is_there(draft.contents(), at) {
        draft.put(at, message)
    } else {
        Ok(())
    }
}

/// A message joins the plain messages for a peer, where the peer is there.
#[tactic(auto, using(std::proofs::lemmas::Option::slice_get_past))]
fn put_plain(draft: &mut Draft, peer: u32, message: Message) -> Result<(), Memory>
    ensures ok { OnOk result (draft.new.effect ≡ without_line draft.old.effect
        (placed draft.old.effect.state (AtPeer peer) message)) }
    ensures start { draft.new.start ≡ draft.old.start }
    ensures grown { IsGrown draft.old.rooms draft.new.rooms }
    ensures held { OnOk result (draft.new.held ≤ draft.old.held + 1) }
{
    if (peer as usize) < draft.contents().peers().len() {
        draft.push_plain(peer, message)
    } else {
        Ok(())
    }
}

/// A message goes where its name leads.
pub(crate) fn place(draft: &mut Draft, target: Target, message: Message) -> Result<(), Memory>
    ensures ok { OnOk result (draft.new.effect ≡ without_line draft.old.effect
        (placed draft.old.effect.state target message)) }
    ensures start { draft.new.start ≡ draft.old.start }
    ensures grown { IsGrown draft.old.rooms draft.new.rooms }
    ensures held { OnOk result (draft.new.held ≤ draft.old.held + 1) }
{
    match target {
        Target::Here(Some(number)) => put_at(draft, EntryPlace::Queue(number), message),
        Target::AtPeer(peer) => put_plain(draft, peer, message),
        Target::Here(None) | Target::Nowhere => Ok(()),
    }
}

/// The number of the next message of a delivery, where one is left.
pub(crate) fn number_left(contents: &Contents, delivery: Delivery) -> Option<u32>
    ensures { result ≡ number_left contents.now.lists delivery }
{
    match delivery {
        Delivery::Express => Some(contents.next_express()),
        Delivery::Recoverable | Delivery::Transactional => {
            if contents.next_number() <= MAX_NUMBER {
                Some(contents.next_number())
            } else {
                None
            }
        }
    }
}

/// That number is taken.
pub(crate) fn take_number(draft: &mut Draft, delivery: Delivery) -> Result<(), Memory>
    requires { IsSome (number_left draft.old.effect.state delivery) }
    ensures ok { OnOk result (draft.new.effect ≡ without_line draft.old.effect
        (number_taken draft.old.effect.state delivery)) }
    ensures start { draft.new.start ≡ draft.old.start }
    ensures grown { IsGrown draft.old.rooms draft.new.rooms }
    ensures held { OnOk result (draft.new.held ≤ draft.old.held) }
{
    match delivery {
        Delivery::Express => draft.take_express_number(),
        Delivery::Recoverable | Delivery::Transactional => draft.take_number(),
    }
}
