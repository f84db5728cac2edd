ghost use Rattle.std.specs.Prelude.{◌≡◌, ◌+◌, ◌≤◌, false, IfOk, IfSome, IsSome, None, OnOk, Some};
ghost use Rattle.std.specs.Prelude.{length, ◌<◌, option_map, slice_get};
ghost use Rattle.mqb_base.specs.declared.class.TheConstants.Class.{REACHED_QUEUE};
ghost use Rattle.mqb_drafts.specs.mqb_contents.Rooms.{IsGrown};
ghost use Rattle.mqb_fate.specs.Asking.{final_is_due, goes_dead};
ghost use Rattle.mqb_fate.specs.Notices.{admin_delivery};
ghost use Rattle.mqb_model.specs.rules.Effects.{without_line};
ghost use Rattle.mqb_model.specs.rules.Notices.{admin_about, admin_told, buried, dead_place};
ghost use Rattle.mqb_model.specs.rules.Notices.{final_about, final_told, may_go, meets, told};
ghost use Rattle.mqb_model.specs.rules.Numbers.{number_left, number_taken};
ghost use Rattle.mqb_model.specs.state.Places.{placed};
ghost use Rattle.mqb_model.specs.state.Resolving.{peer_known};
ghost use Rattle.mqb_rules.specs.Following.{told_of};

use crate::arrivals::target_refusal;
use crate::placing::{number_left, place, put_at, take_number};
use crate::resolving::resolved;
use mqb_base::{Class, Delivery, EntryPlace, Guid, Memory, Message};
use mqb_drafts::{Contents, Draft};
use mqb_fate::{admin_for, final_for, goes_dead};
use mqb_model::Target;
use std::alloc::Global;

fn may_go(contents: &Contents, target: Target, delivery: Delivery) -> bool
    ensures { result ≡ may_go contents.now.lists target delivery }
{
    match target {
        Target::AtPeer(_) => true,
        Target::Here(_) | Target::Nowhere => target_refusal(contents, target, delivery).is_none(),
    }
}

/// A notice takes its number and goes.
fn send(draft: &mut Draft, target: Target, notice: Message) -> Result<(), Memory>
    requires { IsSome (number_left draft.old.effect.state notice.delivery) }
    ensures ok { OnOk result (draft.new.effect ≡ without_line draft.old.effect
        (placed (number_taken draft.old.effect.state notice.delivery) target notice)) }
    ensures start { draft.new.start ≡ draft.old.start }
    ensures grown { IsGrown draft.old.rooms draft.new.rooms }
    ensures held { OnOk result (draft.new.held ≤ draft.old.held + 1) }
{
    take_number(draft, notice.delivery)?;
    place(draft, target, notice)
}

/// A notice takes its number and goes, or is dropped and takes none.
pub(crate) fn tell(draft: &mut Draft, target: Target, notice: Message) -> Result<(), Memory>
    requires { IsSome (number_left draft.old.effect.state notice.delivery) }
    ensures ok { OnOk result (draft.new.effect ≡ without_line draft.old.effect
        (told draft.old.effect.state target notice)) }
    ensures own { OnOk result
        (draft.new.effect.state.identity ≡ draft.old.effect.state.identity) }
    ensures start { draft.new.start ≡ draft.old.start }
    ensures grown { IsGrown draft.old.rooms draft.new.rooms }
    ensures held { OnOk result (draft.new.held ≤ draft.old.held + 1) }
{
    if may_go(draft.contents(), target, notice.delivery) {
        send(draft, target, notice)
    } else {
        Ok(())
    }
}

/// A notice that follows goes where it leads.
pub(crate) fn tell_of(draft: &mut Draft, notice: Option<Message>) -> Result<(), Memory>
    requires { IfSome notice (λ n. IsSome (number_left draft.old.effect.state n.delivery)) }
    ensures ok { OnOk result (draft.new.effect ≡ without_line draft.old.effect
        (told_of draft.old.effect.state notice)) }
    ensures own { OnOk result
        (draft.new.effect.state.identity ≡ draft.old.effect.state.identity) }
    ensures start { draft.new.start ≡ draft.old.start }
    ensures grown { IsGrown draft.old.rooms draft.new.rooms }
    ensures held { OnOk result (draft.new.held ≤ draft.old.held + 1) }
{
    match notice {
        Some(notice) => {
            let target = resolved(draft.contents(), &notice.destination);
            tell(draft, target, notice)
        }
        None => Ok(()),
    }
}

fn admin_delivery(cause: Delivery) -> Delivery
    ensures { result ≡ admin_delivery cause }
{
    match cause {
        Delivery::Express => Delivery::Express,
        Delivery::Recoverable | Delivery::Transactional => Delivery::Recoverable,
    }
}

/// The administration message that follows, where a number is left for it.
pub(crate) fn admin_about(
    alloc: Global,
    contents: &Contents,
    message: &Message,
    class: Class,
    now: u32,
) -> Result<Option<Message>, Memory>
    ensures about { IfOk result (λ notice. notice ≡
        admin_about contents.now.lists message.now class now) }
    ensures numbered { IfOk result (λ notice. IfSome notice
        (λ n. IsSome (number_left contents.now.lists n.delivery))) }
{
    match number_left(contents, admin_delivery(message.delivery)) {
        Some(number) => admin_for(alloc, message, class, contents.identity().guid, number, now),
        None => Ok(None),
    }
}

/// It goes where the message's admin name leads.
fn tell_admin(draft: &mut Draft, message: &Message, class: Class, now: u32) -> Result<(), Memory>
    ensures ok { OnOk result (draft.new.effect ≡ without_line draft.old.effect
        (admin_told draft.old.effect.state message.now class now)) }
    ensures own { OnOk result
        (draft.new.effect.state.identity ≡ draft.old.effect.state.identity) }
    ensures start { draft.new.start ≡ draft.old.start }
    ensures grown { IsGrown draft.old.rooms draft.new.rooms }
    ensures held { OnOk result (draft.new.held ≤ draft.old.held + 1) }
{
    let notice = admin_about(draft.alloc(), draft.contents(), message, class, now)?;
    tell_of(draft, notice)
}

/// The index of the peer with a GUID.
#[tactic(auto, using(crate::proofs::Peers::known_guid))]
fn peer_known(contents: &Contents, guid: Guid) -> Option<u32>
    ensures known { result ≡ peer_known contents.now.lists guid }
    ensures within { IfSome result (λ k. k < length contents.now.lists.peers) }
    ensures guid { IfSome result (λ k.
        option_map (λ p. p.guid) (slice_get contents.now.lists.peers k) ≡ Some guid) }
{
    contents.peer_known(guid)
}

/// The final acknowledgement to the peer at an index that follows, where a number is left for it.
fn final_about(
    alloc: Global,
    contents: &Contents,
    k: u32,
    message: &Message,
    class: Class,
    now: u32,
) -> Result<Option<Message>, Memory>
    requires { option_map (λ p. p.guid) (slice_get contents.now.lists.peers k) ≡
        Some message.now.id.qm }
    ensures about { IfOk result (λ notice. Some notice ≡ option_map
        (λ p. final_about contents.now.lists p message.now class now)
        (slice_get contents.now.lists.peers k)) }
    ensures numbered { IfOk result (λ notice. IfSome notice
        (λ n. IsSome (number_left contents.now.lists n.delivery))) }
    ensures due { final_is_due message.now class contents.now.lists.identity.guid ≡ false →
        IfOk result (λ notice. notice ≡ None) }
{
    match number_left(contents, Delivery::Recoverable) {
        Some(number) => final_for(
            alloc,
            message,
            class,
            contents.identity(),
            &contents.peers()[k as usize],
            number,
            now,
        ),
        None => Ok(None),
    }
}

/// It goes to the peer that the message came from.
fn tell_final(draft: &mut Draft, message: &Message, class: Class, now: u32) -> Result<(), Memory>
    ensures ok { OnOk result (draft.new.effect ≡ without_line draft.old.effect
        (final_told draft.old.effect.state message.now class now)) }
    ensures own { OnOk result
        (draft.new.effect.state.identity ≡ draft.old.effect.state.identity) }
    ensures start { draft.new.start ≡ draft.old.start }
    ensures grown { IsGrown draft.old.rooms draft.new.rooms }
    ensures held { OnOk result (draft.new.held ≤ draft.old.held + 1) }
    ensures none { final_is_due message.now class draft.old.effect.state.identity.guid ≡ false →
        OnOk result (draft.new.held ≤ draft.old.held) }
{
    let Some(k) = peer_known(draft.contents(), message.id.qm) else {
        return Ok(());
    };
    match final_about(draft.alloc(), draft.contents(), k, message, class, now)? {
        Some(notice) => tell(draft, Target::AtPeer(k), notice),
        None => Ok(()),
    }
}

/// The dead-letter queue to which a message goes.
fn dead_place(contents: &Contents, message: &Message, class: Class) -> Option<EntryPlace>
    ensures place { result ≡ dead_place contents.now.lists message.now class }
    ensures none { goes_dead message.now class contents.now.lists.identity.guid ≡ None →
        result ≡ None }
{
    match goes_dead(message, class, contents.identity().guid) {
        Some(place) => contents.queues().place(&place),
        None => None,
    }
}

/// The message goes there.
fn bury(draft: &mut Draft, message: &Message, class: Class) -> Result<(), Memory>
    ensures ok { OnOk result (draft.new.effect ≡ without_line draft.old.effect
        (buried draft.old.effect.state message.now class)) }
    ensures start { draft.new.start ≡ draft.old.start }
    ensures grown { IsGrown draft.old.rooms draft.new.rooms }
    ensures held { OnOk result (draft.new.held ≤ draft.old.held + 1) }
    ensures none { goes_dead message.now class draft.old.effect.state.identity.guid ≡ None →
        OnOk result (draft.new.held ≤ draft.old.held) }
{
    match dead_place(draft.contents(), message, class) {
        Some(at) => put_at(draft, at, message.clone()?),
        None => Ok(()),
    }
}

/// A message meets a class: an administration message, a final acknowledgement and a dead letter
/// may follow, in this order.
pub fn meets(draft: &mut Draft, message: &Message, class: Class, now: u32) -> Result<(), Memory>
    ensures ok { OnOk result (draft.new.effect ≡ without_line draft.old.effect
        (meets draft.old.effect.state message.now class now)) }
    ensures start { draft.new.start ≡ draft.old.start }
    ensures grown { IsGrown draft.old.rooms draft.new.rooms }
    ensures held { OnOk result (draft.new.held ≤ draft.old.held + 2) }

    // Of what reached its queue only an administration message tells.
    ensures held_reached { class ≡ REACHED_QUEUE →
        OnOk result (draft.new.held ≤ draft.old.held + 1) }
{
    tell_admin(draft, message, class, now)?;
    tell_final(draft, message, class, now)?;
    bury(draft, message, class)
}
