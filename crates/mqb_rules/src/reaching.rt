ghost use Rattle.std.specs.Prelude.{◌≡◌, ◌+◌, ◌≤◌, IfSome, IsSome, OnOk};
ghost use Rattle.mqb_base.specs.declared.class.TheConstants.Class.{REACHED_QUEUE};
ghost use Rattle.mqb_drafts.specs.mqb_contents.Rooms.{IsGrown};
ghost use Rattle.mqb_model.specs.rules.Effects.{without_line};
ghost use Rattle.mqb_model.specs.rules.Notices.{meets};
ghost use Rattle.mqb_model.specs.rules.Numbers.{number_left};
ghost use Rattle.mqb_model.specs.state.Places.{placed};
ghost use Rattle.mqb_rules.specs.Following.{told_of};

use crate::notices::{admin_about, tell_of};
use crate::placing::place;
use mqb_base::{Class, Memory, Message};
use mqb_drafts::Draft;
use mqb_model::Target;

/// A message goes where its name leads, and then what tells of that.
#[tactic(auto, using(crate::proofs::Following::still_left))]
fn place_and_tell(
    draft: &mut Draft,
    target: Target,
    message: Message,
    notice: Option<Message>,
) -> Result<(), Memory>
    requires { IfSome notice (λ n. IsSome (number_left draft.old.effect.state n.delivery)) }
    ensures ok { OnOk result (draft.new.effect ≡ without_line draft.old.effect
        (told_of (placed draft.old.effect.state target message) notice)) }
    ensures start { draft.new.start ≡ draft.old.start }
    ensures grown { IsGrown draft.old.rooms draft.new.rooms }
    ensures held { OnOk result (draft.new.held ≤ draft.old.held + 2) }
{
    place(draft, target, message)?;
    tell_of(draft, notice)
}

/// A message is put here and meets the class of that: only an administration message can follow,
/// which is made before the message is given away.
#[tactic(auto, using(crate::proofs::Following::reached_put))]
pub(crate) fn reach(
    draft: &mut Draft,
    target: Target,
    message: Message,
    now: u32,
) -> Result<(), Memory>
    ensures ok { OnOk result (draft.new.effect ≡ without_line draft.old.effect
        (meets (placed draft.old.effect.state target message) message REACHED_QUEUE now)) }
    ensures start { draft.new.start ≡ draft.old.start }
    ensures grown { IsGrown draft.old.rooms draft.new.rooms }
    ensures held { OnOk result (draft.new.held ≤ draft.old.held + 2) }
{
    let class = Class::REACHED_QUEUE;
    let notice = admin_about(draft.alloc(), draft.contents(), &message, class, now)?;
    place_and_tell(draft, target, message, notice)
}
