ghost use Rattle.std.specs.Prelude.{◌≡◌, IfOk, None};
ghost use Rattle.mqb_base.specs.Drafts.{draft_fault};
ghost use Rattle.mqb_base.specs.Messages.{IsWellFormed};
ghost use Rattle.mqb_base.specs.declared.message.Delivery.TheVariants.{Recoverable};
ghost use Rattle.mqb_model.specs.calls.Messages.{message_of};

use mqb_base::{Delivery, Memory, Message, MessageId, Parts};
use mqb_rules::message_of;

/// The message of a send, as the record tells of it: of what its sender chose all but the
/// priority, which is 0.
pub(crate) fn recorded_message(id: MessageId, now: u32, parts: &Parts) -> Result<Message, Memory>
    requires { draft_fault parts.now ≡ None }
    ensures message { IfOk result (λ m. m ≡ message_of id Recoverable 0 now parts.now) }
    ensures well_formed { IfOk result IsWellFormed }
{
    let message = message_of(id, Delivery::Recoverable, 0, now, parts)?;
    Ok(message)
}
