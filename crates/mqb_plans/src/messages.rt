ghost use Rattle.std.specs.Prelude.{◌≡◌, IfOk, None, false, if◌then◌else◌, true};
ghost use Rattle.mqb_base.specs.Drafts.{draft_fault};
ghost use Rattle.mqb_base.specs.Messages.{IsWellFormed};
ghost use Rattle.mqb_base.specs.declared.message.Delivery.TheVariants.{Express, Recoverable};
ghost use Rattle.mqb_model.specs.calls.Messages.{plain_message};

use mqb_base::{Delivery, Memory, Message, MessageId, Parts};
use mqb_contents::Contents;
use mqb_rules::message_of;

/// The number of the next message of its kind.
fn next_number(contents: &Contents, recoverable: bool) -> u32
    ensures recoverable { recoverable ≡ true → result ≡ contents.now.lists.next_number }
    ensures express { recoverable ≡ false → result ≡ contents.now.lists.next_express }
{
    if recoverable {
        contents.next_number()
    } else {
        contents.next_express()
    }
}

fn delivery_of(recoverable: bool) -> Delivery
    ensures { result ≡ (if recoverable then Recoverable else Express) }
{
    if recoverable {
        Delivery::Recoverable
    } else {
        Delivery::Express
    }
}

/// A message that is not transactional, of what its sender chose.
pub(crate) fn plain_message(
    contents: &Contents,
    parts: &Parts,
    recoverable: bool,
    now: u32,
) -> Result<Message, Memory>
    requires { draft_fault parts.now ≡ None }
    ensures message { IfOk result (λ m.
        m ≡ plain_message contents.now.lists recoverable now parts.now) }
    ensures well_formed { IfOk result IsWellFormed }
{
    let id = MessageId {
        qm: contents.identity().guid,
        number: next_number(contents, recoverable),
    };
    let message = message_of(id, delivery_of(recoverable), parts.priority, now, parts)?;
    Ok(message)
}
